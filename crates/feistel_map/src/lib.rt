//! The static randomiser of a module's lines: a Feistel network of three rounds, which spreads neighbouring lines over
//! banks and regions (Qureshi et al., MICRO 2009). Its keys are words of a seed, and hide nothing.
#![tactic(auto)]

ghost use Rattle.std.specs.Prelude.{◌≡◌, ℕ, ◌+◌, ◌*◌, ◌/◌, ◌%◌, ◌^◌, ◌<◌, ◌≤◌, bit_xor};
ghost use Rattle.feistel_map.specs.Network.{IsNetwork, network_of, three_rounds, feistel, unfeistel};
ghost use Rattle.rand_core.specs.Stream.{next_u64};
ghost use Rattle.rand_core.specs.Steps.{stream_of};
ghost use Rattle.rand_xoshiro.specs.SplitMix64.{splitmix_steps};

mod address;
mod halves;

pub use address::Address;
use halves::Halves;
use rand_core::{Rng, SeedableRng};
use rand_xoshiro::SplitMix64;
use std::marker::Model;

/// A bijection of the numbers below 2^bits.
#[derive(Clone, Copy, PartialEq, Eq)]
pub struct Feistel {
    bits: u32,
    first: u16,
    second: u16,
    third: u16,
}

impl Model for Feistel {
    ghost use Rattle.feistel_map.specs.Network.{Network, IsNetwork};

    ghost Value = { Network };

    ghost view = { λ f. record {
      bits = f.bits;
      first = f.first;
      second = f.second;
      third = f.third;
    } };

    ghost invariant = { λ f. IsNetwork (record {
      bits = f.bits;
      first = f.first;
      second = f.second;
      third = f.third;
    }) };

    ghost inverse = { λ n. record {
      bits = n.bits;
      first = n.first;
      second = n.second;
      third = n.third;
    } };
}

impl Feistel {
    /// The network over `bits` bits, 2 to 32, whose keys are the low 16 bits of the seed's first three words.
    pub fn new(bits: u32, seed: u64) -> Feistel
        requires some_bits { 2 ≤ bits }
        requires few_bits { bits ≤ 32 }
        ensures keys { result ≡ network_of bits seed }
        ensures in_range { IsNetwork result }
    {
        let mut words = SplitMix64::seed_from_u64(seed);
        let first = next_key(&mut words);
        let second = next_key(&mut words);
        let third = next_key(&mut words);
        Feistel {
            bits,
            first,
            second,
            third,
        }
    }

    /// The number that a number below 2^bits is mixed into.
    pub fn forward(&self, line: u32) -> u32
        requires { line < 2 ^ self.now.bits }
        ensures mixed { result ≡ feistel self.now line }
        ensures within { result < 2 ^ self.now.bits }
        ensures inverse { unfeistel self.now result ≡ line }
    {
        self.rounds(line, self.first, self.third)
    }

    /// The number below 2^bits that is mixed into this one.
    pub fn back(&self, line: u32) -> u32
        requires { line < 2 ^ self.now.bits }
        ensures unmixed { result ≡ unfeistel self.now line }
        ensures within { result < 2 ^ self.now.bits }
        ensures inverse { feistel self.now result ≡ line }
    {
        self.rounds(line, self.third, self.first)
    }

    // Three rounds, the first and the last with these keys.
    fn rounds(&self, line: u32, first: u16, last: u16) -> u32
        requires { line < 2 ^ self.now.bits }
        ensures value { result ≡ three_rounds self.now.bits first self.now.second last line }
        ensures within { result < 2 ^ self.now.bits }
    {
        Halves::of(self.bits, line)
            .change_left(self.bits, first)
            .change_right(self.bits, self.second)
            .change_left(self.bits, last)
            .join(self.bits)
    }
}

// The low 16 bits of the next word.
fn next_key(words: &mut SplitMix64) -> u16
    ensures key { result ≡ (next_u64 (stream_of splitmix_steps words.old)).0 % 65536 }
    ensures left { stream_of splitmix_steps words.new
        ≡ (next_u64 (stream_of splitmix_steps words.old)).1 }
{
    (words.next_u64() % 65536) as u16
}
