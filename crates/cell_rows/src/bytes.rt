// Bytes as runs of bits, the lowest bit of a byte first.
ghost use Rattle.std.specs.Prelude.{◌≡◌, ◌≢◌, ℕ, ◌*◌, ◌<◌, ◌≤◌, ◌&&◌, true, false, IsTrue, IsFalse, length, nat_eq, if◌then◌else◌};
ghost use Rattle.std.specs.Int.{bit_at};
ghost use Rattle.cell_rows.specs.Rows.{bit_of, members, xor};

use crate::blocks::read_block;
use std::simd::prelude::*;

// How many bytes go through one step of lanes.
const LANES: usize = 16;

pub(crate) fn bit(bytes: &[u8], number: usize) -> bool
    requires { number < 8 * length bytes.now }
    ensures { result ≡ bit_of bytes.now number }
{
    bytes[number / 8] >> (number % 8) & 1 == 1
}

fn with_bit(byte: u8, index: usize, value: bool) -> u8
    requires { index < 8 }
    ensures is { nat_eq (bit_at result index) 1 ≡ value }
    ensures kept { (i : ℕ) → i < 8 → i ≢ index → bit_at result i ≡ bit_at byte i }
{
    if value {
        byte | 1 << index
    } else {
        byte & !(1 << index)
    }
}

pub(crate) fn set_bit(bytes: &mut [u8], number: usize, value: bool)
    requires { number < 8 * length bytes.old }
    ensures { (n : ℕ) → bit_of bytes.new n
        ≡ (if nat_eq n number then value else bit_of bytes.old n) }
{
    bytes[number / 8] = with_bit(bytes[number / 8], number % 8, value);
}

pub(crate) fn xor_with(bytes: &mut [u8], other: &[u8])
    requires { length bytes.old ≡ length other.now }
    ensures bits { (n : ℕ) → bit_of bytes.new n ≡ xor (bit_of bytes.old n) (bit_of other.now n) }
    ensures same { ((n : ℕ) → bit_of bytes.new n ≡ false) → bytes.old ≡ other.now }
{
    for step in 0..bytes.len() / LANES {
        let at = LANES * step;
        let lanes = u8x16::from_slice(&bytes[at..]) ^ u8x16::from_slice(&other[at..]);
        lanes.copy_to_slice(&mut bytes[at..]);
    }
    for i in bytes.len() / LANES * LANES..bytes.len() {
        bytes[i] ^= other[i];
    }
}

pub(crate) fn and_with(bytes: &mut [u8], other: &[u8])
    requires { length bytes.old ≡ length other.now }
    ensures { (n : ℕ) → bit_of bytes.new n ≡ bit_of bytes.old n && bit_of other.now n }
{
    for step in 0..bytes.len() / LANES {
        let at = LANES * step;
        let lanes = u8x16::from_slice(&bytes[at..]) & u8x16::from_slice(&other[at..]);
        lanes.copy_to_slice(&mut bytes[at..]);
    }
    for i in bytes.len() / LANES * LANES..bytes.len() {
        bytes[i] &= other[i];
    }
}

pub(crate) fn is_zero(bytes: &[u8]) -> bool
    ensures none { IsTrue result → (n : ℕ) → bit_of bytes.now n ≡ false }
    ensures some { IsFalse result → (n : ℕ) × (n < 8 * length bytes.now)
        × (bit_of bytes.now n ≡ true) }
{
    let mut lanes = u8x16::splat(0);
    for step in 0..bytes.len() / LANES {
        lanes |= u8x16::from_slice(&bytes[LANES * step..]);
    }
    let mut all = lanes.reduce_or();
    for i in bytes.len() / LANES * LANES..bytes.len() {
        all |= bytes[i];
    }
    all == 0
}

// How many bits are 1.
pub(crate) fn ones(bytes: &[u8]) -> u32
    requires { length bytes.now ≤ 128 }
    ensures { result ≡ members (bit_of bytes.now) (8 * length bytes.now) }
{
    let mut total = 0;
    for block in 0..bytes.len() / 8 {
        total += read_block(bytes, block).count_ones();
    }
    for i in bytes.len() / 8 * 8..bytes.len() {
        total += bytes[i].count_ones();
    }
    total
}
