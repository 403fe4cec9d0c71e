//! Hexadecimal digits, written by lanes.
ghost use Rattle.std.specs.Prelude.{◌≡◌, ℕ, ◌<◌, ◌∷◌, [], map, slice_index};
ghost use Rattle.hex.specs.Hex.{encode_lower, lower_digits};

use std::simd::prelude::*;

/// How many bytes go through one step of lanes.
pub const BYTES: usize = 16;

// How far the letters stand behind the digits that would follow `9`.
const LETTERS_BEHIND: u8 = b'a' - b'9' - 1;

// The digits of numbers below 16.
#[inline(always)]
fn digits_of_values(values: u8x16) -> u8x16
    requires { (k : ℕ) → k < BYTES → slice_index values k < 16 }
    ensures { result ≡ map (λ value. slice_index lower_digits value) values }
{
    let are_letters = values.simd_gt(u8x16::splat(9));
    let more = are_letters.select(u8x16::splat(LETTERS_BEHIND), u8x16::splat(0));
    values + u8x16::splat(b'0') + more
}

/// The two digits of each of so many bytes, the high one first.
#[inline(always)]
pub fn digits_of(bytes: &[u8; BYTES]) -> [u8; 2 * BYTES]
    ensures { result ≡ encode_lower bytes.now }
{
    let bytes = u8x16::from_array(*bytes);
    let high = digits_of_values(bytes >> u8x16::splat(4));
    let low = digits_of_values(bytes & u8x16::splat(15));
    let pairs: u8x32 = high.shuffle(
        low,
        [
            0, 16, 1, 17, 2, 18, 3, 19, 4, 20, 5, 21, 6, 22, 7, 23, 8, 24, 9, 25, 10, 26, 11, 27,
            12, 28, 13, 29, 14, 30, 15, 31,
        ],
    );
    pairs.to_array()
}

// The digit of a number below 16.
fn digit_of(value: u8) -> u8
    requires { value < 16 }
    ensures { result ≡ slice_index lower_digits value }
{
    if value > 9 {
        value + b'0' + LETTERS_BEHIND
    } else {
        value + b'0'
    }
}

/// The two digits of a byte, the high one first.
#[tactic(auto, unfolding(hex::specs::Hex::encode_with))]
pub fn digits_of_byte(byte: u8) -> [u8; 2]
    ensures { result ≡ encode_lower (byte ∷ []) }
{
    [digit_of(byte / 16), digit_of(byte % 16)]
}
