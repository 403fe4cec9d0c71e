//! Hexadecimal digits, read by lanes.
ghost use Rattle.std.specs.Prelude.{◌≡◌, ℕ, ◌+◌, ◌*◌, ◌<◌, ◌≤◌, length, slice_index, true, false};
ghost use Rattle.trace_reader.specs.Payload.{Tells};

use std::simd::prelude::*;

/// How many digits go through one step of lanes.
pub const DIGITS: usize = 32;

/// How many bytes they write.
pub const BYTES: usize = DIGITS / 2;

/// What the characters from a place on are as digits, by Muła's sums of lanes that wrap or stop at their ends: those that send `0` to `9`
/// to 0 to 9 send all others to 16 and more, and those that send the letters of either case to 10 to 15 send all others to 16 and more.
#[inline(always)]
pub fn values_at(text: &[u8], at: usize) -> u8x32
    requires { at + DIGITS ≤ length text.now }
    ensures { (k : ℕ) → k < DIGITS → Tells (slice_index text.now (at + k)) (slice_index result k) }
{
    let characters = u8x32::from_slice(&text[at..]);
    let digits = (characters + u8x32::splat(198)).saturating_sub(u8x32::splat(6))
        - u8x32::splat(240);
    let letters = ((characters & u8x32::splat(223)) - u8x32::splat(65)).simd_min(u8x32::splat(245))
        + u8x32::splat(10);
    digits.simd_min(letters)
}

/// Whether all characters were digits.
#[inline(always)]
pub fn are_digits(values: u8x32) -> bool
    ensures all { result ≡ true → (k : ℕ) → k < DIGITS → slice_index values k < 16 }
    ensures not_all { result ≡ false → (k : ℕ) × (k < DIGITS) × (16 ≤ slice_index values k) }
{
    values.simd_ge(u8x32::splat(16)).to_bitmask() == 0
}

/// The bytes that digits of these values write, the high one of each pair first.
#[inline(always)]
pub fn bytes_of_values(values: u8x32) -> u8x16
    requires { (k : ℕ) → k < DIGITS → slice_index values k < 16 }
    ensures length { length result ≡ BYTES }
    ensures bytes { (k : ℕ) → k < BYTES → slice_index result k
        ≡ slice_index values (2 * k) * 16 + slice_index values (2 * k + 1) }
{
    let high: u8x16 = values.swizzle([0, 2, 4, 6, 8, 10, 12, 14, 16, 18, 20, 22, 24, 26, 28, 30]);
    let low: u8x16 = values.swizzle([1, 3, 5, 7, 9, 11, 13, 15, 17, 19, 21, 23, 25, 27, 29, 31]);
    high * u8x16::splat(16) + low
}
