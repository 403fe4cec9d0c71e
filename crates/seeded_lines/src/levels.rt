// Counts that are brought up to date, sixteen at a time.
ghost use Rattle.std.specs.Prelude.{◌≡◌, ◌≢◌, ℕ, ◌+◌, ◌-◌, ◌*◌, ◌/◌, ◌<◌, ◌≤◌, length, slice_index, if◌then◌else◌};
ghost use Rattle.seeded_lines.specs.Counts.{count_in};
ghost use Rattle.seeded_lines.specs.Planes.{bit_in, number_of};

use std::simd::prelude::*;

// At each index the number whose only digit 1 is there, of two bytes side by side.
const ONES: [u8; 16] = [1, 2, 4, 8, 16, 32, 64, 128, 1, 2, 4, 8, 16, 32, 64, 128];

// Of the sixteen lowest bits of a number: the value in the lane of each that is 1, and 0 in the others.
fn spread(bits: u64, value: u8) -> u8x16
    ensures { (i : ℕ) → i < 16 → slice_index result i ≡ (if bit_in bits i then value else 0) }
{
    let ones = u8x16::from_array(ONES);
    let bytes = u64x1::splat(bits)
        .to_le_bytes()
        .swizzle([0, 0, 0, 0, 0, 0, 0, 0, 1, 1, 1, 1, 1, 1, 1, 1]);
    (bytes & ones)
        .simd_eq(ones)
        .select(u8x16::splat(value), u8x16::splat(0))
}

// The numbers whose binary digits are the sixteen lowest bits of these, the lowest digit first: the first
// eight numbers, and the others.
fn numbers(low: u64, middle: u64, high: u64) -> (u8x8, u8x8)
    ensures first { (i : ℕ) → i < 8 → slice_index result.0 i
        ≡ number_of (bit_in low i) (bit_in middle i) (bit_in high i) }
    ensures others { (i : ℕ) → i < 8 → slice_index result.1 i
        ≡ number_of (bit_in low (8 + i)) (bit_in middle (8 + i)) (bit_in high (8 + i)) }
{
    let all = spread(low, 1) | spread(middle, 2) | spread(high, 4);
    (all.extract::<0, 8>(), all.extract::<8, 8>())
}

// Eight counts, each less what stands in its lane.
fn levelled(row: u32x8, less: u8x8) -> u32x8
    ensures { (i : ℕ) → i < 8 → slice_index result i ≡ slice_index row i - slice_index less i }
{
    let less = less.cast::<u32>();
    row.simd_max(less) - less
}

// Takes from each count of a block of 64 the number whose binary digits these are, the lowest first.
pub(crate) fn level(rows: &mut [[u32; 8]], block: usize, low: u64, middle: u64, high: u64)
    requires { 8 * block + 8 ≤ length rows.old }
    ensures here { (i : ℕ) → i < 64 → count_in rows.new (64 * block + i)
        ≡ count_in rows.old (64 * block + i)
        - number_of (bit_in low i) (bit_in middle i) (bit_in high i) }
    ensures others { (n : ℕ) → n / 64 ≢ block → count_in rows.new n ≡ count_in rows.old n }
{
    for pair in 0..4 {
        let from = 16 * pair as u32;
        let (first, others) = numbers(low >> from, middle >> from, high >> from);
        let row = 8 * block + 2 * pair;
        rows[row] = levelled(u32x8::from_array(rows[row]), first).to_array();
        rows[row + 1] = levelled(u32x8::from_array(rows[row + 1]), others).to_array();
    }
}
