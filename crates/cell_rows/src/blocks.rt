// Blocks of 64 cells, each as the bits of a number, the lowest bit first.
ghost use Rattle.std.specs.Prelude.{◌≡◌, ◌≢◌, ℕ, ◌+◌, ◌*◌, ◌/◌, ◌<◌, ◌≤◌, length};
ghost use Rattle.cell_rows.specs.Rows.{bit_in, bit_of};

use std::simd::prelude::*;

// Eight bytes of the list, the first of them lowest.
pub(crate) fn read_block(bytes: &[u8], block: usize) -> u64
    requires { 8 * block + 8 ≤ length bytes.now }
    ensures { (i : ℕ) → i < 64 → bit_in result i ≡ bit_of bytes.now (64 * block + i) }
{
    let [bits] = u64x1::from_le_bytes(u8x8::from_slice(&bytes[8 * block..])).to_array();
    bits
}

pub(crate) fn write_block(bytes: &mut [u8], block: usize, bits: u64)
    requires { 8 * block + 8 ≤ length bytes.old }
    ensures here { (i : ℕ) → i < 64 → bit_of bytes.new (64 * block + i) ≡ bit_in bits i }
    ensures others { (n : ℕ) → n / 64 ≢ block → bit_of bytes.new n ≡ bit_of bytes.old n }
{
    u64x1::splat(bits)
        .to_le_bytes()
        .copy_to_slice(&mut bytes[8 * block..]);
}
