// Rows of cells, and masks over them.
ghost use Rattle.std.specs.Prelude.{◌≡◌, ◌≢◌, ℕ, ◌+◌, ◌*◌, ◌/◌, ◌<◌, ◌≤◌, ◌&&◌, true, false, IsTrue, IsFalse, nat_eq, if◌then◌else◌};
ghost use Rattle.cell_rows.specs.Rows.{cell, zero_row, xor, members};
ghost use Rattle.cell_rows.specs.Shape.{IsShape, IsWhole};
ghost use Rattle.cell_rows.specs.Rows.{bit_in};

use crate::blocks::{read_block, write_block};
use crate::bytes::{and_with, bit, is_zero, ones, set_bit, xor_with};

/// A row of `8 * B` data cells and `8 * M` check cells of one bit each, or a mask over such a row. Cell `n`
/// is bit `n % 8`, the lowest being bit 0, of byte `n / 8` of the data bytes followed by the check bytes.
#[derive(Clone, Copy, Drop)]
pub struct Cells<const B: usize, const M: usize> {
    pub bits: [u8; B],
    pub meta: [u8; M],
}

impl<const B: usize, const M: usize> Cells<B, M> {
    /// All cells 0; as a mask, no cell.
    pub fn zero() -> Cells<B, M>
        ensures cells { (n : ℕ) → cell result n ≡ false }
        ensures bytes { result ≡ zero_row B M }
    {
        Cells {
            bits: [0; B],
            meta: [0; M],
        }
    }

    /// What the cell holds.
    pub fn get(&self, number: u16) -> bool
        requires { number < 8 * (B + M) }
        ensures { result ≡ cell self.now number }
    {
        let index = number as usize;
        if index / 8 < B {
            bit(&self.bits, index)
        } else {
            bit(&self.meta, index - 8 * B)
        }
    }

    /// Lets one cell hold the value.
    pub fn set(&mut self, number: u16, value: bool)
        requires { number < 8 * (B + M) }
        ensures { (n : ℕ) → cell self.new n ≡ (if nat_eq n number then value else cell self.old n) }
    {
        let index = number as usize;
        if index / 8 < B {
            set_bit(&mut self.bits, index, value);
        } else {
            set_bit(&mut self.meta, index - 8 * B, value);
        }
    }

    /// The mask of the cells in which the two rows differ.
    pub fn differ(&self, other: &Cells<B, M>) -> Cells<B, M>
        ensures cells { (n : ℕ) → cell result n ≡ xor (cell self.now n) (cell other.now n) }
        ensures same { ((n : ℕ) → cell result n ≡ false) → self.now ≡ other.now }
    {
        let mut result = *self;
        xor_with(&mut result.bits, &other.bits);
        xor_with(&mut result.meta, &other.meta);
        result
    }

    /// The mask of the cells that are 1 in both.
    pub fn meet(&self, other: &Cells<B, M>) -> Cells<B, M>
        ensures { (n : ℕ) → cell result n ≡ cell self.now n && cell other.now n }
    {
        let mut result = *self;
        and_with(&mut result.bits, &other.bits);
        and_with(&mut result.meta, &other.meta);
        result
    }

    /// The cells of a block of 64, as the bits of a number.
    pub fn block(&self, block: usize) -> u64
        requires whole { IsWhole B M }
        requires exists { 8 * block < B + M }
        ensures { (i : ℕ) → i < 64 → bit_in result i ≡ cell self.now (64 * block + i) }
    {
        if 8 * block < B {
            read_block(&self.bits, block)
        } else {
            read_block(&self.meta, block - B / 8)
        }
    }

    /// Lets the cells of a block of 64 be the bits of a number.
    pub fn set_block(&mut self, block: usize, bits: u64)
        requires whole { IsWhole B M }
        requires exists { 8 * block < B + M }
        ensures here { (i : ℕ) → i < 64 → cell self.new (64 * block + i) ≡ bit_in bits i }
        ensures others { (n : ℕ) → n / 64 ≢ block → cell self.new n ≡ cell self.old n }
    {
        if 8 * block < B {
            write_block(&mut self.bits, block, bits);
        } else {
            write_block(&mut self.meta, block - B / 8, bits);
        }
    }

    /// Lets the cells of a group of eight be the bits of a byte.
    pub fn set_group(&mut self, group: usize, byte: u8)
        requires { group < B + M }
        ensures here { (i : ℕ) → i < 8 → cell self.new (8 * group + i) ≡ bit_in byte i }
        ensures others { (n : ℕ) → n / 8 ≢ group → cell self.new n ≡ cell self.old n }
    {
        if group < B {
            self.bits[group] = byte;
        } else {
            self.meta[group - B] = byte;
        }
    }

    /// As a mask: whether no cell of this group of eight is in it.
    pub fn is_clear(&self, group: usize) -> bool
        requires { group < B + M }
        ensures { IsTrue result → (n : ℕ) → 8 * group ≤ n → n < 8 * group + 8
            → cell self.now n ≡ false }
    {
        if group < B {
            self.bits[group] == 0
        } else {
            self.meta[group - B] == 0
        }
    }

    /// As a mask: whether no cell is in it.
    pub fn is_none(&self) -> bool
        ensures none { IsTrue result → (n : ℕ) → cell self.now n ≡ false }
        ensures some { IsFalse result → (n : ℕ) × (n < 8 * (B + M)) × (cell self.now n ≡ true) }
    {
        is_zero(&self.bits) && is_zero(&self.meta)
    }

    /// As a mask: how many cells are in it.
    pub fn count(&self) -> u32
        requires { IsShape B M }
        ensures { result ≡ members (cell self.now) (8 * (B + M)) }
    {
        ones(&self.bits) + ones(&self.meta)
    }
}
