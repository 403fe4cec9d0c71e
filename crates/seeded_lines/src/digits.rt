// Small numbers of a row's cells, as planes of their binary digits.
ghost use Rattle.std.specs.Prelude.{◌≡◌, ◌≢◌, ℕ, ◌+◌, ◌*◌, ◌/◌, ◌<◌, true, false, nat_lt, IsFalse, if◌then◌else◌};
ghost use Rattle.seeded_lines.specs.Planes.{bit_in, digit, number_of, zero_digits};
ghost use Rattle.cell_rows.specs.Shape.{IsWhole};

use crate::blocks::{byte_at, chosen, without};
use cell_rows::Cells;

/// A number from 0 to 7 of each cell of a row: its binary digits, the lowest in `low`.
#[derive(Clone, Copy, Drop)]
pub struct Digits<const B: usize, const M: usize> {
    low: Cells<B, M>,
    middle: Cells<B, M>,
    high: Cells<B, M>,
}

impl<const B: usize, const M: usize> Digits<B, M> {
    /// Every number 0.
    pub fn zero() -> Digits<B, M>
        ensures { result ≡ zero_digits B M }
    {
        Digits {
            low: Cells::zero(),
            middle: Cells::zero(),
            high: Cells::zero(),
        }
    }

    // Lets the numbers of a group of eight have the binary digits that these bytes are, the lowest first.
    pub(crate) fn set_group(&mut self, group: usize, planes: u32)
        requires { group < B + M }
        ensures here { (i : ℕ) → i < 8 → digit self.new (8 * group + i)
            ≡ number_of (bit_in planes i) (bit_in planes (8 + i)) (bit_in planes (16 + i)) }
        ensures others { (n : ℕ) → n / 8 ≢ group → digit self.new n ≡ digit self.old n }
    {
        self.low.set_group(group, byte_at(planes, 0));
        self.middle.set_group(group, byte_at(planes, 1));
        self.high.set_group(group, byte_at(planes, 2));
    }

    // The number of a cell.
    pub(crate) fn get(&self, number: u16) -> u32
        requires { number < 8 * (B + M) }
        ensures { result ≡ digit self.now number }
    {
        let low = self.low.get(number) as u32;
        let middle = self.middle.get(number) as u32;
        let high = self.high.get(number) as u32;
        low + 2 * middle + 4 * high
    }

    // As a mask over a block: the cells whose number is below their limit.
    pub(crate) fn below(&self, limits: &Digits<B, M>, block: usize) -> u64
        requires whole { IsWhole B M }
        requires exists { 8 * block < B + M }
        ensures { (i : ℕ) → i < 64 → bit_in result i
            ≡ nat_lt (digit self.now (64 * block + i)) (digit limits.now (64 * block + i)) }
    {
        let (middle, high) = (self.middle.block(block), self.high.block(block));
        let (middle_limit, high_limit) = (limits.middle.block(block), limits.high.block(block));
        let by_low = without(limits.low.block(block), self.low.block(block));
        let by_middle = chosen(by_low, middle ^ middle_limit, middle_limit);
        chosen(by_middle, high ^ high_limit, high_limit)
    }

    // Over a block: the numbers of the cells in `none` become 0, and of the
    // others those in `more` grow by one.
    pub(crate) fn advance(&mut self, block: usize, more: u64, none: u64)
        requires whole { IsWhole B M }
        requires exists { 8 * block < B + M }
        requires few { (i : ℕ) → i < 64 → bit_in more i ≡ true
            → digit self.old (64 * block + i) < 7 }
        ensures here { (i : ℕ) → i < 64 → digit self.new (64 * block + i)
            ≡ (if bit_in none i then 0 else if bit_in more i then digit self.old (64 * block + i)
            + 1
            else digit self.old (64 * block + i)) }
        ensures others { (n : ℕ) → n / 64 ≢ block → digit self.new n ≡ digit self.old n }
    {
        let (low, middle, high) = (
            self.low.block(block),
            self.middle.block(block),
            self.high.block(block),
        );
        let carry = more & low;
        self.low.set_block(block, without(more ^ low, none));
        self.middle.set_block(block, without(carry ^ middle, none));
        self.high
            .set_block(block, without((carry & middle) ^ high, none));
    }

    /// Over a block of 64 cells: the numbers of the cells in `more` grow by one, and 7 becomes 0, with a carry.
    pub fn add(&mut self, block: usize, more: u64) -> u64
        requires whole { IsWhole B M }
        requires exists { 8 * block < B + M }
        ensures here { (i : ℕ) → i < 64 → digit self.new (64 * block + i)
            + (if bit_in result i then 8 else 0)
            ≡ digit self.old (64 * block + i) + (if bit_in more i then 1 else 0) }
        ensures others { (n : ℕ) → n / 64 ≢ block → digit self.new n ≡ digit self.old n }
    {
        let (low, middle, high) = (
            self.low.block(block),
            self.middle.block(block),
            self.high.block(block),
        );
        let second = more & low;
        let third = second & middle;
        self.low.set_block(block, more ^ low);
        self.middle.set_block(block, second ^ middle);
        self.high.set_block(block, third ^ high);
        third & high
    }

    /// The same, where it may be told that no number grows.
    #[inline(always)]
    pub fn add_any(&mut self, any: bool, block: usize, more: u64) -> u64
        requires whole { IsWhole B M }
        requires exists { 8 * block < B + M }
        requires none { IsFalse any → (i : ℕ) → i < 64 → bit_in more i ≡ false }
        ensures here { (i : ℕ) → i < 64 → digit self.new (64 * block + i)
            + (if bit_in result i then 8 else 0)
            ≡ digit self.old (64 * block + i) + (if bit_in more i then 1 else 0) }
        ensures others { (n : ℕ) → n / 64 ≢ block → digit self.new n ≡ digit self.old n }
    {
        if any { self.add(block, more) } else { 0 }
    }

    // As a mask over a block: the cells whose number is 7.
    pub(crate) fn full(&self, block: usize) -> u64
        requires whole { IsWhole B M }
        requires exists { 8 * block < B + M }
        ensures { (i : ℕ) → i < 64 → bit_in result i ≡ false → digit self.now (64 * block + i) < 7 }
    {
        self.low.block(block) & self.middle.block(block) & self.high.block(block)
    }

    // The binary digits of a block's numbers, the lowest first.
    pub(crate) fn planes(&self, block: usize) -> (u64, u64, u64)
        requires whole { IsWhole B M }
        requires exists { 8 * block < B + M }
        ensures { (i : ℕ) → i < 64 → number_of (bit_in result.0 i) (bit_in result.1 i)
            (bit_in result.2 i)
            ≡ digit self.now (64 * block + i) }
    {
        (
            self.low.block(block),
            self.middle.block(block),
            self.high.block(block),
        )
    }

    // Lets the numbers of a block be 0.
    pub(crate) fn clear(&mut self, block: usize)
        requires whole { IsWhole B M }
        requires exists { 8 * block < B + M }
        ensures here { (i : ℕ) → i < 64 → digit self.new (64 * block + i) ≡ 0 }
        ensures others { (n : ℕ) → n / 64 ≢ block → digit self.new n ≡ digit self.old n }
    {
        self.low.set_block(block, 0);
        self.middle.set_block(block, 0);
        self.high.set_block(block, 0);
    }
}
