// Numbers of up to 32 bits of a row's cells.
ghost use Rattle.std.specs.Prelude.{◌≡◌, ◌≢◌, ℕ, ◌+◌, ◌-◌, ◌*◌, ◌/◌, ◌<◌, ◌≤◌, length, slice_index};
ghost use Rattle.seeded_lines.specs.Counts.{count, count_in};
ghost use Rattle.seeded_lines.specs.Planes.{bit_in, number_of};
ghost use Rattle.cell_rows.specs.Shape.{IsWhole};

use crate::levels::level;

/// A number of each cell of a row, in rows of eight: those of the data cells, and those of the check cells.
#[derive(Clone, Copy, Drop)]
pub(crate) struct Counts<const B: usize, const M: usize> {
    bits: [[u32; 8]; B],
    meta: [[u32; 8]; M],
}

// The numbers of a block of 64.
fn read_counts(rows: &[[u32; 8]], block: usize) -> &[u32; 64]
    requires { 8 * block + 8 ≤ length rows.now }
    ensures { (i : ℕ) → i < 64 → slice_index result.now i ≡ count_in rows.now (64 * block + i) }
{
    let all = rows.as_flattened();
    let Some(counts) = all[64 * block..].first_chunk() else {
        unreachable!()
    };
    counts
}

// A number of the rows.
fn count_at(rows: &[[u32; 8]], number: usize) -> u32
    requires { number < 8 * length rows.now }
    ensures { result ≡ count_in rows.now number }
{
    rows[number / 8][number % 8]
}

fn write_counts(rows: &mut [[u32; 8]], block: usize, counts: &[u32; 64])
    requires { 8 * block + 8 ≤ length rows.old }
    ensures here { (i : ℕ) → i < 64 → count_in rows.new (64 * block + i)
        ≡ slice_index counts.now i }
    ensures others { (n : ℕ) → n / 64 ≢ block → count_in rows.new n ≡ count_in rows.old n }
{
    for index in 0..8 {
        let from = 8 * index;
        let row = [
            counts[from],
            counts[from + 1],
            counts[from + 2],
            counts[from + 3],
            counts[from + 4],
            counts[from + 5],
            counts[from + 6],
            counts[from + 7],
        ];
        rows[8 * block + index] = row;
    }
}

impl<const B: usize, const M: usize> Counts<B, M> {
    pub(crate) fn zero() -> Counts<B, M> {
        Counts {
            bits: [[0; 8]; B],
            meta: [[0; 8]; M],
        }
    }

    // Lets the cells of a group of eight have these numbers.
    pub(crate) fn set_group(&mut self, group: usize, row: &[u32; 8])
        requires { group < B + M }
        ensures here { (i : ℕ) → i < 8 → count self.new (8 * group + i) ≡ slice_index row.now i }
        ensures others { (n : ℕ) → n / 8 ≢ group → count self.new n ≡ count self.old n }
    {
        if group < B {
            self.bits[group] = *row;
        } else {
            self.meta[group - B] = *row;
        }
    }

    // The number of a cell.
    pub(crate) fn get(&self, number: u16) -> u32
        requires { number < 8 * (B + M) }
        ensures { result ≡ count self.now number }
    {
        let index = number as usize;
        if index / 8 < B {
            count_at(&self.bits, index)
        } else {
            count_at(&self.meta, index - 8 * B)
        }
    }

    // The numbers of the cells of a block of 64.
    pub(crate) fn block(&self, block: usize) -> &[u32; 64]
        requires whole { IsWhole B M }
        requires exists { 8 * block < B + M }
        ensures { (i : ℕ) → i < 64 → slice_index result.now i ≡ count self.now (64 * block + i) }
    {
        if 8 * block < B {
            read_counts(&self.bits, block)
        } else {
            read_counts(&self.meta, block - B / 8)
        }
    }

    // Lets the cells of a block of 64 have these numbers.
    pub(crate) fn set_block(&mut self, block: usize, counts: &[u32; 64])
        requires whole { IsWhole B M }
        requires exists { 8 * block < B + M }
        ensures here { (i : ℕ) → i < 64 → count self.new (64 * block + i)
            ≡ slice_index counts.now i }
        ensures others { (n : ℕ) → n / 64 ≢ block → count self.new n ≡ count self.old n }
    {
        if 8 * block < B {
            write_counts(&mut self.bits, block, counts);
        } else {
            write_counts(&mut self.meta, block - B / 8, counts);
        }
    }

    // Takes from the number of each cell of a block of 64 the one whose binary digits these are, the lowest first.
    pub(crate) fn level(&mut self, block: usize, low: u64, middle: u64, high: u64)
        requires whole { IsWhole B M }
        requires exists { 8 * block < B + M }
        ensures here { (i : ℕ) → i < 64 → count self.new (64 * block + i)
            ≡ count self.old (64 * block + i)
            - number_of (bit_in low i) (bit_in middle i) (bit_in high i) }
        ensures others { (n : ℕ) → n / 64 ≢ block → count self.new n ≡ count self.old n }
    {
        if 8 * block < B {
            level(&mut self.bits, block, low, middle, high);
        } else {
            level(&mut self.meta, block - B / 8, low, middle, high);
        }
    }
}
