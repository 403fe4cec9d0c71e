// A number for each line, 0 at first, that takes memory only for blocks of lines that were given one.
ghost use Rattle.std.specs.Prelude.{◌≡◌, ◌<◌, ℕ, ◌+◌, length, vec_capacity, slice_index, slice_set, IfOk, replicate};
ghost use Rattle.line_pages.specs.Table.{AreBlocks, number_at};

use std::alloc::{AllocError, Global};
use std::marker::Model;

// How many lines share a block.
const BLOCK: usize = 128;

/// The numbers of lines. Contracts see it as their list.
#[derive(Drop)]
pub(crate) struct Table {
    // Of each block of lines: 0, or one more than the index of its numbers.
    blocks: Vec<u32>,
    // With room for as many as blocks: what isn't reached is never touched.
    numbers: Vec<[u32; BLOCK]>,
    lines: usize,
}

impl Model for Table {
    ghost use Rattle.std.specs.Prelude.{List, ℕ, vec_capacity};
    ghost use Rattle.line_pages.specs.Table.{IsTable, numbers_of};

    ghost Value = { List ℕ };

    ghost view = { λ t. numbers_of t.blocks.items t.numbers.items t.lines };

    ghost invariant = { λ t. IsTable t.blocks.items t.numbers.items t.lines (vec_capacity t.numbers) };
}

// Makes the numbers of a block of lines that has none, and answers their index.
fn make_block(blocks: &mut Vec<u32>, numbers: &mut Vec<[u32; BLOCK]>, block: usize) -> usize
    requires blocks { AreBlocks blocks.old.items numbers.old.items (vec_capacity numbers.old) }
    requires exists { block < length blocks.old.items }
    requires none { slice_index blocks.old.items block ≡ 0 }
    ensures blocks { AreBlocks blocks.new.items numbers.new.items (vec_capacity numbers.new) }
    ensures count { length blocks.new.items ≡ length blocks.old.items }
    ensures made { slice_index blocks.new.items block ≡ result + 1 }
    ensures same { (line : ℕ) → number_at blocks.new.items numbers.new.items line
        ≡ number_at blocks.old.items numbers.old.items line }
{
    let index = numbers.len();
    let zeros = [0; BLOCK];
    numbers.push_reserved(zeros);
    blocks[block] = index as u32 + 1;
    index
}

// The index of the numbers of a block of lines, which are made where it has none yet.
fn own_block(blocks: &mut Vec<u32>, numbers: &mut Vec<[u32; BLOCK]>, block: usize) -> usize
    requires blocks { AreBlocks blocks.old.items numbers.old.items (vec_capacity numbers.old) }
    requires exists { block < length blocks.old.items }
    ensures blocks { AreBlocks blocks.new.items numbers.new.items (vec_capacity numbers.new) }
    ensures count { length blocks.new.items ≡ length blocks.old.items }
    ensures made { slice_index blocks.new.items block ≡ result + 1 }
    ensures same { (line : ℕ) → number_at blocks.new.items numbers.new.items line
        ≡ number_at blocks.old.items numbers.old.items line }
{
    match blocks[block] {
        0 => make_block(blocks, numbers, block),
        index => index as usize - 1,
    }
}

impl Table {
    /// Number 0 for so many lines.
    pub(crate) fn blank(alloc: Global, lines: u32) -> Result<Table, AllocError>
        ensures { IfOk result (λ t. t ≡ replicate lines 0) }
    {
        let lines = lines as usize;
        let blocks = lines.div_ceil(BLOCK);
        Ok(Table {
            blocks: vec![in alloc; 0; blocks]?,
            numbers: Vec::with_capacity(alloc, blocks)?,
            lines,
        })
    }

    /// How many lines there are.
    pub(crate) fn len(&self) -> u32
        ensures { result ≡ length self.now }
    {
        self.lines as u32
    }

    /// The number of a line.
    #[inline(always)]
    pub(crate) fn get(&self, line: u32) -> u32
        requires { line < length self.now }
        ensures { result ≡ slice_index self.now line }
    {
        let line = line as usize;
        match self.blocks[line / BLOCK] {
            0 => 0,
            block => self.numbers[block as usize - 1][line % BLOCK],
        }
    }

    /// Gives a line another number.
    pub(crate) fn set(&mut self, line: u32, number: u32)
        requires { line < length self.old }
        ensures { self.new ≡ slice_set self.old line number }
    {
        let line = line as usize;
        let index = own_block(&mut self.blocks, &mut self.numbers, line / BLOCK);
        let numbers = &mut self.numbers[index];
        numbers[line % BLOCK] = number;
    }
}
