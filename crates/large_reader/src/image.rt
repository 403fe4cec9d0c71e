// A saved large module in memory.
use cell_rows::Cells;
use pcm_image::{BankImage, HeadImage};
use std::marker::Model;

/// An array line of which a cell is 1.
#[derive(Clone, Copy)]
pub struct LargeRow<const B: usize, const M: usize> {
    /// Its number, below the array lines of the module.
    pub line: u32,
    /// Not all of them 0.
    pub cells: Cells<B, M>,
}

/// What is saved of a module: the numbers that say how it is built, its banks, and those of its array lines of which a cell is 1, in order.
#[derive(Drop)]
pub struct LargeImage<const B: usize, const M: usize> {
    pub head: HeadImage,
    /// One for each bank.
    pub parts: Vec<BankImage<B>>,
    /// In the order of their numbers, each once.
    pub rows: Vec<LargeRow<B, M>>,
}

impl<const B: usize, const M: usize> Model for LargeImage<B, M> {
    ghost use Rattle.std.specs.Prelude.{◌*◌};
    ghost use Rattle.pcm_image.specs.Saved.{Saved, array_lines_in};
    ghost use Rattle.pcm_image.specs.Giving.{head_view};
    ghost use Rattle.large_reader.specs.Rows.{AreListed, all_rows};

    ghost Value = { Saved B M };

    ghost view = { λ i. record {
      head = head_view i.head;
      parts = i.parts.items;
      cells = all_rows (i.head.banks * array_lines_in (head_view i.head)) i.rows.items;
    } };

    ghost invariant = { λ i. AreListed 0 (i.head.banks * array_lines_in (head_view i.head)) i.rows.items };
}
