// A saved module in memory.
use crate::{EntryImage, HeadImage, RegionImage};
use cell_rows::Cells;
use std::marker::Model;

/// What is saved of a bank: its mark, the slots of its used spares, its registers, and its queue, the oldest write first.
#[derive(Drop)]
pub struct BankImage<const B: usize> {
    /// 1 where the bank is exhausted, else 0.
    pub mark: u8,
    /// At most as many as the bank has spares; each a slot of the bank.
    pub replaced: Vec<u32>,
    /// One for each region.
    pub registers: Vec<RegionImage>,
    /// At most 256.
    pub entries: Vec<EntryImage<B>>,
}

impl<const B: usize> Model for BankImage<B> {
    ghost use Rattle.pcm_image.specs.Saved.{SavedBank};

    ghost Value = { SavedBank B };

    ghost view = { λ b. record {
      mark = b.mark;
      replaced = b.replaced.items;
      regions = b.registers.items;
      entries = b.entries.items;
    } };
}

/// What is saved of a module: the numbers that say how it is built, its banks, and the cells of its array lines.
#[derive(Drop)]
pub struct Image<const B: usize, const M: usize> {
    pub head: HeadImage,
    pub parts: Vec<BankImage<B>>,
    pub cells: Vec<Cells<B, M>>,
}

impl<const B: usize, const M: usize> Model for Image<B, M> {
    ghost use Rattle.pcm_image.specs.Saved.{Saved};
    ghost use Rattle.pcm_image.specs.Giving.{head_view};

    ghost Value = { Saved B M };

    ghost view = { λ i. record {
      head = head_view i.head;
      parts = i.parts.items;
      cells = i.cells.items;
    } };
}
