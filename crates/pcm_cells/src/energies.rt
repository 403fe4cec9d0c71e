// How many cells of each line were driven to 1 and to 0, and how often it was sensed.
ghost use Rattle.std.specs.Prelude.{◌≡◌, ◌<◌, ◌≤◌, ◌+◌, ◌*◌, ◌&&◌, length, slice_set, replicate, Some, None, [], IfOk};
ghost use Rattle.cell_rows.specs.Energy.{reset_cells, set_cells, with_pulse, with_sense};
ghost use Rattle.cell_rows.specs.Rows.{cell, members};
ghost use Rattle.cell_rows.specs.Shape.{IsShape, IsWhole};
ghost use Rattle.line_pages.specs.declared.work.LineWork.TheVariants.{Drives};
ghost use Rattle.line_pages.specs.Counting.{worked, energy_at};

use cell_rows::{Cells, LineEnergy};
use line_pages::{LineWork, PageTable};
use std::alloc::{AllocError, Global};
use std::marker::Model;

// Of some blocks: how many cells are in the mask, and how many of these are to be 1.
#[inline(always)]
fn count_in<const B: usize, const M: usize>(
    mask: &Cells<B, M>,
    want: &Cells<B, M>,
    from: usize,
    to: usize,
) -> (u32, u32)
    requires order { from ≤ to }
    requires exists { 8 * to ≤ B + M }
    requires shape { IsShape B M }
    requires whole { IsWhole B M }
    ensures all { members (cell mask.now) (64 * to) ≡ members (cell mask.now) (64 * from)
        + result.0 }
    ensures set { members (λ n. cell mask.now n && cell want.now n) (64 * to)
        ≡ members (λ n. cell mask.now n && cell want.now n) (64 * from) + result.1 }
{
    let mut all = 0;
    let mut set = 0;
    for block in from..to {
        let bits = mask.block(block);
        let ones = bits & want.block(block);
        all += bits.count_ones();
        set += ones.count_ones();
    }
    (all, set)
}

// What a pulse of these cells does to its line, or a tear, where rows are whole blocks.
fn drives_blocks<const B: usize, const M: usize>(mask: &Cells<B, M>, want: &Cells<B, M>) -> LineWork
    requires shape { IsShape B M }
    requires whole { IsWhole B M }
    ensures { result ≡ Drives (set_cells mask.now want.now) (reset_cells mask.now want.now) }
{
    let (data, data_set) = count_in(mask, want, 0, B / 8);
    let (checks, checks_set) = count_in(mask, want, B / 8, (B + M) / 8);
    let set = data_set + checks_set;
    LineWork::Drives {
        set,
        reset: data + checks - set,
    }
}

// What a pulse of these cells does to its line, or a tear.
fn drives<const B: usize, const M: usize>(mask: &Cells<B, M>, want: &Cells<B, M>) -> LineWork
    requires { IsShape B M }
    ensures { result ≡ Drives (set_cells mask.now want.now) (reset_cells mask.now want.now) }
{
    if B % 8 == 0 && M % 8 == 0 {
        return drives_blocks(mask, want);
    }
    let set = mask.meet(want).count();
    LineWork::Drives {
        set,
        reset: mask.count() - set,
    }
}

/// The counts of the lines of an array; those of a line take memory from the first time on that it is pulsed, torn or sensed.
/// Contracts see them as the list of those that there are.
#[derive(Drop)]
pub(crate) struct Energies {
    pages: Option<PageTable<LineEnergy>>,
}

impl Model for Energies {
    ghost use Rattle.std.specs.Prelude.{List, Option};
    ghost use Rattle.cell_rows.specs.declared.array.LineEnergy.{LineEnergy};
    ghost use Rattle.pcm_cells.specs.Energies.{energies_of};

    ghost Value = { List (Option LineEnergy) };

    ghost view = { λ e. energies_of e.pages };
}

impl Energies {
    /// Those of an array without lines.
    pub(crate) fn none() -> Energies
        ensures { result ≡ [] }
    {
        Energies { pages: None }
    }

    /// Those of so many lines.
    pub(crate) fn blank(alloc: Global, lines: u32) -> Result<Energies, AllocError>
        ensures { IfOk result (λ e. e ≡ replicate lines None) }
    {
        Ok(Energies {
            pages: Some(PageTable::blank(alloc, lines)?),
        })
    }

    /// The counts of a line.
    pub(crate) fn at(&self, line: u32) -> LineEnergy
        requires { line < length self.now }
        ensures { result ≡ energy_at self.now line }
    {
        let Some(pages) = &self.pages else {
            unreachable!()
        };
        match pages.get(line) {
            Some(energy) => *energy,
            None => LineEnergy {
                set: 0,
                reset: 0,
                senses: 0,
            },
        }
    }

    fn work(&mut self, line: u32, work: LineWork)
        requires { line < length self.old }
        ensures { self.new ≡ slice_set self.old line (Some (worked work (energy_at self.old line))) }
    {
        let Some(pages) = &mut self.pages else {
            unreachable!()
        };
        pages.work(line, work);
    }

    /// A pulse or a tear of a line.
    pub(crate) fn drive<const B: usize, const M: usize>(
        &mut self,
        line: u32,
        mask: &Cells<B, M>,
        want: &Cells<B, M>,
    )
        requires exists { line < length self.old }
        requires shape { IsShape B M }
        ensures { self.new ≡ slice_set self.old line
            (with_pulse mask.now want.now (Some (energy_at self.old line))) }
    {
        self.work(line, drives(mask, want));
    }

    /// A sense of a line.
    pub(crate) fn sense(&mut self, line: u32)
        requires { line < length self.old }
        ensures { self.new ≡ slice_set self.old line (with_sense (Some (energy_at self.old line))) }
    {
        self.work(line, LineWork::Sense);
    }
}
