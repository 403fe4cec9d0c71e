// The pages of lines, of which none has one at first.
ghost use Rattle.std.specs.Prelude.{◌≡◌, ◌<◌, ◌≤◌, ℕ, IsTrue, IsFalse, length, slice_set, Some, None, IfOk, IsSome, is_some, option_copied, replicate};
ghost use Rattle.cell_rows.specs.Energy.{no_energy};
ghost use Rattle.cell_rows.specs.Shape.{IsShape, IsWhole};
ghost use Rattle.line_pages.specs.Counting.{worked, energy_at};
ghost use Rattle.line_pages.specs.PageTable.{AgesPage, WearsPage, page_at};
ghost use Rattle.seeded_lines.specs.Young.{MayAge, changes_in};

use crate::book::Book;
use crate::table::Table;
use crate::work::{LineWork, worked};
use cell_rows::{Cells, LineEnergy};
use seeded_lines::{SeededLine, YoungPage};
use std::alloc::{AllocError, Global};
use std::marker::Model;

/// A page for each line that was given one. Contracts see it as the list of them.
#[derive(Drop)]
pub struct PageTable<T> {
    // Of each line: 0, or one more than the index of its page.
    table: Table,
    // With room for as many as lines.
    pages: Book<T>,
    // The indices of the pages that lines gave back, with room for as many as lines.
    idle: Vec<u32>,
}

impl<T> Model for PageTable<T> {
    ghost use Rattle.std.specs.Prelude.{List, Option, vec_capacity};
    ghost use Rattle.line_pages.specs.PageTable.{pages_of};
    ghost use Rattle.line_pages.specs.Table.{IsShelf};

    ghost Value = { List (Option T) };

    ghost view = { λ p. pages_of p.pages.pages p.table };

    ghost invariant = { λ p. IsShelf p.table p.idle.items p.pages.pages p.pages.room (vec_capacity p.idle) };
}

impl<T: Drop> PageTable<T> {
    /// No page, and room for one of each line.
    pub fn blank(alloc: Global, lines: u32) -> Result<PageTable<T>, AllocError>
        ensures { IfOk result (λ p. p ≡ replicate lines None) }
    {
        Ok(PageTable {
            table: Table::blank(alloc, lines)?,
            pages: Book::blank(alloc, lines)?,
            idle: Vec::with_capacity(alloc, lines as usize)?,
        })
    }

    /// How many lines there are.
    pub(crate) fn len(&self) -> u32
        ensures { result ≡ length self.now }
    {
        self.table.len()
    }

    /// Whether the line has a page.
    pub(crate) fn has(&self, line: u32) -> bool
        requires { line < length self.now }
        ensures { result ≡ is_some (page_at self.now line) }
    {
        self.table.get(line) != 0
    }

    /// The page of a line.
    pub fn get(&self, line: u32) -> Option<&T>
        requires { line < length self.now }
        ensures { option_copied result ≡ page_at self.now line }
    {
        match self.table.get(line) {
            0 => None,
            page => Some(self.pages.at(page as usize - 1)),
        }
    }

    /// Gives a page to a line that has none. It stands where an idle one stood, if there is any.
    pub(crate) fn insert(&mut self, line: u32, page: T)
        requires exists { line < length self.old }
        requires none { page_at self.old line ≡ None }
        ensures { self.new ≡ slice_set self.old line (Some page) }
    {
        match self.idle.pop() {
            Some(index) => {
                self.pages.put(index as usize, page);
                self.table.set(line, index + 1);
            }
            None => {
                let index = self.pages.len();
                self.pages.push(page);
                self.table.set(line, index as u32 + 1);
            }
        }
    }

    /// Takes the page of a line, if it has one. It is idle from then on.
    pub(crate) fn remove(&mut self, line: u32)
        requires { line < length self.old }
        ensures { self.new ≡ slice_set self.old line None }
    {
        let page = self.table.get(line);
        if page != 0 {
            self.table.set(line, 0);
            self.idle.push_reserved(page - 1);
        }
    }

    /// A pulse or a tear of a line that has a young page.
    #[inline(always)]
    pub(crate) fn age<const B: usize, const M: usize>(
        &mut self,
        line: u32,
        tearing: bool,
        mask: &Cells<B, M>,
        want: &Cells<B, M>,
    )
    where
        T: YoungPage<B, M>,
        requires exists { line < length self.old }
        requires has { IsSome (page_at self.old line) }
        requires young { (page : T) → page_at self.old line ≡ Some page
            → MayAge T.room (T.young page) }
        requires shape { IsShape B M }
        requires whole { IsWhole B M }
        ensures { AgesPage T.young line tearing mask.now want.now self.old self.new }
    {
        let index = self.table.get(line) as usize - 1;
        self.pages.age(index, tearing, mask, want);
    }

    // Whether the line has a page, and was pulsed less often than so many times.
    #[inline(always)]
    fn has_fewer<const B: usize, const M: usize>(&self, line: u32, limit: u64) -> bool
    where
        T: YoungPage<B, M>,
        requires { line < length self.now }
        ensures { IsTrue result → (page : T) × (page_at self.now line ≡ Some page)
            × ((T.young page).pulses < limit) }
    {
        match self.get(line) {
            Some(page) => page.pulses() < limit,
            None => false,
        }
    }

    /// A pulse or a tear of a line that has a young page, if it was pulsed less often than so many times. Tells whether it was.
    #[inline(always)]
    pub(crate) fn age_below<const B: usize, const M: usize>(
        &mut self,
        line: u32,
        limit: u64,
        tearing: bool,
        mask: &Cells<B, M>,
        want: &Cells<B, M>,
    ) -> bool
    where
        T: YoungPage<B, M>,
        requires exists { line < length self.old }
        requires room { limit ≤ T.room }
        requires young { (page : T) → page_at self.old line ≡ Some page
            → (n : ℕ) → changes_in (T.young page) n ≤ (T.young page).pulses }
        requires shape { IsShape B M }
        requires whole { IsWhole B M }
        ensures ages { IsTrue result → AgesPage T.young line tearing mask.now want.now self.old
            self.new }
        ensures few { IsTrue result → (page : T) × (page_at self.old line ≡ Some page)
            × ((T.young page).pulses < limit) }
        ensures same { IsFalse result → self.new ≡ self.old }
        ensures lines { length self.new ≡ length self.old }
    {
        if !self.has_fewer(line, limit) {
            return false;
        }
        self.age(line, tearing, mask, want);
        true
    }
}

impl<const B: usize, const M: usize> PageTable<SeededLine<B, M>> {
    /// A pulse or a tear of a line that has a page.
    pub(crate) fn wear(&mut self, line: u32, tearing: bool, mask: &Cells<B, M>, want: &Cells<B, M>)
        requires exists { line < length self.old }
        requires has { IsSome (page_at self.old line) }
        requires shape { IsShape B M }
        requires whole { IsWhole B M }
        ensures { WearsPage line tearing mask.now want.now self.old self.new }
    {
        let index = self.table.get(line) as usize - 1;
        self.pages.wear(index, tearing, mask, want);
    }
}

impl PageTable<LineEnergy> {
    // Counts what is done to a line that has no page. It stands apart, so that what is done to each other line is short.
    #[cold]
    #[inline(never)]
    fn begin(&mut self, line: u32, work: LineWork)
        requires exists { line < length self.old }
        requires none { page_at self.old line ≡ None }
        ensures { self.new ≡ slice_set self.old line (Some (worked work no_energy)) }
    {
        let none = LineEnergy {
            set: 0,
            reset: 0,
            senses: 0,
        };
        self.insert(line, worked(work, none));
    }

    /// Counts what is done to a line. One without a page gets one.
    #[inline(always)]
    pub fn work(&mut self, line: u32, work: LineWork)
        requires { line < length self.old }
        ensures { self.new ≡ slice_set self.old line (Some (worked work (energy_at self.old line))) }
    {
        match self.table.get(line) {
            0 => self.begin(line, work),
            page => self.pages.work(page as usize - 1, work),
        }
    }
}
