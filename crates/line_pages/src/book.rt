// Pages that are kept, one behind the other, in chunks: the room of all is taken at once, and no chunk asks for so much that a machine
// refuses it alone.
ghost use Rattle.std.specs.Prelude.{◌≡◌, ℕ, ◌+◌, ◌*◌, ◌≤◌, ◌<◌, false, length, slice_index_or, slice_set, IfOk, [], ◌∷◌, ◌++◌};
ghost use Rattle.cell_rows.specs.Rows.{cell};
ghost use Rattle.cell_rows.specs.Shape.{IsShape, IsWhole};
ghost use Rattle.cell_rows.specs.Energy.{no_energy};
ghost use Rattle.line_pages.specs.Book.{AgesAt, WearsAt};
ghost use Rattle.line_pages.specs.Counting.{worked};
ghost use Rattle.seeded_lines.specs.Young.{MayAge};

use crate::work::{LineWork, worked};
use cell_rows::{Cells, LineEnergy};
use seeded_lines::{SeededLine, YoungPage, wear_page};
use std::alloc::{AllocError, Global};
use std::marker::Model;

// How many pages a chunk has room for.
const CHUNK: usize = 65_536;

/// Kept pages, with room for as many as were asked for.
#[derive(Drop)]
pub(crate) struct Book<T> {
    chunks: Vec<Vec<T>>,
    len: usize,
    room: usize,
}

impl<T> Model for Book<T> {
    ghost use Rattle.std.specs.Prelude.{◌^◌, ◌<◌, ◌≤◌};
    ghost use Rattle.line_pages.specs.Book.{Kept, Hold, pages_in};

    ghost Value = { Kept T };

    ghost view = { λ b. record { pages = pages_in b.chunks.items; room = b.room } };

    ghost invariant = { λ b. Hold b.len b.room b.chunks.items × (b.len ≤ b.room) × (b.room < 2 ^ 32) };
}

impl<T: Drop> Book<T> {
    /// No page, and room for one of each line.
    pub(crate) fn blank(alloc: Global, lines: u32) -> Result<Book<T>, AllocError>
        ensures { IfOk result (λ b. b ≡ record { pages = []; room = lines }) }
    {
        let room = lines as usize;
        let mut chunks = Vec::new(alloc);
        for index in 0..(room + (CHUNK - 1)) / CHUNK {
            let next = (room - CHUNK * index).min(CHUNK);
            chunks.push(Vec::with_capacity(alloc, next)?)?;
        }
        Ok(Book {
            chunks,
            len: 0,
            room,
        })
    }

    /// How many pages are kept.
    pub(crate) fn len(&self) -> usize
        ensures { result ≡ length self.now.pages }
    {
        self.len
    }

    /// A page by its number from 0.
    pub(crate) fn at(&self, index: usize) -> &T
        requires { index < length self.now.pages }
        ensures { result.now ≡ slice_index_or self.now.pages index result.now }
    {
        &self.chunks[index / CHUNK][index % CHUNK]
    }

    /// Keeps another page in the place of one.
    pub(crate) fn put(&mut self, index: usize, page: T)
        requires { index < length self.old.pages }
        ensures pages { self.new.pages ≡ slice_set self.old.pages index page }
        ensures room { self.new.room ≡ self.old.room }
    {
        let chunk = &mut self.chunks[index / CHUNK];
        chunk[index % CHUNK] = page;
    }

    /// Keeps one more.
    pub(crate) fn push(&mut self, page: T)
        requires { length self.old.pages < self.old.room }
        ensures pages { self.new.pages ≡ self.old.pages ++ page ∷ [] }
        ensures room { self.new.room ≡ self.old.room }
    {
        let chunk = &mut self.chunks[self.len / CHUNK];
        chunk.push_reserved(page);
        self.len += 1;
    }

    /// A pulse or a tear of the young line on a page.
    #[inline(always)]
    pub(crate) fn age<const B: usize, const M: usize>(
        &mut self,
        index: usize,
        tearing: bool,
        mask: &Cells<B, M>,
        want: &Cells<B, M>,
    )
    where
        T: YoungPage<B, M>,
        requires exists { index < length self.old.pages }
        requires young { (page : T) → page ≡ slice_index_or self.old.pages index page
            → MayAge T.room (T.young page) }
        requires shape { IsShape B M }
        requires whole { IsWhole B M }
        ensures ages { AgesAt T.young index tearing mask.now want.now self.old.pages
            self.new.pages }
        ensures room { self.new.room ≡ self.old.room }
    {
        let chunk = &mut self.chunks[index / CHUNK];
        let page = &mut chunk[index % CHUNK];
        wear_page(page, tearing, mask, want);
    }
}

impl<const B: usize, const M: usize> Book<SeededLine<B, M>> {
    /// A pulse or a tear of the line on a page.
    pub(crate) fn wear(
        &mut self,
        index: usize,
        tearing: bool,
        mask: &Cells<B, M>,
        want: &Cells<B, M>,
    )
        requires exists { index < length self.old.pages }
        requires shape { IsShape B M }
        requires whole { IsWhole B M }
        ensures wears { WearsAt index tearing mask.now want.now self.old.pages self.new.pages }
        ensures room { self.new.room ≡ self.old.room }
    {
        let chunk = &mut self.chunks[index / CHUNK];
        let page = &mut chunk[index % CHUNK];
        page.wear(tearing, mask, want);
    }
}

impl Book<LineEnergy> {
    /// Counts what is done to the line on a page.
    pub(crate) fn work(&mut self, index: usize, work: LineWork)
        requires { index < length self.old.pages }
        ensures pages { self.new.pages ≡ slice_set self.old.pages index
            (worked work (slice_index_or self.old.pages index no_energy)) }
        ensures room { self.new.room ≡ self.old.room }
    {
        let chunk = &mut self.chunks[index / CHUNK];
        let page = &mut chunk[index % CHUNK];
        *page = worked(work, *page);
    }
}
