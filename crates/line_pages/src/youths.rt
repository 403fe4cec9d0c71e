// The young lines of an array.
ghost use Rattle.std.specs.Prelude.{◌≡◌, ◌≢◌, ℕ, ◌<◌, ◌≤◌, length, IfOk, IsTrue, IsFalse, IsSome, Some, None, option_copied};
ghost use Rattle.std.specs.Option.{option_map};
ghost use Rattle.cell_rows.specs.Device.{IsWear};
ghost use Rattle.cell_rows.specs.Shape.{IsShape, IsWhole};
ghost use Rattle.line_pages.specs.Begun.{AgesLine, Starts};
ghost use Rattle.line_pages.specs.PageTable.{page_at};
ghost use Rattle.seeded_lines.specs.Young.{MayAge, changes_in};
ghost use Rattle.line_pages.specs.Below.{AgesBelow};

use crate::page_table::PageTable;
use crate::tiers::Tiers;
use cell_rows::{Cells, Wear};
use seeded_lines::Young;
use std::alloc::{AllocError, Global};

/// The pages of the lines that are young.
#[derive(Drop)]
pub(crate) enum Youths<const B: usize, const M: usize> {
    /// Of an array whose cells don't miss.
    Sure(Tiers<B, M>),
    /// Of one whose cells miss.
    Missing(PageTable<Young<B, M>>),
}

// Gives a line a page that has none.
fn begin<const B: usize, const M: usize>(pages: &mut PageTable<Young<B, M>>, wear: Wear, line: u32)
    requires exists { line < length pages.old }
    requires wear { IsWear wear }
    requires shape { IsShape B M }
    ensures page { (young : Young B M) → page_at pages.new line ≡ Some young
        → Starts wear line (page_at pages.old line) young }
    ensures has { IsSome (page_at pages.new line) }
    ensures others { (n : ℕ) → n ≢ line → page_at pages.new n ≡ page_at pages.old n }
    ensures lines { length pages.new ≡ length pages.old }
{
    if !pages.has(line) {
        pages.insert(line, Young::begun(wear, line));
    }
}

// A pulse or a tear of a line whose cells miss, and that stays young.
fn age_missing<const B: usize, const M: usize>(
    pages: &mut PageTable<Young<B, M>>,
    wear: Wear,
    line: u32,
    tearing: bool,
    mask: &Cells<B, M>,
    want: &Cells<B, M>,
)
    requires exists { line < length pages.old }
    requires wear { IsWear wear }
    requires young { (young : Young B M) → page_at pages.old line ≡ Some young → MayAge 511 young }
    requires shape { IsShape B M }
    requires whole { IsWhole B M }
    ensures ages { AgesLine wear line tearing mask.now want.now (page_at pages.old)
        (page_at pages.new) }
    ensures lines { length pages.new ≡ length pages.old }
{
    begin(pages, wear, line);
    pages.age(line, tearing, mask, want);
}

impl<const B: usize, const M: usize> Youths<B, M> {
    ghost use Rattle.line_pages.specs.Youths.{Suits, young_at, young_lines};
    ghost use Rattle.cell_rows.specs.declared.array.Wear.{Wear};

    /// No young line, and room for the pages of all.
    pub(crate) fn blank(alloc: Global, lines: u32, wear: Wear) -> Result<Youths<B, M>, AllocError>
        ensures none { IfOk result (λ y. (line : ℕ) → young_at y line ≡ None) }
        ensures lines { IfOk result (λ y. young_lines y ≡ lines) }
        ensures suits { IfOk result (λ y. Suits wear y) }
    {
        if wear.misses == 0 {
            Ok(Youths::Sure(Tiers::blank(alloc, lines)?))
        } else {
            Ok(Youths::Missing(PageTable::blank(alloc, lines)?))
        }
    }

    /// What the cells of a young line hold.
    pub(crate) fn held(&self, line: u32) -> Option<&Cells<B, M>>
        requires { line < young_lines self.now }
        ensures { option_copied result ≡ option_map (λ young. young.held) (young_at self.now line) }
    {
        match self {
            Youths::Sure(tiers) => tiers.held(line),
            Youths::Missing(pages) => match pages.get(line) {
                Some(young) => Some(&young.held),
                None => None,
            },
        }
    }

    /// How often a young line was pulsed or torn.
    pub(crate) fn pulses(&self, line: u32) -> Option<u64>
        requires { line < young_lines self.now }
        ensures { result ≡ option_map (λ young. young.pulses) (young_at self.now line) }
    {
        match self {
            Youths::Sure(tiers) => tiers.pulses(line),
            Youths::Missing(pages) => match pages.get(line) {
                Some(young) => Some(young.pulses),
                None => None,
            },
        }
    }

    /// A young line.
    pub(crate) fn get(&self, line: u32) -> Option<Young<B, M>>
        requires exists { line < young_lines self.now }
        requires shape { IsShape B M }
        ensures { result ≡ young_at self.now line }
    {
        match self {
            Youths::Sure(tiers) => tiers.get(line),
            Youths::Missing(pages) => match pages.get(line) {
                Some(young) => Some(*young),
                None => None,
            },
        }
    }

    /// A pulse or a tear of a line that stays young.
    pub(crate) fn age(
        &mut self,
        wear: Wear,
        line: u32,
        tearing: bool,
        mask: &Cells<B, M>,
        want: &Cells<B, M>,
    )
        requires exists { line < young_lines self.old }
        requires wear { IsWear wear }
        requires suits { Suits wear self.old }
        requires young { (young : Young B M) → young_at self.old line ≡ Some young
            → MayAge 511 young }
        requires shape { IsShape B M }
        requires whole { IsWhole B M }
        ensures ages { AgesLine wear line tearing mask.now want.now (young_at self.old)
            (young_at self.new) }
        ensures lines { young_lines self.new ≡ young_lines self.old }
        ensures suits { Suits wear self.new }
    {
        match self {
            Youths::Sure(tiers) => tiers.age(line, tearing, mask, want),
            Youths::Missing(pages) => age_missing(pages, wear, line, tearing, mask, want),
        }
    }

    /// A pulse or a tear of a line that stays on its page, if it was pulsed less often than so many times. Tells whether it does and was.
    #[inline(always)]
    pub(crate) fn age_below(
        &mut self,
        line: u32,
        limit: u64,
        tearing: bool,
        mask: &Cells<B, M>,
        want: &Cells<B, M>,
    ) -> bool
        requires exists { line < young_lines self.old }
        requires room { limit ≤ 511 }
        requires young { (young : Young B M) → young_at self.old line ≡ Some young
            → (n : ℕ) → changes_in young n ≤ young.pulses }
        requires shape { IsShape B M }
        requires whole { IsWhole B M }
        ensures ages { IsTrue result → AgesBelow limit line tearing mask.now want.now
            (young_at self.old) (young_at self.new) }
        ensures same { IsFalse result → (n : ℕ) → young_at self.new n ≡ young_at self.old n }
        ensures lines { young_lines self.new ≡ young_lines self.old }
        ensures suits { (wear : Wear) → Suits wear self.old → Suits wear self.new }
    {
        match self {
            Youths::Sure(tiers) => tiers.age_below(line, limit, tearing, mask, want),
            Youths::Missing(pages) => pages.age_below(line, limit, tearing, mask, want),
        }
    }

    /// Takes the page of a line that is young no more: another line may get it.
    pub(crate) fn remove(&mut self, line: u32)
        requires { line < young_lines self.old }
        ensures others { (n : ℕ) → n ≢ line → young_at self.new n ≡ young_at self.old n }
        ensures gone { young_at self.new line ≡ None }
        ensures lines { young_lines self.new ≡ young_lines self.old }
        ensures suits { (wear : Wear) → Suits wear self.old → Suits wear self.new }
    {
        match self {
            Youths::Sure(tiers) => tiers.remove(line),
            Youths::Missing(pages) => pages.remove(line),
        }
    }
}
