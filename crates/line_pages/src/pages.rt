// Lines that are kept from their first pulse on.
ghost use Rattle.std.specs.Prelude.{◌≡◌, ◌≢◌, ℕ, ◌*◌, ◌+◌, ◌<◌, length, IfOk, IsTrue, IsFalse, IsSome, Some, None, replicate};
ghost use Rattle.cell_rows.specs.Rows.{cell, members};
ghost use Rattle.cell_rows.specs.Told.{most};
ghost use Rattle.cell_rows.specs.Shape.{IsShape, IsWhole};
ghost use Rattle.cell_rows.specs.Device.{IsWear, counted};
ghost use Rattle.seeded_lines.specs.Follows.{Follows};
ghost use Rattle.seeded_lines.specs.Seeded.{seeded, seeded_cell};
ghost use Rattle.line_pages.specs.PageTable.{page_at};
ghost use Rattle.line_pages.specs.Paged.{AreYoung, line_seen};
ghost use Rattle.line_pages.specs.Begun.{pulses_before};
ghost use Rattle.seeded_lines.specs.Young.{IsYouth};
ghost use Rattle.line_pages.specs.Youths.{Suits, young_at, young_lines};

use crate::page_table::PageTable;
use crate::youths::Youths;
use cell_rows::{CellWear, Cells, Wear};
use seeded_lines::{SeededLine, has_end};
use std::alloc::{AllocError, Global};

/// The lines of an array. From its first pulse or tear on a line has a young page while none of its cells can be near its end, and
/// from then on a grown one. A line without a page is as its words will draw it: they depend on the seed and its number alone.
#[derive(Drop)]
pub struct Pages<const B: usize, const M: usize> {
    wear: Wear,
    // So many pulses a line may have while it is young.
    limit: u64,
    young: Youths<B, M>,
    grown: PageTable<SeededLine<B, M>>,
    ghost wears: { IsWear wear },
    ghost youth: { IsYouth wear limit },
    ghost suits: { Suits wear young },
    ghost young_pages: { AreYoung wear limit (young_at young) },
    ghost same_lines: { young_lines young ≡ length grown },
}

// An array of fewer lines whose cells miss keeps none of them young: drawn twice they take longer, and their room is small.
const FEW_LINES: u32 = 16_384;

// So many pulses a line of an array of so many may have while it is young.
fn young_limit(wear: Wear, lines: u32) -> u64
    requires { IsWear wear }
    ensures { IsYouth wear result }
{
    if wear.misses > 0 && lines < FEW_LINES {
        return 0;
    }
    (wear.lo as u64 - 1).min(511)
}

impl<const B: usize, const M: usize> Pages<B, M> {
    ghost use Rattle.seeded_lines.specs.Drawn.{HaveSameLife, changes_of};
    ghost use Rattle.line_pages.specs.Paging.{seen, WearsLine};

    /// Lines without a page, and room for the pages of all.
    pub fn blank(alloc: Global, lines: u32, wear: Wear) -> Result<Pages<B, M>, AllocError>
        requires { IsWear wear }
        ensures wear { IfOk result (λ p. p.wear ≡ wear) }
        ensures young { IfOk result (λ p. (line : ℕ) → young_at p.young line ≡ None) }
        ensures grown { IfOk result (λ p. p.grown ≡ replicate lines None) }
    {
        Ok(Pages {
            wear,
            limit: young_limit(wear, lines),
            young: Youths::blank(alloc, lines, wear)?,
            grown: PageTable::blank(alloc, lines)?,
        })
    }

    /// The number of lines.
    pub fn len(&self) -> u32
        ensures { result ≡ length self.now.grown }
    {
        self.grown.len()
    }

    /// What the cells of the line hold.
    pub fn held(&self, line: u32) -> Cells<B, M>
        requires exists { line < length self.now.grown }
        requires shape { IsShape B M }
        ensures { result ≡ (seen self.now line).line.held }
    {
        // Each answer is copied once: a `match` would hand it on by way of a local.
        if let Some(grown) = self.grown.get(line) {
            return grown.held();
        }
        if let Some(held) = self.young.held(line) {
            return *held;
        }
        Cells::zero()
    }

    /// How often the line was pulsed or torn.
    pub fn pulses(&self, line: u32) -> u64
        requires exists { line < length self.now.grown }
        requires shape { IsShape B M }
        ensures { result ≡ (seen self.now line).line.pulses }
    {
        match self.grown.get(line) {
            Some(grown) => grown.pulses(),
            None => match self.young.pulses(line) {
                Some(pulses) => pulses,
                None => 0,
            },
        }
    }

    /// How the cells of the line are worn. The words of a grown line are drawn again.
    pub fn cell_wear(&self, line: u32) -> CellWear
        requires exists { line < length self.now.grown }
        requires shape { IsShape B M }
        ensures stuck { result.stuck ≡ members (cell (seen self.now line).line.stuck)
            (8 * (B + M)) }
        ensures changes { result.changes
            ≡ most (changes_of self.now.wear line (seen self.now line)) (8 * (B + M)) }
    {
        match self.grown.get(line) {
            Some(grown) => {
                let drawn = SeededLine::drawn(self.wear, line);
                grown.cell_wear(&drawn)
            }
            None => self.young_wear(line),
        }
    }

    // How the cells of a line are worn that hasn't grown.
    fn young_wear(&self, line: u32) -> CellWear
        requires exists { line < length self.now.grown }
        requires young { page_at self.now.grown line ≡ None }
        requires shape { IsShape B M }
        ensures stuck { result.stuck ≡ members (cell (seen self.now line).line.stuck)
            (8 * (B + M)) }
        ensures changes { result.changes
            ≡ most (changes_of self.now.wear line (seen self.now line)) (8 * (B + M)) }
    {
        let changes = match self.young.get(line) {
            Some(young) => young.most_changes(),
            None => 0,
        };
        CellWear { stuck: 0, changes }
    }

    // Whether the line hasn't grown and stays young in one pulse more.
    fn stays_young(&self, line: u32) -> bool
        requires exists { line < length self.now.grown }
        ensures young { IsTrue result → page_at self.now.grown line ≡ None }
        ensures few { IsTrue result
            → pulses_before (young_at self.now.young line) < self.now.limit }
    {
        match self.grown.get(line) {
            Some(_) => false,
            None => match self.young.pulses(line) {
                Some(pulses) => pulses < self.limit,
                None => 0 < self.limit,
            },
        }
    }

    // A pulse or a tear of a line, in which it stays young.
    fn age(&mut self, line: u32, tearing: bool, mask: &Cells<B, M>, want: &Cells<B, M>)
        requires exists { line < length self.old.grown }
        requires young { page_at self.old.grown line ≡ None }
        requires few { pulses_before (young_at self.old.young line) < self.old.limit }
        requires shape { IsShape B M }
        requires whole { IsWhole B M }
        ensures { WearsLine line tearing mask.now want.now self.old self.new }
    {
        has_end(mask);
        self.young.age(self.wear, line, tearing, mask, want);
    }

    // The page of a line that has no grown one yet, whose words are drawn now.
    fn drawn(&self, line: u32) -> SeededLine<B, M>
        requires exists { line < length self.now.grown }
        requires shape { IsShape B M }
        requires whole { IsWhole B M }
        ensures { HaveSameLife (line_seen self.now.wear line (young_at self.now.young line) None)
            result }
    {
        match self.young.get(line) {
            Some(young) => SeededLine::aged(self.wear, line, &young),
            None => SeededLine::drawn(self.wear, line),
        }
    }

    // Gives a line a grown page that has none. Its young page goes.
    fn grow(&mut self, line: u32)
        requires exists { line < length self.old.grown }
        requires shape { IsShape B M }
        requires whole { IsWhole B M }
        ensures has { IsSome (page_at self.new.grown line) }
        ensures page { HaveSameLife (seen self.old line) (seen self.new line) }
        ensures others { (n : ℕ) → n ≢ line → seen self.new n ≡ seen self.old n }
        ensures lines { length self.new.grown ≡ length self.old.grown }
        ensures wear { self.new.wear ≡ self.old.wear }
    {
        if !self.grown.has(line) {
            let page = self.drawn(line);
            self.grown.insert(line, page);
            self.young.remove(line);
        }
    }

    // A pulse or a tear of a line that has grown.
    #[inline(never)]
    fn wear_grown(&mut self, line: u32, tearing: bool, mask: &Cells<B, M>, want: &Cells<B, M>)
        requires exists { line < length self.old.grown }
        requires has { IsSome (page_at self.old.grown line) }
        requires shape { IsShape B M }
        requires whole { IsWhole B M }
        ensures { WearsLine line tearing mask.now want.now self.old self.new }
    {
        self.grown.wear(line, tearing, mask, want);
    }

    // A pulse or a tear of a line, for which it grows.
    fn outgrow(&mut self, line: u32, tearing: bool, mask: &Cells<B, M>, want: &Cells<B, M>)
        requires exists { line < length self.old.grown }
        requires shape { IsShape B M }
        requires whole { IsWhole B M }
        ensures { WearsLine line tearing mask.now want.now self.old self.new }
    {
        self.grow(line);
        self.wear_grown(line, tearing, mask, want);
    }

    // A pulse or a tear of a line, for which it may get another page. It stands apart, so that what is done to each other line is short.
    #[cold]
    #[inline(never)]
    fn wear_anew(&mut self, line: u32, tearing: bool, mask: &Cells<B, M>, want: &Cells<B, M>)
        requires exists { line < length self.old.grown }
        requires shape { IsShape B M }
        requires whole { IsWhole B M }
        ensures { WearsLine line tearing mask.now want.now self.old self.new }
    {
        if self.stays_young(line) {
            self.age(line, tearing, mask, want);
        } else {
            self.outgrow(line, tearing, mask, want);
        }
    }

    // A pulse or a tear of a line that hasn't grown, if it stays on its page. Tells whether it does.
    #[inline(always)]
    fn age_below(
        &mut self,
        line: u32,
        tearing: bool,
        mask: &Cells<B, M>,
        want: &Cells<B, M>,
    ) -> bool
        requires exists { line < length self.old.grown }
        requires young { page_at self.old.grown line ≡ None }
        requires shape { IsShape B M }
        requires whole { IsWhole B M }
        ensures wears { IsTrue result → WearsLine line tearing mask.now want.now self.old self.new }
        ensures same { IsFalse result → (n : ℕ) → seen self.new n ≡ seen self.old n }
        ensures lines { length self.new.grown ≡ length self.old.grown }
        ensures wear { self.new.wear ≡ self.old.wear }
    {
        has_end(mask);
        self.young.age_below(line, self.limit, tearing, mask, want)
    }

    // A pulse or a tear of a line that hasn't grown.
    #[inline(always)]
    fn wear_young(&mut self, line: u32, tearing: bool, mask: &Cells<B, M>, want: &Cells<B, M>)
        requires exists { line < length self.old.grown }
        requires young { page_at self.old.grown line ≡ None }
        requires shape { IsShape B M }
        requires whole { IsWhole B M }
        ensures { WearsLine line tearing mask.now want.now self.old self.new }
    {
        if !self.age_below(line, tearing, mask, want) {
            self.wear_anew(line, tearing, mask, want);
        }
    }

    /// A pulse or a tear of the line.
    pub fn wear(&mut self, line: u32, tearing: bool, mask: &Cells<B, M>, want: &Cells<B, M>)
        requires exists { line < length self.old.grown }
        requires shape { IsShape B M }
        requires whole { IsWhole B M }
        ensures { WearsLine line tearing mask.now want.now self.old self.new }
    {
        if self.grown.has(line) {
            self.wear_grown(line, tearing, mask, want);
        } else {
            self.wear_young(line, tearing, mask, want);
        }
    }
}
