// The young lines of an array whose cells don't miss.
ghost use Rattle.std.specs.Prelude.{◌≡◌, ◌≢◌, ℕ, ◌<◌, ◌≤◌, length, IfOk, IsTrue, IsFalse, IsSome, Some, None, option_copied};
ghost use Rattle.std.specs.Option.{option_map};
ghost use Rattle.cell_rows.specs.Shape.{IsShape, IsWhole};
ghost use Rattle.line_pages.specs.PageTable.{page_at};
ghost use Rattle.line_pages.specs.Tiers.{by_later, first_or_blank, young_or_blank, AgesYoung};
ghost use Rattle.seeded_lines.specs.Young.{MayAge, changes_in};
ghost use Rattle.line_pages.specs.Below.{AgesBelow};

use crate::first::First;
use crate::later::Later;
use crate::page_table::PageTable;
use cell_rows::Cells;
use seeded_lines::Young;
use std::alloc::{AllocError, Global};

/// The pages of its young lines. Up to seven pulses a line has a first page, and then a later one.
#[derive(Drop)]
pub(crate) struct Tiers<const B: usize, const M: usize> {
    first: PageTable<First<B, M>>,
    later: PageTable<Later<B, M>>,
    ghost same_lines: { length first ≡ length later },
}

impl<const B: usize, const M: usize> Tiers<B, M> {
    ghost use Rattle.line_pages.specs.Tiered.{tier_at};

    /// No young line, and room for the pages of all.
    pub(crate) fn blank(alloc: Global, lines: u32) -> Result<Tiers<B, M>, AllocError>
        ensures none { IfOk result (λ y. (line : ℕ) → tier_at y line ≡ None) }
        ensures lines { IfOk result (λ y. length y.first ≡ lines) }
    {
        Ok(Tiers {
            first: PageTable::blank(alloc, lines)?,
            later: PageTable::blank(alloc, lines)?,
        })
    }

    /// What the cells of a young line hold.
    pub(crate) fn held(&self, line: u32) -> Option<&Cells<B, M>>
        requires { line < length self.now.first }
        ensures { option_copied result ≡ option_map (λ young. young.held) (tier_at self.now line) }
    {
        match self.later.get(line) {
            Some(later) => Some(&later.held),
            None => match self.first.get(line) {
                Some(first) => Some(&first.held),
                None => None,
            },
        }
    }

    /// How often a young line was pulsed or torn.
    pub(crate) fn pulses(&self, line: u32) -> Option<u64>
        requires { line < length self.now.first }
        ensures { result ≡ option_map (λ young. young.pulses) (tier_at self.now line) }
    {
        match self.later.get(line) {
            Some(later) => Some(later.pulses),
            None => match self.first.get(line) {
                Some(first) => Some(first.pulses),
                None => None,
            },
        }
    }

    /// A young line.
    pub(crate) fn get(&self, line: u32) -> Option<Young<B, M>>
        requires exists { line < length self.now.first }
        requires shape { IsShape B M }
        ensures { result ≡ tier_at self.now line }
    {
        match self.later.get(line) {
            Some(later) => Some(later.young()),
            None => match self.first.get(line) {
                Some(first) => Some(first.young()),
                None => None,
            },
        }
    }

    // Whether the line has no later page and needs none in one pulse more.
    fn stays_first(&self, line: u32) -> bool
        requires exists { line < length self.now.first }
        ensures first { IsTrue result → page_at self.now.later line ≡ None }
        ensures few { IsTrue result → (first_or_blank (page_at self.now.first line)).pulses < 7 }
    {
        match self.later.get(line) {
            Some(_) => false,
            None => match self.first.get(line) {
                Some(first) => first.pulses < 7,
                None => true,
            },
        }
    }

    // Gives a line a first page that has none.
    fn start(&mut self, line: u32)
        requires exists { line < length self.old.first }
        requires shape { IsShape B M }
        ensures page { page_at self.new.first line
            ≡ Some (first_or_blank (page_at self.old.first line)) }
        ensures others { (n : ℕ) → n ≢ line → page_at self.new.first n ≡ page_at self.old.first n }
        ensures later { self.new.later ≡ self.old.later }
    {
        if !self.first.has(line) {
            self.first.insert(line, First::blank());
        }
    }

    // A pulse or a tear of a line that stays on its first page.
    fn age_first(&mut self, line: u32, tearing: bool, mask: &Cells<B, M>, want: &Cells<B, M>)
        requires exists { line < length self.old.first }
        requires first { page_at self.old.later line ≡ None }
        requires few { (first_or_blank (page_at self.old.first line)).pulses < 7 }
        requires young { MayAge 511 (young_or_blank (tier_at self.old line)) }
        requires shape { IsShape B M }
        requires whole { IsWhole B M }
        ensures ages { AgesYoung line tearing mask.now want.now (tier_at self.old)
            (tier_at self.new) }
        ensures lines { length self.new.first ≡ length self.old.first }
    {
        self.start(line);
        self.first.age(line, tearing, mask, want);
    }

    // The later page that a line without one gets.
    fn widened(&self, line: u32) -> Later<B, M>
        requires exists { line < length self.now.first }
        requires first { page_at self.now.later line ≡ None }
        requires shape { IsShape B M }
        ensures { by_later result ≡ young_or_blank (tier_at self.now line) }
    {
        match self.first.get(line) {
            Some(first) => first.later(),
            None => Later::blank(),
        }
    }

    // Gives a line a later page that has none. Its first page goes.
    fn widen(&mut self, line: u32)
        requires exists { line < length self.old.first }
        requires shape { IsShape B M }
        ensures page { tier_at self.new line ≡ Some (young_or_blank (tier_at self.old line)) }
        ensures later { IsSome (page_at self.new.later line) }
        ensures others { (n : ℕ) → n ≢ line → tier_at self.new n ≡ tier_at self.old n }
        ensures lines { length self.new.first ≡ length self.old.first }
    {
        if !self.later.has(line) {
            let page = self.widened(line);
            self.later.insert(line, page);
            self.first.remove(line);
        }
    }

    // A pulse or a tear of a line on its later page.
    fn age_later(&mut self, line: u32, tearing: bool, mask: &Cells<B, M>, want: &Cells<B, M>)
        requires exists { line < length self.old.first }
        requires young { MayAge 511 (young_or_blank (tier_at self.old line)) }
        requires shape { IsShape B M }
        requires whole { IsWhole B M }
        ensures ages { AgesYoung line tearing mask.now want.now (tier_at self.old)
            (tier_at self.new) }
        ensures lines { length self.new.first ≡ length self.old.first }
    {
        self.widen(line);
        self.later.age(line, tearing, mask, want);
    }

    /// A pulse or a tear of a line that stays young.
    pub(crate) fn age(&mut self, line: u32, tearing: bool, mask: &Cells<B, M>, want: &Cells<B, M>)
        requires exists { line < length self.old.first }
        requires young { MayAge 511 (young_or_blank (tier_at self.old line)) }
        requires shape { IsShape B M }
        requires whole { IsWhole B M }
        ensures ages { AgesYoung line tearing mask.now want.now (tier_at self.old)
            (tier_at self.new) }
        ensures lines { length self.new.first ≡ length self.old.first }
    {
        if self.stays_first(line) {
            self.age_first(line, tearing, mask, want);
        } else {
            self.age_later(line, tearing, mask, want);
        }
    }

    /// A pulse or a tear of a line that stays on its page, if it was pulsed less often than so many times. Tells whether it does and was.
    #[inline(always)]
    pub(crate) fn age_below(
        &mut self,
        line: u32,
        limit: u64,
        tearing: bool,
        mask: &Cells<B, M>,
        want: &Cells<B, M>,
    ) -> bool
        requires exists { line < length self.old.first }
        requires room { limit ≤ 511 }
        requires young { (young : Young B M) → tier_at self.old line ≡ Some young
            → (n : ℕ) → changes_in young n ≤ young.pulses }
        requires shape { IsShape B M }
        requires whole { IsWhole B M }
        ensures ages { IsTrue result → AgesBelow limit line tearing mask.now want.now
            (tier_at self.old) (tier_at self.new) }
        ensures same { IsFalse result → (n : ℕ) → tier_at self.new n ≡ tier_at self.old n }
        ensures lines { length self.new.first ≡ length self.old.first }
    {
        if self.later.has(line) {
            return self.later.age_below(line, limit, tearing, mask, want);
        }
        self.first
            .age_below(line, limit.min(7), tearing, mask, want)
    }

    /// Takes the page of a line that is young no more: another line may get it.
    pub(crate) fn remove(&mut self, line: u32)
        requires { line < length self.old.first }
        ensures others { (n : ℕ) → n ≢ line → tier_at self.new n ≡ tier_at self.old n }
        ensures gone { tier_at self.new line ≡ None }
        ensures lines { length self.new.first ≡ length self.old.first }
    {
        self.first.remove(line);
        self.later.remove(line);
    }
}
