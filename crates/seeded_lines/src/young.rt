// Lines of which no cell can be near its end.
ghost use Rattle.std.specs.Prelude.{◌≡◌, ℕ, ◌+◌, ◌-◌, ◌*◌, ◌<◌};
ghost use Rattle.cell_rows.specs.Shape.{IsShape};
ghost use Rattle.cell_rows.specs.Device.{IsWear};
ghost use Rattle.cell_rows.specs.Told.{most};
ghost use Rattle.seeded_lines.specs.Counts.{count};
ghost use Rattle.seeded_lines.specs.Young.{changes_in};

use crate::aging::YoungPage;
use crate::blocks::{chosen, without};
use crate::counts::Counts;
use crate::digits::Digits;
use crate::seeded::SeededLine;
use cell_rows::{Cells, Wear};

/// A line of so few pulses that none of its cells can be near its end: what these hold, how often each missed since its last change, how
/// often it misses before each, how often it has changed, and the pulses. The changes are a number of three digits in base eight, `low`
/// the lowest.
#[derive(Clone, Copy, Drop)]
pub struct Young<const B: usize, const M: usize> {
    pub held: Cells<B, M>,
    pub misses: Digits<B, M>,
    pub limits: Digits<B, M>,
    pub low: Digits<B, M>,
    pub middle: Digits<B, M>,
    pub high: Digits<B, M>,
    pub pulses: u64,
}

impl<const B: usize, const M: usize> Young<B, M> {
    ghost use Rattle.seeded_lines.specs.Young.{IsBegun};

    /// A line that was never pulsed. Its words are drawn, which say how often each cell misses.
    pub fn begun(wear: Wear, line: u32) -> Young<B, M>
        requires wear { IsWear wear }
        requires shape { IsShape B M }
        ensures { IsBegun wear line result }
    {
        let drawn = SeededLine::drawn(wear, line);
        Young {
            held: Cells::zero(),
            misses: Digits::zero(),
            limits: drawn.limits(),
            low: Digits::zero(),
            middle: Digits::zero(),
            high: Digits::zero(),
            pulses: 0,
        }
    }

    // How often a cell has changed.
    pub(crate) fn changes(&self, number: u16) -> u32
        requires exists { number < 8 * (B + M) }
        requires shape { IsShape B M }
        ensures { result ≡ changes_in self.now number }
    {
        self.low.get(number) + 8 * self.middle.get(number) + 64 * self.high.get(number)
    }

    /// The most changes of a cell.
    pub fn most_changes(&self) -> u32
        requires { IsShape B M }
        ensures { result ≡ most (changes_in self.now) (8 * (B + M)) }
    {
        let mut changes = 0;
        for number in 0..8 * (B + M) as u16 {
            changes = changes.max(self.changes(number));
        }
        changes
    }

    // Takes from the number of each cell its changes.
    pub(crate) fn take_from(&self, left: &mut Counts<B, M>)
        requires { IsShape B M }
        ensures { (n : ℕ) → n < 8 * (B + M) → count left.new n
            ≡ count left.old n - changes_in self.now n }
    {
        for group in 0..B + M {
            let mut row = [0; 8];
            for index in 0..8 {
                let number = (8 * group + index) as u16;
                row[index] = left.get(number).saturating_sub(self.changes(number));
            }
            left.set_group(group, &row);
        }
    }
}

impl<const B: usize, const M: usize> YoungPage<B, M> for Young<B, M> {
    ghost young = { λ y. y };

    ghost room = { 511 };

    #[inline(always)]
    fn wear_block(
        &mut self,
        tearing: bool,
        reach: u64,
        many: bool,
        block: usize,
        mask: &Cells<B, M>,
        want: &Cells<B, M>,
    ) {
        let reached = mask.block(block) & reach;
        let missing = reached & self.misses.below(&self.limits, block);
        let changing = without(reached, missing);
        let carry = self.low.add(block, changing);
        let over = self.middle.add(block, carry);
        let _none = self.high.add_any(many, block, over);
        let held = chosen(self.held.block(block), changing, want.block(block));
        self.held.set_block(block, held);
        self.misses.advance(block, missing, changing);
    }

    #[inline(always)]
    fn pulses(&self) -> u64 {
        self.pulses
    }

    #[inline(always)]
    fn may_have_many(&self) -> bool {
        self.pulses >= 63
    }

    fn count_pulse(&mut self) {
        self.pulses += 1;
    }
}
