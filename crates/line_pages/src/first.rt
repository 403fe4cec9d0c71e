// Young lines of few pulses, whose cells don't miss.
ghost use Rattle.std.specs.Prelude.{◌≡◌};
ghost use Rattle.cell_rows.specs.Shape.{IsShape};

use crate::later::Later;
use cell_rows::Cells;
use seeded_lines::{Digits, Young, YoungPage, chosen};

/// What is kept of a line of at most seven pulses: what its cells hold, how often each has changed, and the pulses.
#[derive(Drop)]
pub(crate) struct First<const B: usize, const M: usize> {
    pub(crate) held: Cells<B, M>,
    pub(crate) changes: Digits<B, M>,
    pub(crate) pulses: u64,
}

impl<const B: usize, const M: usize> First<B, M> {
    ghost use Rattle.line_pages.specs.Tiers.{by_first, by_later, first_or_blank};
    ghost use Rattle.std.specs.Prelude.{None};

    /// A line that was never pulsed.
    pub(crate) fn blank() -> First<B, M>
        requires { IsShape B M }
        ensures { result ≡ first_or_blank None }
    {
        First {
            held: Cells::zero(),
            changes: Digits::zero(),
            pulses: 0,
        }
    }

    /// The same line on a page with room for more changes.
    pub(crate) fn later(&self) -> Later<B, M>
        requires { IsShape B M }
        ensures { by_later result ≡ by_first self.now }
    {
        Later {
            held: self.held,
            low: self.changes,
            middle: Digits::zero(),
            high: Digits::zero(),
            pulses: self.pulses,
        }
    }

    /// The line that it stands for.
    pub(crate) fn young(&self) -> Young<B, M>
        requires { IsShape B M }
        ensures { result ≡ by_first self.now }
    {
        Young {
            held: self.held,
            misses: Digits::zero(),
            limits: Digits::zero(),
            low: self.changes,
            middle: Digits::zero(),
            high: Digits::zero(),
            pulses: self.pulses,
        }
    }
}

impl<const B: usize, const M: usize> YoungPage<B, M> for First<B, M> {
    ghost use Rattle.line_pages.specs.Tiers.{by_first};

    ghost young = { by_first };

    ghost room = { 7 };

    #[inline(always)]
    fn wear_block(
        &mut self,
        tearing: bool,
        reach: u64,
        many: bool,
        block: usize,
        mask: &Cells<B, M>,
        want: &Cells<B, M>,
    ) {
        let changing = mask.block(block) & reach;
        let _none = self.changes.add(block, changing);
        let held = chosen(self.held.block(block), changing, want.block(block));
        self.held.set_block(block, held);
    }

    #[inline(always)]
    fn pulses(&self) -> u64 {
        self.pulses
    }

    #[inline(always)]
    fn may_have_many(&self) -> bool {
        true
    }

    fn count_pulse(&mut self) {
        self.pulses += 1;
    }
}
