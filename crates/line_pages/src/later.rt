// Young lines of more than a few pulses, whose cells don't miss.
ghost use Rattle.std.specs.Prelude.{◌≡◌};
ghost use Rattle.cell_rows.specs.Shape.{IsShape};

use cell_rows::Cells;
use seeded_lines::{Digits, Young, YoungPage, chosen};

/// What is kept of a line of at most 511 pulses: what its cells hold, how often each has changed, and the pulses. The changes are a
/// number of three digits in base eight, `low` the lowest.
#[derive(Drop)]
pub(crate) struct Later<const B: usize, const M: usize> {
    pub(crate) held: Cells<B, M>,
    pub(crate) low: Digits<B, M>,
    pub(crate) middle: Digits<B, M>,
    pub(crate) high: Digits<B, M>,
    pub(crate) pulses: u64,
}

impl<const B: usize, const M: usize> Later<B, M> {
    ghost use Rattle.line_pages.specs.Tiers.{by_later, young_or_blank};
    ghost use Rattle.std.specs.Prelude.{None};

    /// A line that was never pulsed.
    pub(crate) fn blank() -> Later<B, M>
        requires { IsShape B M }
        ensures { by_later result ≡ young_or_blank None }
    {
        Later {
            held: Cells::zero(),
            low: Digits::zero(),
            middle: Digits::zero(),
            high: Digits::zero(),
            pulses: 0,
        }
    }

    /// The line that it stands for.
    pub(crate) fn young(&self) -> Young<B, M>
        requires { IsShape B M }
        ensures { result ≡ by_later self.now }
    {
        Young {
            held: self.held,
            misses: Digits::zero(),
            limits: Digits::zero(),
            low: self.low,
            middle: self.middle,
            high: self.high,
            pulses: self.pulses,
        }
    }
}

impl<const B: usize, const M: usize> YoungPage<B, M> for Later<B, M> {
    ghost use Rattle.line_pages.specs.Tiers.{by_later};

    ghost young = { by_later };

    ghost room = { 511 };

    #[inline(always)]
    fn wear_block(
        &mut self,
        tearing: bool,
        reach: u64,
        many: bool,
        block: usize,
        mask: &Cells<B, M>,
        want: &Cells<B, M>,
    ) {
        let changing = mask.block(block) & reach;
        let carry = self.low.add(block, changing);
        let over = self.middle.add(block, carry);
        let _none = self.high.add_any(many, block, over);
        let held = chosen(self.held.block(block), changing, want.block(block));
        self.held.set_block(block, held);
    }

    #[inline(always)]
    fn pulses(&self) -> u64 {
        self.pulses
    }

    #[inline(always)]
    fn may_have_many(&self) -> bool {
        self.pulses >= 63
    }

    fn count_pulse(&mut self) {
        self.pulses += 1;
    }
}
