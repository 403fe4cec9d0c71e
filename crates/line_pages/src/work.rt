// What is done to a line, as its energy is counted.
ghost use Rattle.std.specs.Prelude.{◌≡◌};
ghost use Rattle.line_pages.specs.Counting.{worked};

use cell_rows::LineEnergy;

/// What is done to a line.
#[derive(Clone, Copy, Drop)]
pub enum LineWork {
    /// A pulse or a tear drives so many cells to 1 and so many to 0.
    Drives { set: u32, reset: u32 },
    Sense,
}

/// The counts of a line, after this was done to it.
#[inline(always)]
pub(crate) fn worked(work: LineWork, energy: LineEnergy) -> LineEnergy
    ensures { result ≡ worked work energy }
{
    match work {
        LineWork::Drives { set, reset } => LineEnergy {
            set: energy.set.saturating_add(set as u64),
            reset: energy.reset.saturating_add(reset as u64),
            senses: energy.senses,
        },
        LineWork::Sense => LineEnergy {
            set: energy.set,
            reset: energy.reset,
            senses: energy.senses.saturating_add(1),
        },
    }
}
