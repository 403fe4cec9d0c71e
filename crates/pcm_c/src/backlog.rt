// What waits in a bank, as C sees it.
ghost use Rattle.std.specs.Prelude.{◌≡◌};
ghost use Rattle.pcm_c.specs.Telling.{mark_number, told_backlog};

use row_printer::{Backlog, Mark};

/// What waits in a bank, and whether it goes on.
#[repr(C)]
#[derive(Drop)]
pub struct ModuleBacklog {
    /// The entries of its write queue; one that is in flight counts.
    pub writes: u32,
    /// Its waiting reads; one that is served counts.
    pub reads: u32,
    /// 0: it goes on, 1: a worn line found no spare, 2: one of its control lines is worn.
    pub mark: u32,
}

// The number of a mark in C.
fn number(mark: Mark) -> u32
    ensures { result ≡ mark_number mark }
{
    match mark {
        Mark::Going => 0,
        Mark::Exhausted => 1,
        Mark::Halted => 2,
    }
}

/// Tells C what waits in a bank.
pub(crate) fn tell(backlog: &Backlog, told: &mut ModuleBacklog)
    ensures { told.new ≡ told_backlog backlog.now }
{
    told.writes = u32::from(backlog.writes);
    told.reads = u32::from(backlog.reads);
    told.mark = number(backlog.mark);
}
