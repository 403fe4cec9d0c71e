//! What became of each row of a trace, and the bytes that a run prints of it.
//! `Results` holds one outcome for each row, `Outcomes` is what is told them as they become known, and `print_row` appends a row's
//! text to memory that was reserved before.
#![tactic(auto)]

mod outcomes;
mod print;
mod results;

pub use outcomes::Outcomes;
pub use print::{header, print_outcome, print_row};
pub use results::Results;

/// What a row of a trace asks for.
#[derive(Clone, Copy, PartialEq, Eq)]
pub enum Op {
    /// Read a line.
    Read,
    /// Write bytes to a line.
    Write,
    /// Cut the power.
    Cut,
}

/// What became of a row of a trace, over lines of `B` bytes. Ticks are those of the simulated clock; a place is the
/// number of an array line.
#[derive(Clone, Copy, PartialEq, Eq)]
pub enum Outcome<const B: usize> {
    /// Not set yet.
    Unset,
    /// A write whose bytes stand in the array since the tick.
    Stored {
        tick: u64,
        place: u32,
    },
    /// A write that a newer one replaced in the queue when that arrived.
    Merged {
        tick: u64,
    },
    /// A write that is still in the queue after the run; the tick is its arrival.
    Queued {
        tick: u64,
    },
    /// A write refused at its arrival, since the queue was full.
    Full {
        tick: u64,
    },
    /// A write refused at its arrival, since a worn line of its bank found no spare.
    Worn {
        tick: u64,
    },
    /// A read served from the array, with the bytes of its line.
    Read {
        tick: u64,
        place: u32,
        bytes: [u8; B],
    },
    /// A read answered at its arrival, from the queue.
    Forwarded {
        tick: u64,
        bytes: [u8; B],
    },
    /// A read refused at its arrival, since too many reads waited.
    Busy {
        tick: u64,
    },
    /// A read that waited when the power was cut.
    Lost {
        tick: u64,
    },
    /// A cut of the power.
    Cut {
        tick: u64,
    },
}
