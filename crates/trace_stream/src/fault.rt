//! Why a streamed trace doesn't go on.

use std::alloc::AllocError;
use trace_reader::TraceFault;

/// Why no row could be read.
#[derive(Clone, Copy, PartialEq)]
pub enum StreamFault {
    /// A row breaks the format.
    Trace(TraceFault),
    /// No row up to the last that is allowed has a fault, and one more stands.
    TooMany,
    /// A call of the source failed.
    Read,
    /// At least 2^64 - 1 bytes came and no row.
    Endless,
    /// Memory ran out.
    NoMemory,
}

impl From<AllocError> for StreamFault {
    ghost use Rattle.std.specs.Prelude.{◌≡◌};
    ghost use Rattle.trace_stream.specs.declared.fault.StreamFault.TheVariants.{NoMemory};

    ghost from_gives = { λ _ fault. fault ≡ NoMemory };

    fn from(_: AllocError) -> Self {
        StreamFault::NoMemory
    }
}
