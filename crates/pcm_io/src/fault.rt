// What a call answers in place of bytes.

use std::alloc::AllocError;

/// One call of a source or a sink failed; the object's count of faults rose.
#[derive(Clone, Copy, PartialEq, Eq)]
pub struct Failed;

/// A whole content couldn't be written.
#[derive(Clone, Copy, PartialEq, Eq)]
pub struct WriteFault;

/// Why a source wasn't read to its end.
#[derive(Clone, Copy, PartialEq, Eq)]
pub enum ReadAllFault {
    /// A call of the source failed.
    Read,
    /// The source gave more bytes than the limit.
    TooLong,
    /// Memory for the bytes was refused.
    NoMemory,
}

impl From<AllocError> for ReadAllFault {
    ghost use Rattle.std.specs.Prelude.{◌≡◌};
    ghost use Rattle.pcm_io.specs.declared.fault.ReadAllFault.TheVariants.{NoMemory};

    ghost from_gives = { λ _ fault. fault ≡ NoMemory };

    fn from(_: AllocError) -> Self {
        ReadAllFault::NoMemory
    }
}
