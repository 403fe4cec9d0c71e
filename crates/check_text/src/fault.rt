//! Why a text has no verdict.
ghost use Rattle.std.specs.Prelude.{◌≡◌};
ghost use Rattle.check_text.specs.Causes.{no_results, no_trace};
ghost use Rattle.check_text.specs.declared.fault.TextFault.TheVariants as of;

use check_reader::ResultFault;
use std::alloc::AllocError;
use trace_reader::{ParseFault, TraceFault};

/// Why `check_text` gave no verdict.
#[derive(Clone, Copy, PartialEq)]
pub enum TextFault {
    /// The trace has a fault.
    Trace(TraceFault),
    /// The trace has too many rows.
    TooMany,
    /// This row of the results is none; row 0 is the header.
    Results(u32),
    /// Memory ran out.
    NoMemory,
}

impl From<AllocError> for TextFault {
    ghost from_gives = { λ _ fault. fault ≡ of.NoMemory };

    fn from(_: AllocError) -> TextFault {
        TextFault::NoMemory
    }
}

impl From<ParseFault> for TextFault {
    ghost from_gives = { λ parse fault. fault ≡ no_trace parse };

    fn from(parse: ParseFault) -> TextFault {
        match parse {
            ParseFault::Trace(fault) => TextFault::Trace(fault),
            ParseFault::TooMany => TextFault::TooMany,
            ParseFault::NoMemory => TextFault::NoMemory,
        }
    }
}

impl From<ResultFault> for TextFault {
    ghost from_gives = { λ results fault. fault ≡ no_results results };

    fn from(results: ResultFault) -> TextFault {
        match results {
            ResultFault::Row(row) => TextFault::Results(row),
            ResultFault::NoMemory => TextFault::NoMemory,
        }
    }
}
