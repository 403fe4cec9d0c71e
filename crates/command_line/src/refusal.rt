// Why words give no job, by what failed as they were read.
ghost use Rattle.std.specs.Prelude.{◌≡◌};
ghost use Rattle.clap.specs.Words.{kind_of};
ghost use Rattle.command_line.specs.Refusals.{refusal_by};
ghost use Rattle.command_line.specs.declared.job.Refusal.TheVariants as of;

use crate::job::Refusal;
use clap::Error;
use clap::error::ErrorKind;
use std::alloc::AllocError;

impl From<AllocError> for Refusal {
    ghost from_gives = { λ _ refusal. refusal ≡ of.NoMemory };

    fn from(_: AllocError) -> Refusal {
        Refusal::NoMemory
    }
}

impl From<Error> for Refusal {
    ghost from_gives = { λ error refusal. refusal ≡ refusal_by (kind_of error) };

    fn from(error: Error) -> Refusal {
        match error.kind() {
            ErrorKind::OutOfMemory => Refusal::NoMemory,
            _ => Refusal::Usage,
        }
    }
}
