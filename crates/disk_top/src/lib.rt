//! The program of disks as one call over its words, and the places where a client's bytes come from
//! and go to. The call's contract says what every client is answered, that each byte that was
//! acknowledged is kept, and what each status means.
#![tactic(auto)]

mod outcome;
mod program;
mod serving;

pub use outcome::{DiskFault, DiskOutcome};
pub use program::{Remains, run_disk};
pub use serving::{NarrowLines, WideLines};
