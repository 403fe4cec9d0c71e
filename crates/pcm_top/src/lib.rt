//! The program `pcm` as one call over its words, its array of cells, and the places where its bytes come from
//! and go to. The call's contract says what every run prints and leaves in the array, and what each status
//! means.
#![tactic(auto)]

mod cause;
mod check;
mod drawn;
mod fault;
mod input;
pub mod laws;
mod memory;
mod print;
mod program;
mod replay;
mod report;
mod run;
mod show;

pub use check::{CHECK_ROOM, done_on};
pub use fault::{Fault, tell};
pub use input::TRACE_ROOM;
pub use program::pcm_run;
pub use run::Done;
