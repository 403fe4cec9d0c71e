//! The program of streams as one call over its words, its array of cells, and the places where its bytes come from and go to. The call's
//! contract says what every stream prints as it goes and leaves in the array, and what each status means.
#![tactic(auto)]

mod closing;
mod done;
mod fault;
mod laws;
mod memory;
mod program;
mod serving;

pub use done::StreamDone;
pub use fault::{StreamRunFault, tell};
pub use program::stream_run;
