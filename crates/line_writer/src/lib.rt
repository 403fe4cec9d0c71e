//! One whole write of a memory line with error-correcting pointers, as a value that makes one pulse and one sense per step.
//! After every step, and after a power cut in one, each entry that the line relies on is paid for by a stuck cell of its own.
#![tactic(auto)]

mod writer;

pub use writer::{Cause, LineWriter, Progress};
