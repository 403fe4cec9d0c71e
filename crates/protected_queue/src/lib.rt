//! The write queue of a bank: writes that wait, the oldest first, where a newer write of a line is merged into the newest one that waits.
//! It keeps its index over a power cut, so an entry leaves it only once its line was written.
#![tactic(auto)]

pub mod accept;
pub mod queue;
