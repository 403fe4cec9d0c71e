//! Error-correcting pointers: where those of a memory line stand, and how the line is read by them.
//! Each replaces one data cell that is stuck by a spare cell, and a later one takes precedence.
#![tactic(auto)]

mod ecp;
mod mask;

pub use ecp::Ecp;
pub use mask::lowest;
