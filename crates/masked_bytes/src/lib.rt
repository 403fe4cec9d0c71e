//! Bytes of a line of which some are given, as a masked write gives them, and how they are laid over each other.
//! It also has the entry of a write queue, and what several entries of one line stand for together.
#![tactic(auto)]

pub mod entry;
pub mod layers;
