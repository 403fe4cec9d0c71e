//! What a bank of the memory is to its history and to its array of cells, whatever its cells do and wherever a power cut
//! falls: definitions, and the law of each event that keeps them. A law is what a function here ensures; the functions
//! do nothing when they run.
#![tactic(auto)]

pub mod beginning;
pub mod bridge;
pub mod iterations;
pub mod moving;
pub mod pulses;
pub mod serving;
pub mod steps;
pub mod storing;
pub mod torn;
pub mod worn_lines;
pub mod writes;
