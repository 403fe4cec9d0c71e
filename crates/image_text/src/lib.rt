//! The parts of a module's image as they are printed: its numbers, what a bank keeps, and the cells of the array lines, each put behind what
//! a [printer](../printer) printed before.
#![tactic(auto)]

pub mod bank;
mod lines;
pub mod pieces;

pub use bank::print_bank;
pub use lines::print_rows;
pub use pieces::print_head;
