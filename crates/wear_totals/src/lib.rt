//! How worn an array of cells is: an array that tells it, and one over any other that keeps the totals of its lines as they are pulsed, so
//! that they needn't be sought line by line each time that they are asked for.
#![tactic(auto)]

mod array;
mod line;
mod tells;
mod totals;
mod walk;

pub use array::TotalledArray;
pub use tells::TellsWear;
