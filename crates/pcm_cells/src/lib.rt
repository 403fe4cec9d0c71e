//! Arrays of one-bit memory cells that miss, stick or are torn by a power cut: one whose cells wear out as a seed says, one that
//! does what a script says, and one that logs its senses. What an array is stands in cell_rows, whose names are handed on.
#![tactic(auto)]

mod energies;
mod line;
mod logged;
mod script;
mod seeded;
mod tally;

pub use cell_rows::{CellArray, CellWear, Cells, Sense, TellsCells, Wear};
pub use logged::LoggedArray;
pub use script::{Act, Script, ScriptArray};
pub use seeded::MemArray;
pub use seeded_lines::{CellState, SeededCell};
