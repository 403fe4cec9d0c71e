//! Rows of one-bit memory cells, and what an array of them may do, whose cells miss, stick or are torn by a power cut. The trait
//! says all that a pulse, a tear and a sense may do to an array, so that a controller can be proved over every one. What an array
//! tells of its cells' wear no controller needs: what a line holds, without a sense; how many of its cells are stuck; the most changes
//! that one of them has spent; how many were driven to 1 and to 0, and how often the line was sensed.
#![tactic(auto)]

mod array;
mod blocks;
mod bytes;
mod row;
mod tells;

pub use array::{CellArray, LineEnergy, Sense, Wear};
pub use row::Cells;
pub use tells::{CellWear, TellsCells};
