//! Lines of one-bit memory cells that miss and wear out as the words of a seed say: small numbers of each cell, kept as planes of bits,
//! which a pulse changes 64 cells at a time; and young lines, none of whose cells can be near its end.
#![tactic(auto)]

mod aging;
mod blocks;
mod calm;
mod cell;
mod counts;
mod digits;
mod levels;
mod seeded;
mod young;

pub use aging::{YoungPage, wear_page};
pub use blocks::chosen;
pub use cell::{CellState, has_end};
pub use digits::Digits;
pub use seeded::{SeededCell, SeededLine};
pub use young::Young;
