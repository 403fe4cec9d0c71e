//! Generated traces: events that a seed draws, and the rows that print them. The text of a generated trace is read back
//! as its events, which the functions of `laws` promise.
#![tactic(auto)]

mod draw;
mod generator;
pub mod laws;
mod mix;
mod print;

pub use generator::{Generator, generate};
pub use mix::Mix;
pub use print::{header, print_event};
