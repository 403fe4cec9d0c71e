//! The sizes of a module: so many banks of so many regions of so many lines. Which sizes a module may have, the shape and
//! the pace of its banks, and in which bank a line stands.
#![tactic(auto)]

mod raw;
mod shape;

pub use bank_shape::{Home, Pace, Policy};
pub use raw::{BadShape, Field, RawShape, SizeLimits};
pub use shape::{BankLine, Shape};
