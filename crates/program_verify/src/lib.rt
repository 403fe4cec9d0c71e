//! Programming of a memory line by pulse and verify: the cells that still differ are pulsed again, at most eight times.
//! Cells that are wrong after that are stuck, since a live cell misses at most seven times in a row.
#![tactic(auto)]

mod prog;

pub use prog::{Prog, Turn};
