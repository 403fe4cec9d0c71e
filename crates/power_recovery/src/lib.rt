//! What a bank keeps over a power cut: its write queue, its remap table, its regions' registers and counters, and a mark.
//! What the bank does next is decided by these alone, so recovery after a cut is one question: the next work.
#![tactic(auto)]

pub mod kept;

pub use bank_shape::{BankShape, Work};
