//! One bank of the memory: its writes and reads, its line writes, and its power cuts, each of them one event.
//! Each line stands for the newest bytes that were accepted for it, whatever the cells do and wherever a cut falls.
#![tactic(auto)]

pub mod arriving;
pub mod bank;
mod beginning;
mod cutting;
mod restoring;
mod sensing;
mod serving;
mod standing;
mod stepping;
