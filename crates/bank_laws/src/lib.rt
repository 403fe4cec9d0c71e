//! The laws of a bank: a lawful history leaves a table of rows that keeps the laws of the rows. A law is what a function
//! here ensures; the functions do nothing when they run.
#![tactic(auto)]

pub mod first;
pub mod rows;
