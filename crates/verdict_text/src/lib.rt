//! An explanation of a verdict as text: a line a fact, its key first.
#![tactic(auto)]

mod clauses;
mod explained;
mod read_facts;
mod right_reads;
mod right_writes;
mod room_facts;
mod rows;
mod say;
mod write_facts;

pub use explained::{say_explanation, say_unearned};
