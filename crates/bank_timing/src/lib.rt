//! The clock that runs a bank: at each tick it completes the action that ends, takes what arrives, and chooses what to do
//! next. Each call extends the bank's history by the events that it makes, at the ticks that the rule gives, and by nothing else.
#![tactic(auto)]

mod arriving;
pub mod clocked;
mod completing;
mod cutting;
mod draining;
mod ending;
mod recovery;

pub use recovery::recover;
