//! What ties a timed history to a bank with its clock, and the law of each step that the clock makes: time that passes, a
//! write or a read that arrives, an action that ends, a power cut, a cancel. A law is what a function here ensures; the functions do
//! nothing when they run.
#![tactic(auto)]

pub mod actions;
pub mod arrivals;
pub mod events;
pub mod outcomes;
pub mod time;
