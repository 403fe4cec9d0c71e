//! What a program's call is lent and what it leaves, and the lines of faults that both programs tell: each thing as it was and as it is,
//! how a text is written to a sink, and what is said of a trace's fault.
#![tactic(auto)]

mod telling;

pub use telling::{tell_trace, write_parts};
