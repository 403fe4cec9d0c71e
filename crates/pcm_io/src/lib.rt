//! Where the program's bytes come from and go to: sources and sinks whose calls may fail, each with a count
//! of its faults, and texts in memory that was reserved before.
//! Above them `read_all` and `write_all` move whole contents, and say exactly what was moved.
#![tactic(auto)]

mod calls;
mod decimal;
mod fault;
mod hexadecimal;
mod sink;
mod source;
mod text;
mod unread;
mod whole;

pub use fault::{Failed, ReadAllFault, WriteFault};
pub use sink::{MemSink, NeverFailSink, Sink, StdSink};
pub use source::{MemSource, NeverFailSource, Source, StdSource};
pub use text::Text;
pub use whole::{read_all, write_all};
