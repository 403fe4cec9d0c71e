//! Reads a trace row by row from any source, as it comes: it holds a piece of the text and what decides of the row at hand,
//! and never the trace. What a streamed trace means is a definition over the records that `csv` finds in the bytes.
#![tactic(auto)]

mod asked;
mod fault;
mod incoming;
mod kept;
pub mod laws;
mod machine;
mod records;
mod stream;
mod whole;

pub use asked::{Asked, Peek, Until, UntilAny};
pub use fault::StreamFault;
pub use stream::{MOST_STREAMED, TraceStream};
pub use whole::read_stream;
