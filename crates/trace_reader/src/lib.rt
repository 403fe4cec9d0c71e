//! Reads a trace: the bytes of a text of comma-separated rows become events, or the first fault with its row and kind.
//! What a trace means is a definition over the records that `csv` finds in the bytes, and `parse` computes exactly that.
#![tactic(auto)]

mod decimal;
mod digits;
mod event;
mod fault;
mod payload;
mod plain;
mod records;
mod row;
mod trace;

pub use decimal::number;
pub use event::{Event, EventOp};
pub use fault::{Kind, ParseFault, TraceFault};
pub use plain::{PlainRow, plain_end, plain_row, read_plain_row};
pub use row::{LATEST_TICK, read_fields};
pub use trace::{MOST_ROWS, parse};
