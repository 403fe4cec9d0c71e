//! Prints what becomes of the rows of a trace as it becomes known, and counts it; it keeps no table.
#![tactic(auto)]

mod printer;
mod snapshot;
mod text;
mod told;

pub use printer::RowPrinter;
pub use snapshot::{Snapshot, print_snapshot, snapshots_header};
pub use text::{print_head, print_told, stream_header};
pub use told::{ArrayWear, Backlog, Mark, PeekedLine, Shown, Told, ToldRest, ToldShape};
