//! Reads results back: the bytes that a run printed of a trace become its outcomes, or the first row that isn't such a row.
//! Which bytes are results is said by the text that a run prints, so reading and printing are each other's inverse.
#![tactic(auto)]

ghost use Rattle.check_reader.specs.ReadOnce.{ReadOnceLaw};

mod digits;
mod fault;
mod fields;
mod number;
mod outcome;
mod results;
mod row;
mod split;

pub use fault::ResultFault;
pub use results::parse_results;
pub use split::find_results;

/// Bytes are results of one table of outcomes, or have one fault.
pub fn results_are_read_once()
    ensures { ReadOnceLaw }
{}
