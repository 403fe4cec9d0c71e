//! A trace and its results in one text: whether the results are ones that a module may give of the trace, and the line that
//! says so.
#![tactic(auto)]

ghost use Rattle.check_text.specs.PrintedLaw.{PrintedLaw};
ghost use Rattle.check_text.specs.SplitLaw.{SplitLaw};

pub mod asks;
pub mod banks;
mod fault;
pub mod rules;
pub mod text;
mod verdict;

pub use fault::TextFault;
pub use result_check::{Rule, Verdict};
pub use text::check_text;
pub use verdict::print_verdict;

/// What a run prints of its results is read as these.
pub fn printed_results_are_read()
    ensures { PrintedLaw }
{}

/// Behind a trace whose last line is ended, results begin at their own first byte.
pub fn results_begin_behind_their_trace()
    ensures { SplitLaw }
{}
