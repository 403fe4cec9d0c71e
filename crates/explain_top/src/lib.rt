//! The program that explains a verdict as one call over its words, and the places where its bytes
//! come from and go to: it tells the line that `pcm check` tells of a trace and its results and,
//! where that isn't ok, which clause the row breaks that it names, by which rows, and every answer
//! that would be right. The call's contract says what is written, and what each status means.
#![tactic(auto)]

mod fault;
mod program;
mod report;
pub mod text;

pub use program::explain_run;
