//! The words of the program that explains: options alone, as `clap` reads them. They are those of `pcm check`, and
//! one that asks more of `worn` rows.
#![tactic(auto)]

mod job;
mod read;
mod table;

pub use job::ExplainJob;
pub use read::read_explain_job;
