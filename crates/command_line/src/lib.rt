//! The words of the program: the commands `run`, `gen`, `map`, `moves`, `show` and `check` with their options, as `clap` reads
//! them.
#![tactic(auto)]

mod job;
pub mod options;
mod read;
mod refusal;
pub mod table;

pub use job::{CheckJob, GenJob, Input, Job, LineSize, MapJob, MovesJob, Print, Refusal, RunJob};
pub use read::read_job;
