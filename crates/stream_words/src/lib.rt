//! The words of the program of streams: options alone, as `clap` reads them. They are those of `pcm run`, with other
//! values of `--print`, longer drawn traces, `--end`, `--every`, `--until`, `--tell` and `--skip`.
#![tactic(auto)]

mod arrays;
mod job;
mod options;
mod read;
mod table;

pub use arrays::{counts_energy, keeps_totals};
pub use job::{End, Skip, StreamJob, StreamPrint, StreamUntil, Tell};
pub use read::read_stream_job;
