//! The words of the program that serves a disk: options alone, as `clap` reads them. Those of the
//! module are what they are to a stream; a disk's own say how large a sector is, and when the power
//! is cut.
#![tactic(auto)]

mod cuts;
mod job;
mod layout;
mod options;
mod read;
mod table;

pub use cuts::DrawnCuts;
pub use job::{DiskJob, DiskPlan};
pub use read::read_disk_job;
