//! The lines of a module as the lines of a disk: each write of a line is a row, made at once where it is accepted, and each read
//! is a row that is waited for. So a disk of bytes stands on the module.
#![tactic(auto)]

mod cuts;
mod laws;
mod lines;
mod masks;
mod places;
mod rows;
mod serving;
mod watch;

pub use laws::places_are_one_to_one;
pub use lines::PcmLines;
pub use places::Places;
pub use serving::serve_disk;
pub use watch::{Heard, Watch};
