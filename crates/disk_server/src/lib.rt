//! A disk served to one client after the other, as NBD: what it is sent and sends back, byte for
//! byte, and that its answers are those of a disk.
#![tactic(auto)]

mod answering;
mod choosing;
mod phase;
mod reading;
mod requests;
mod session;
mod writing;

pub use answering::OnCut;
pub use phase::{Ended, SessionPhase};
pub use session::serve;
