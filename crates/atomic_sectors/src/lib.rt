//! Sectors of several lines, each of which is written whole or not at all, over lines that are
//! written one by one, whatever power cut comes between two of them. A sector is written into the
//! block that is free; then one write of its word in the map makes that block the sector's, and the
//! one before is free. What is free is found again from the map alone.
#![tactic(auto)]

pub mod laws;
mod layout;
mod lines;
mod numbers;
mod recorded;
mod sectors;
mod serving;

pub use layout::Layout;
pub use lines::{Lines, Stopped};
pub use recorded::{Put, Recorded};
pub use sectors::Sectors;
pub use serving::{SectorAnswer, SectorRequest, opened, serve, serve_all};
