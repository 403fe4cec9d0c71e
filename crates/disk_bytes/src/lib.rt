//! A disk of bytes over lines that are written one by one: any bytes at any offset are read and
//! written, whatever power cut comes, over sectors that are written whole or not at all.
#![tactic(auto)]

mod copying;
mod disk;
mod pieces;
mod serving;

pub use disk::Disk;
pub use serving::{serve, serve_all};
