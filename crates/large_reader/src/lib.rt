//! The image of a large module, read: bytes are read exactly where they spell a module, and what is read is spelled by them alone.
#![tactic(auto)]

mod image;
mod parts;
mod rows;
mod standing;

pub use image::{LargeImage, LargeRow};
pub use parts::{read_large, size_of_large};
