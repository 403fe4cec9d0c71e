//! The wear report, the report on array lines, the report of energy, the map and the image of a module over its array: a row for each array
//! line, one for each bank, one for each line, and the bytes of all that both keep. Of the first two the rows of lines that were never pulsed
//! may be left out.
#![tactic(auto)]

mod energy;
mod image;
mod laws;
mod lines;
mod map;
mod pulsed;
mod wear;

pub use energy::print_energy;
pub use image::print_image;
pub use laws::maps_are_told_alike;
pub use lines::print_lines;
pub use map::print_map;
pub use pulsed::{Report, print_pulsed};
pub use wear::print_wear;
