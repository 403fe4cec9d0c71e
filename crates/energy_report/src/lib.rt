//! The counts that the energy of a run is reckoned from: the sums of what an array tells of its lines, their fields in other reports, and a
//! report of their own, with a row for each bank and one for all.
#![tactic(auto)]

mod fields;
mod report;
mod sums;

pub use fields::push_energy;
pub use report::print_energy_report;
pub use sums::sum_energy;
