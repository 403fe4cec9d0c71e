//! The memory module: banks side by side behind one static randomiser, which serve the rows of a trace.
#![tactic(auto)]

mod bank;
mod bank_roles;
mod finishing;
mod map;
mod newest;
mod roles;
mod settling;
mod side_by_side;
mod taking;

pub use bank_roles::{role_in, used_in};
pub use map::LinePlace;
pub use side_by_side::Module;
