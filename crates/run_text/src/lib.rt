//! How a finished run is printed: its results, its summary or its wear report. The text is gathered in memory that was
//! reserved before, and is written to a sink whenever the next row might not fit, and at the end. A summary counts how many rows
//! had each outcome, how many spares are in use, and how often the array was pulsed.
#![tactic(auto)]

mod counts;
mod laws;
mod pulses;
mod results;
mod roles;
mod room;
mod shortfall;
mod summary;
mod wear;

pub use counts::OutcomeCounts;
pub use laws::{each_row_is_counted_once, short_rows_are_counted};
pub use pulses::{add_pulses, sum_pulses};
pub use results::print_results;
pub use roles::{print_role, push_role, wear_header};
pub use room::{make_room, print_rest};
pub use shortfall::{any_short, is_short};
pub use summary::{print_counts, print_summary};
pub use wear::{print_wear_header, print_wear_row};
