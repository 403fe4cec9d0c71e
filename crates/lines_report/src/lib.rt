//! The report on array lines. Its rows are those of the wear report, and behind each stand what the line's own cells say.
//! `print_lines_row` adds one row of it to a text that is gathered in memory and written piece after piece.
#![tactic(auto)]

mod row;

pub use row::{LineCells, print_lines_header, print_lines_row, push_row};
