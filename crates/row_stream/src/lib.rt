//! The rows of a stream, served one after the other: what became of each is told as soon as it is known, and no table is kept.
#![tactic(auto)]

mod answering;
mod drawing;
mod ending;
mod laws;
mod looking;
mod next;
mod reading;
mod serving;
mod stepping;
mod stop;
mod waiting;

pub use drawing::serve_drawn;
pub use ending::end;
pub use laws::{
    a_text_has_one_first_fault, a_text_that_is_read_has_no_fault, each_row_is_told,
    settles_are_no_rows,
};
pub use reading::serve_source;
pub use serving::{serve, serve_event};
pub use stop::{Behind, Stop, behind_asked};
