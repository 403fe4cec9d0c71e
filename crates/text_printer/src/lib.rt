//! A printer: a text that is gathered in memory and the sink that it goes to, lent for a while. What prints only says which bytes it adds.
//! After a fault nothing is written any more, and whoever prints on needs to know nothing of it: the end tells.
#![tactic(auto)]

mod printer;
mod room;

pub use printer::Printer;
pub use room::{ROW_ROOM, TEXT_ROOM};
