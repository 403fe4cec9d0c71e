//! The lines of an array whose cells wear out as a seed says, kept by pages: a line takes memory from its first pulse on, and only as much
//! as it needs. Counts of what is done to lines are kept by such pages, too.
#![tactic(auto)]

mod book;
mod first;
mod later;
mod page_table;
mod pages;
mod table;
mod tiers;
mod work;
mod youths;

pub use page_table::PageTable;
pub use pages::Pages;
pub use work::LineWork;
