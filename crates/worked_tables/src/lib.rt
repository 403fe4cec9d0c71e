//! Worked tables, histories, ends and runs that the definitions take, and altered ones that they refuse. Each clause is computed from
//! the definitions as it is proved; there is nothing to run.
#![tactic(auto)]

pub mod ends;
pub mod histories;
pub mod judged;
pub mod left_tables;
pub mod lifetimes;
pub mod runs;
pub mod tables;
pub mod verdicts;
pub mod whole_tables;
