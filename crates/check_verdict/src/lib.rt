//! Whether the results of a run are ones that a module may give: a verdict over the rows of a trace and their outcomes, the
//! bank of each line, and the rules. No queue and no array is known here.
#![tactic(auto)]

ghost use Rattle.check_verdict.specs.Judging.{VerdictLaw};

pub mod bank;
pub mod judge;
mod judging;
pub mod keys;
pub mod known;
pub mod lines;
pub mod members;
pub mod queue;
mod reads;
mod serving;
pub mod settling;
mod timing;
mod wearing;

/// What a row may break.
#[derive(Clone, Copy, PartialEq)]
pub enum Rule {
    /// A row has an outcome of its operation, and a read that is answered has the newest bytes.
    Serves,
    /// What the write queue and the waiting reads hold, and what follows for a row's answer.
    Queue,
    /// No write is accepted behind a worn row, and none is stored at its tick or later.
    Worn,
    /// When a row is read or stored, or lost.
    Tick,
}

/// Whether each row keeps each rule.
#[derive(Clone, Copy, PartialEq)]
pub enum Verdict {
    /// It does.
    Yes,
    /// This row is the lowest that breaks a rule, and this is the first rule that it breaks.
    No { row: u32, rule: Rule },
}

/// Yes comes exactly where each row keeps each rule, and No names the lowest row that doesn't and the first rule that it breaks.
pub fn verdicts_are_exact()
    ensures { VerdictLaw }
{}
