//! The laws of a bank's log: what the senses show of a lawful history's rows, and of the pulses of its lines. A law is what
//! a function here ensures; the functions do nothing when they run.
#![tactic(auto)]

ghost use Rattle.bank_laws.specs.Whole.{WholeLogLaw};
ghost use Rattle.log_laws.specs.Laws.{ControlsLaw, PulseStepsLaw, SensedLaw, WithinLaw};

/// The first sense of a line carries no pulses, the next at most one more each, an iteration later or broken off by a cut,
/// none behind a bank's wearing out, and the last the line's pulses.
pub fn pulses_are_sensed()
    ensures { PulseStepsLaw }
{}

/// Each row that was stored or read has a sense of its place at its tick, and its cells are read right.
pub fn rows_are_sensed()
    ensures { SensedLaw }
{}

/// Each cut has read every control line, at its tick.
pub fn cuts_read_the_controls()
    ensures { ControlsLaw }
{}

/// Each sense of a lawful history is of a slot, a spare or a control line of its bank.
pub fn senses_are_of_the_bank()
    ensures { WithinLaw }
{}

/// The law of a bank's log: the pulses of its lines and the senses of its rows.
pub fn logs_are_fair()
    ensures { WholeLogLaw }
{}
