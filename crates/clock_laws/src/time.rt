//! The laws of a bank that was just made, and of time that passes in which no event comes.

ghost use Rattle.clock_laws.specs.Passing.{PassingLaw, IdleLaw, EndingLaterLaw};
ghost use Rattle.clock_laws.specs.Fitting.{NeedsLaw, ChosenLaw, RestLaw};
ghost use Rattle.clock_laws.specs.Remaining.{FallingLaw, OneWriteLaw};
ghost use Rattle.clock_laws.specs.Starting.{StartLaw};
ghost use Rattle.clock_laws.specs.Draining.{NoGapLaw, RestingRegistersLaw};

/// No event leads to a bank that was just made.
pub fn banks_start()
    ensures { StartLaw }
{}

/// A history leads to its bank at a later tick too, while the action that runs from now on hasn't ended.
pub fn time_may_pass()
    ensures { PassingLaw }
{}

/// A bank in which no action runs and none is chosen has nothing left to do.
pub fn idle_banks_have_no_work()
    ensures { IdleLaw }
{}

/// The action that runs from now on ends later, where senses and iterations last.
pub fn actions_end_later()
    ensures { EndingLaterLaw }
{}

/// What an action needs is the bank's where no change stands, and else the change's.
pub fn actions_need_one_line_write()
    ensures { NeedsLaw }
{}

/// An action that is chosen has what it needs: a read waits, a line write may be begun, or one is in progress.
pub fn chosen_actions_fit()
    ensures { ChosenLaw }
{}

/// Each action leaves a bank fewer to take, if nothing arrives.
pub fn actions_grow_fewer()
    ensures { FallingLaw }
{}

/// While a change stands, no line write of the bank is in progress.
pub fn one_line_write_is_in_progress()
    ensures { OneWriteLaw }
{}

/// Where no action runs from now on, no read waits, and no line write is in progress or to be begun.
pub fn banks_rest()
    ensures { RestLaw }
{}

/// Where nothing comes, each action begins at the tick at which the one before it ended: so the last event comes as many ticks
/// after the begin of the action that runs from now on as all of them last.
pub fn actions_follow_without_a_gap()
    ensures { NoGapLaw }
{}

/// Where no action runs from now on, each region's registers stand for one move for each so many of its stores; or for one less,
/// where one more move is due, and the bank is worn out or a control line is worn.
pub fn resting_registers_follow_stores()
    ensures { RestingRegistersLaw }
{}
