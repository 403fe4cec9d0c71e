//! What holds of any list of a bank's events.

ghost use Rattle.bank_laws.specs.Bounds.{BoundLaw};
ghost use Rattle.bank_laws.specs.Standing.{RowLaw};
ghost use Rattle.bank_laws.specs.Pairs.{PairLaw};
ghost use Rattle.bank_laws.specs.Settling.{OpenLaw, SetOnceLaw};
ghost use Rattle.bank_laws.specs.Ticks.{TickLaw};

/// The rows that stand in the queue and among the waiting reads are below the next row, and all apart.
pub fn rows_stand_apart()
    ensures { RowLaw }
{}

/// The ticks of a lawful history never fall, and an action ends above every earlier event.
pub fn ticks_rise()
    ensures { TickLaw }
{}

/// A row of a lawful history has no outcome while it stands in the queue or waits, nor before it came.
pub fn standing_rows_are_open()
    ensures { OpenLaw }
{}

/// An outcome of a lawful history is set once, and stays.
pub fn outcomes_stay()
    ensures { SetOnceLaw }
{}

/// After any events that a bank allows, two entries of one line stand in its queue only where the lower one is the head and
/// gives all bytes.
pub fn pairs_are_in_flight()
    ensures { PairLaw }
{}

/// After any events that a bank allows, no more writes stand in its queue, and no more reads wait, than may.
pub fn banks_hold_few()
    ensures { BoundLaw }
{}
