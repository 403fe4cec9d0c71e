//! The laws of a bank whose registers are kept in control lines of its array: these hold what the bank keeps, but for the one
//! change that stands. A law is what a function here ensures; the functions do nothing when they run.
#![tactic(auto)]

ghost use Rattle.register_laws.specs.Changing.{ChangesLaw, PutLaw};
ghost use Rattle.register_laws.specs.Writing.{BegunLaw, IteratedLaw, BrokenLaw};
ghost use Rattle.register_laws.specs.Staying.{QueueLaw, StaysLaw, SlotsLaw, StartLaw};
ghost use Rattle.register_laws.specs.Recovering.{DeterminedLaw};
ghost use Rattle.register_laws.specs.Telling.{ToldBegunLaw, ToldIteratedLaw, ToldLeftLaw, ToldBrokenLaw, ToldPutLaw, ToldStillLaw, ToldAsideLaw};

/// Each event that ends a line write changes the values of one item.
pub fn events_change_one_item()
    ensures { ChangesLaw }
{}

/// Such an event, with its change put in the same step, leaves control lines that hold what the bank then keeps.
pub fn changes_keep_control()
    ensures { PutLaw }
{}

/// So does each call by which the change is written, and a cut of it.
pub fn writing_keeps_control()
    ensures begun { BegunLaw }
    ensures iterated { IteratedLaw }
    ensures broken { BrokenLaw }
{}

/// So does whatever changes the queue and other lines alone.
pub fn other_events_keep_control()
    ensures queue { QueueLaw }
    ensures stays { StaysLaw }
    ensures slots { SlotsLaw }
{}

/// Blank control lines hold what a bank keeps at first.
pub fn blank_lines_hold_the_first_state()
    ensures { StartLaw }
{}

/// The control lines and the change determine what was kept.
pub fn control_lines_determine_what_was_kept()
    ensures { DeterminedLaw }
{}

/// The change that stands, and how far its writing has come, go on to be those that a timed history leaves.
pub fn changes_are_told()
    ensures begun { ToldBegunLaw }
    ensures iterated { ToldIteratedLaw }
    ensures left { ToldLeftLaw }
    ensures broken { ToldBrokenLaw }
    ensures put { ToldPutLaw }
    ensures still { ToldStillLaw }
    ensures aside { ToldAsideLaw }
{}
