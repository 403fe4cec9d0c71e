//! The laws on the ticks of a bank's rows: what runs at a time, how long a read waits, and when a write is stored. A law is
//! what a function here ensures; the functions do nothing when they run.
#![tactic(auto)]

ghost use Rattle.tick_laws.specs.TickLaws.{ApartLaw, FewCancelsLaw, FewCancelsNowLaw, ReadTimeLaw, StoreTimeLaw, InTimeLaw};

/// Two stored rows lie at least a sense apart, two read rows too and in the order of their rows, and no row is read at the
/// tick of a stored one.
pub fn actions_stand_apart()
    ensures { ApartLaw }
{}

/// A read is read a sense or more after its arrival, and within the time of the reads before it, its own, and what a line
/// write may still take; or it is lost at the first cut, before that time is up.
pub fn reads_wait_little()
    ensures { ReadTimeLaw }
{}

/// A write that is stored is stored after its arrival, and within the time of the line writes, reads and cuts since.
pub fn writes_wait_little()
    ensures { StoreTimeLaw }
{}

/// A read that begins to wait where the present line write may still be cancelled is read by the reads before it and its own, or lost
/// before.
pub fn reads_that_may_cancel_wait_little()
    ensures { FewCancelsLaw }
{}

/// So it is at any tick, whatever the bank has still to do: such a read has ended so, or waits still and has time left.
pub fn reads_that_may_cancel_have_time_left()
    ensures { FewCancelsNowLaw }
{}

/// Each row is read or stored in time, and apart from every row before it.
pub fn rows_are_in_time()
    ensures { InTimeLaw }
{}
