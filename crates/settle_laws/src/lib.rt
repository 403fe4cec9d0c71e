//! What a stream has told by the tick of a row that settles, of any of them: it was told in time, and stays; and of the rows that had come
//! the rest comes from that tick on. And what it has told behind each row, bank by bank. A law is what a function here ensures; the functions do nothing when they run.
#![tactic(auto)]

ghost use Rattle.settle_laws.specs.Marks.{EndedMarkLaw, MarkLaw};
ghost use Rattle.settle_laws.specs.Settles.{SettledLaw, SoFarLaw};
ghost use Rattle.settle_laws.specs.Streams.{BegunStreamLaw, WholeStreamLaw};
ghost use Rattle.settle_laws.specs.Turns.{EndedTurnLaw, TurnLaw};

use pcm_io::Source;

/// Behind each row that settles, what was told by then has a tick up to its own, and is told of that row in the end. A row that had come,
/// and of which nothing was told by then, stays in its write queue or has an outcome of that tick or a later one.
pub fn what_is_told_by_a_settle_stays()
    ensures { SettledLaw }
{}

/// So it is while a stream goes on, of what is known by now.
pub fn what_is_told_by_a_settle_stays_so_far()
    ensures { SoFarLaw }
{}

/// So it is of each stream that a program's call served: to its end, or up to a row.
pub fn streams_settle_for_good<S: Source>()
    ensures whole { WholeStreamLaw S }
    ensures begun { BegunStreamLaw S }
{
    what_is_told_by_a_settle_stays();
    what_is_told_by_a_settle_stays_so_far();
}

/// Behind each row, whatever it asks, what was decided as a row came is told, and of one bank nothing that is told later has an earlier tick.
pub fn outcomes_are_told_in_turn()
    ensures { EndedTurnLaw }
{}

/// So it is while a stream goes on, of what is known by now.
pub fn outcomes_are_told_in_turn_so_far()
    ensures { TurnLaw }
{}

/// Of a bank that a query marks, as exhausted or as halted, nothing is stored any more; and of one that is exhausted no write that comes later is accepted.
pub fn marked_banks_store_nothing()
    ensures ended { EndedMarkLaw }
    ensures so_far { MarkLaw }
{}
