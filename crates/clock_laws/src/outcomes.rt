//! What the events of a call make of the outcomes of all rows, and which rows stand.

ghost use Rattle.clock_laws.specs.Recording.{WholeOutcomeLaw, BothRecordedLaw};
ghost use Rattle.clock_laws.specs.Standing.{ApartLaw, StayApartLaw, OtherRowsLaw, SettledLaw, LostRowsLaw, ArrivalTickLaw};

/// What later events make of the outcomes of a history's rows are the outcomes of the whole history.
pub fn outcomes_are_of_the_whole_history()
    ensures { WholeOutcomeLaw }
{}

/// What the events of two calls make of a row, the one after the other.
pub fn outcomes_follow_each_other()
    ensures { BothRecordedLaw }
{}

/// The rows that stand in a bank's queue and among its waiting reads are below the next row, and all apart.
pub fn standing_rows_are_apart()
    ensures { ApartLaw }
{}

/// Events leave the outcome of each row that neither stood in the queue, nor waited, nor came with them.
pub fn other_outcomes_stay()
    ensures { OtherRowsLaw }
{}

/// Rows that are apart stay so over each step of a bank.
pub fn rows_stay_apart()
    ensures { StayApartLaw }
{}

/// Each row that came, and neither stands in the queue nor waits, has its outcome.
pub fn other_rows_are_settled()
    ensures { SettledLaw }
{}

/// A cut makes lost just the reads that wait at the bank.
pub fn cuts_lose_waiting_reads()
    ensures { LostRowsLaw }
{}

/// The arrival tick of a row is that of its write.
pub fn arrival_ticks_are_of_writes()
    ensures { ArrivalTickLaw }
{}
