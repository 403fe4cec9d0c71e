//! What a checker of results may keep of the rows that it has passed, in place of the rows: laws over lists of rows alone.
//! A law is what a function here ensures; the functions do nothing when they run.
#![tactic(auto)]

ghost use Rattle.check_judging.specs.Joining.{JoinLaw};
ghost use Rattle.check_judging.specs.Staying.{RoomStaysLaw, RoomBehindCutLaw};
ghost use Rattle.check_judging.specs.Runs.{CoverLaw};
ghost use Rattle.check_judging.specs.Cutting.{FirstCutLaw, CutsOfBankLaw};
ghost use Rattle.check_judging.specs.Worn.{WornLaw};
ghost use Rattle.check_judging.specs.Coming.{FourthLaw};
ghost use Rattle.check_judging.specs.Distances.{ApartLaw};
ghost use Rattle.check_judging.specs.Heads.{NoneBeforeLaw, FirstLaw};
ghost use Rattle.check_judging.specs.Keys.{IndexLaw, CountLaw};
ghost use Rattle.check_judging.specs.Counting.{FirstByCountLaw, LastByCountLaw};
ghost use Rattle.check_judging.specs.Lost.{WaitingLaw};
ghost use Rattle.check_judging.specs.Standing.{StandLaw};
ghost use Rattle.check_judging.specs.Steps.{SettleLaw, StepLaw};

/// Room stays as time passes, and behind a cut.
pub fn room_stays()
    ensures later { RoomStaysLaw }
    ensures cut { RoomBehindCutLaw }
{}

/// What a write that joins the queue must keep to.
pub fn writes_join_in_order()
    ensures { JoinLaw }
{}

/// The bytes that the queue gives of a line are those of its open run and of those that are still to be stored.
pub fn runs_cover()
    ensures { CoverLaw }
{}

/// What the rules ask of later cuts is told by the first of them, and by how many come in time.
pub fn first_cut_tells()
    ensures first { FirstCutLaw }
    ensures of_bank { CutsOfBankLaw }
{}

/// What the rules ask of worn rows is told by the first of them.
pub fn first_worn_tells()
    ensures { WornLaw }
{}

/// Whether four reads came since a tick is told by the fourth last.
pub fn fourth_last_tells()
    ensures { FourthLaw }
{}

/// How far a row's action lies from those before it is told by the last that is over, and by those still to come.
pub fn last_and_coming_tell()
    ensures { ApartLaw }
{}

/// Whether a write is first to leave the queue is told by the least tick at which one is stored.
pub fn least_end_tells()
    ensures none_before { NoneBeforeLaw }
    ensures first { FirstLaw }
{}

/// Sorted keys tell how many of a bank's rows are stored or read in a span of ticks.
pub fn keys_tell()
    ensures index { IndexLaw }
    ensures count { CountLaw }
{}

/// How the writes that stand and the reads that wait change as time passes, and with each row.
pub fn steps_tell()
    ensures settle { SettleLaw }
    ensures step { StepLaw }
{}

/// Ticks still to come are those of the writes that stand and of the reads that wait.
pub fn standing_tells()
    ensures { StandLaw }
{}

/// The reads that wait are those that are read later, and those that a cut will lose.
pub fn waits_are_counted()
    ensures { WaitingLaw }
{}

/// Counts of stores tell whether a line is first to leave the queue, and whether a bank's last store came by a tick.
pub fn counts_tell()
    ensures first { FirstByCountLaw }
    ensures last { LastByCountLaw }
{}
