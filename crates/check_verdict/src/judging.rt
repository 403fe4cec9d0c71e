//! A row's rules, by what is kept of its bank.

ghost use Rattle.std.specs.Prelude.{◌≡◌, ◌<◌, ◌^◌, IsTrue};
ghost use Rattle.check_judging.specs.Distances.{is_far_below};
ghost use Rattle.check_judging.specs.Keys.{is_short};
ghost use Rattle.check_verdict.specs.Kept.{apart_kept, ApartKeptLaw, SettleKeptLaw};
ghost use Rattle.check_verdict.specs.Queues.{NumbersLaw};
ghost use Rattle.check_verdict.specs.Judged.{JudgeWriteLaw, JudgeReadLaw, JudgeCutLaw};
ghost use Rattle.check_verdict.specs.VerdictLaws.{WriteVerdictLaw, ReadVerdictLaw};
ghost use Rattle.check_verdict.specs.Passing.{AllRoomLaw, CutRoomLaw, SettleOneLaw, RoomSeenLaw, RowPassesLaw, CutPassedLaw};
ghost use Rattle.check_verdict.specs.States.{StandsLaterLaw, WritePassesLaw, ReadPassesLaw, CutPassesLaw};
ghost use Rattle.check_verdict.specs.Tables.{CountsToldLaw, LineKeysLaw, OwnLaw, DelayLaw, FourLaw};
ghost use Rattle.check_verdict.specs.QueueLaws.{RoomKeptLaw, WriteFitsLaw, ReadFitsLaw};
ghost use Rattle.check_verdict.specs.Joined.{JoinKeptLaw, CutKeptLaw, AnswerKeptLaw, LossKeptLaw, OtherKeptLaw};
ghost use Rattle.check_verdict.specs.Worn.{WornKeptLaw};
ghost use Rattle.check_verdict.specs.Timely.{ReadTimesLaw, WriteTimesLaw};

use crate::members::{Member, all_end_apart, none_ends_at, none_is};
use result_rows::Outcome;

/// The distances of a row from those before it are told by what is kept.
pub fn kept_tells_distances()
    ensures { ApartKeptLaw }
{}

/// Whether the last of some ticks, if there is one, lies a distance below this tick.
fn is_far_below(tick: u64, last: Option<u64>, read: u32) -> bool
    requires { tick < 2 ^ 60 }
    ensures { result ≡ is_far_below read tick last }
{
    match last {
        Some(last) => read as u64 <= tick && last <= tick - read as u64,
        None => true,
    }
}

/// Whether a row's action lies apart from those of the rows before it.
pub fn lies_apart<const B: usize>(
    members: &[Member],
    waits: &[u64],
    last_answer: Option<u64>,
    last_store: Option<u64>,
    read: u32,
    outcome: &Outcome<B>,
) -> bool
    requires { IsTrue (is_short outcome.now) }
    ensures { result ≡ apart_kept read members.now waits.now last_answer last_store outcome.now }
{
    match outcome {
        Outcome::Stored { tick, .. } => {
            is_far_below(*tick, last_store, read)
                && all_end_apart(members, *tick, read)
                && none_is(waits, *tick)
        }
        Outcome::Read { tick, .. } => {
            is_far_below(*tick, last_answer, read) && none_ends_at(members, *tick)
        }
        _ => true,
    }
}

/// The times of a read, and of a write, are told by what is kept.
pub fn kept_tells_times()
    ensures read { ReadTimesLaw }
    ensures write { WriteTimesLaw }
{}

/// What is kept stays so as time passes, once the members and the reads that are over have left.
pub fn kept_settles()
    ensures { SettleKeptLaw }
{}

/// The rule on worn rows is told by whether one stands before a write, and by the first behind it.
pub fn kept_tells_wear()
    ensures { WornKeptLaw }
{}

/// What is kept stays so with one row more: an accepted write, a cut, a read that is read, one that is
/// lost, and any other.
pub fn kept_joins()
    ensures write { JoinKeptLaw }
    ensures cut { CutKeptLaw }
    ensures answer { AnswerKeptLaw }
    ensures loss { LossKeptLaw }
    ensures other { OtherKeptLaw }
{}

/// How many writes stand and how many reads wait is told by what is kept.
pub fn kept_tells_numbers()
    ensures { NumbersLaw }
{}

/// The rule on the queue is told by what is kept: a bank's room, and what follows for a write's and for a read's answer.
pub fn kept_tells_queue()
    ensures room { RoomKeptLaw }
    ensures write { WriteFitsLaw }
    ensures read { ReadFitsLaw }
{}

/// Sorted keys of a whole table tell what comes in a span of ticks around a row, and of which line the next store is.
pub fn table_tells_counts()
    ensures counts { CountsToldLaw }
    ensures lines { LineKeysLaw }
    ensures own { OwnLaw }
{}

/// The last four of the reads that came tell how long a read may find its bank busy.
pub fn kept_tells_delay()
    ensures delay { DelayLaw }
    ensures four { FourLaw }
{}

/// A row's verdict is told by what is kept of its bank and known of the rows behind it.
pub fn kept_tells_verdict()
    ensures write { JudgeWriteLaw }
    ensures read { JudgeReadLaw }
    ensures cut { JudgeCutLaw }
{}

/// All that is kept of a bank stays so as time passes, and behind a write, a read and a cut that break no rule.
pub fn kept_passes()
    ensures later { StandsLaterLaw }
    ensures write { WritePassesLaw }
    ensures read { ReadPassesLaw }
    ensures cut { CutPassesLaw }
{}

/// What is kept of all banks tells whether each has room as a row comes, and stays so as banks are settled and rows pass.
pub fn all_banks_pass()
    ensures room { AllRoomLaw }
    ensures cut_room { CutRoomLaw }
    ensures settle { SettleOneLaw }
    ensures seen { RoomSeenLaw }
    ensures row { RowPassesLaw }
    ensures cut { CutPassedLaw }
{}

/// A row's verdict is told by what is kept of its bank, sorted keys of the whole table, and what is known of later rows.
pub fn keys_tell_verdict()
    ensures write { WriteVerdictLaw }
    ensures read { ReadVerdictLaw }
{}
