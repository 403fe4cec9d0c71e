// The row that writes some bytes of a line, and what its outcome says.
ghost use Rattle.std.specs.Prelude.{◌≡◌, ℕ, ◌<◌, ◌≤◌, IsTrue};
ghost use Rattle.masked_bytes.specs.Masked.{all_given, gives_some};
ghost use Rattle.trace_reader.specs.Events.{IsOpFor};
ghost use Rattle.result_rows.specs.Outcomes.{bytes_of};
ghost use Rattle.row_rules.specs.Answers.{accepts};
ghost use Rattle.bank_laws.specs.Outcomes.{ended};
ghost use Rattle.answered_laws.specs.Answered.{is_open};
ghost use Rattle.disk_lines.specs.Asking.{IsWriteOf};

use masked_bytes::layers::{fill_under, has_all};
use result_rows::Outcome;
use trace_reader::EventOp;

/// The operation that writes those bytes of a line that are given, at least one.
pub(crate) fn write_op<const B: usize>(place: u32, bytes: &[u8; B], given: &[bool; B]) -> EventOp<B>
    requires short { B ≤ 128 }
    requires some { IsTrue (gives_some given.now) }
    ensures lawful { (lines : ℕ) → place < lines → IsOpFor lines result }
    ensures writes { IsWriteOf place bytes.now given.now result }
{
    if has_all(given) {
        return EventOp::Write(place, *bytes);
    }
    let mut filled = *bytes;
    let zeros = [0; B];
    fill_under(&mut filled, given, &zeros);
    EventOp::Mask(place, filled, *given)
}

/// The operation that writes a whole line.
pub(crate) fn whole_op<const B: usize>(place: u32, bytes: &[u8; B]) -> EventOp<B>
    requires short { B ≤ 128 }
    ensures lawful { (lines : ℕ) → place < lines → IsOpFor lines result }
    ensures writes { IsWriteOf place bytes.now (all_given B) result }
{
    EventOp::Write(place, *bytes)
}

/// Whether a write with this outcome, of which maybe nothing is known yet, is accepted.
pub(crate) fn is_accepted<const B: usize>(outcome: &Outcome<B>) -> bool
    requires short { B ≤ 128 }
    ensures { (tick : ℕ) → result ≡ accepts (ended tick outcome.now) }
{
    match outcome {
        Outcome::Unset | Outcome::Stored { .. } | Outcome::Merged { .. } | Outcome::Queued { .. } =>
            true,
        _ => false,
    }
}

/// The bytes of a read with this outcome, where it is answered.
pub(crate) fn answer<const B: usize>(outcome: &Outcome<B>) -> Option<[u8; B]>
    requires short { B ≤ 128 }
    ensures { result ≡ bytes_of outcome.now }
{
    match outcome {
        Outcome::Read { bytes, .. } | Outcome::Forwarded { bytes, .. } => Some(*bytes),
        _ => None,
    }
}

/// Whether nothing became known yet.
pub(crate) fn is_open<const B: usize>(outcome: &Outcome<B>) -> bool
    requires short { B ≤ 128 }
    ensures { result ≡ is_open outcome.now }
{
    match outcome {
        Outcome::Unset => true,
        _ => false,
    }
}
