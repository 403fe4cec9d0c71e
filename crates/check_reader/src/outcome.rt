//! The outcome that the last four fields of a row show.
ghost use Rattle.std.specs.Prelude.{◌≤◌, IfSome, IfNone};
ghost use Rattle.result_rows.specs.declared.Outcome.{Outcome};
ghost use Rattle.check_reader.specs.ResultRows.{MayStand};
ghost use Rattle.check_reader.specs.Fields.{seen};
ghost use Rattle.check_reader.specs.Parts.{HasParts, Shows};

use crate::digits::read_digits;
use crate::fields::{ResultFields, is_same};
use crate::number::{read_number, read_place};
use result_rows::{Op, Outcome};

/// The greatest number of 15 digits.
const LAST_TICK: u64 = 999_999_999_999_999;

// The outcome of a write with this word, tick and place.
fn write_outcome<const B: usize>(word: &[u8], tick: u64, place: Option<u32>) -> Option<Outcome<B>>
    ensures some { IfSome result (λ o. HasParts Op.Write word.now tick place None o) }
    ensures none { IfNone result ((o : Outcome B)
        → ¬ HasParts Op.Write word.now tick place None o) }
{
    match place {
        Some(place) if is_same(word, b"stored") => Some(Outcome::Stored { tick, place }),
        None if is_same(word, b"merged") => Some(Outcome::Merged { tick }),
        None if is_same(word, b"queued") => Some(Outcome::Queued { tick }),
        None if is_same(word, b"full") => Some(Outcome::Full { tick }),
        None if is_same(word, b"worn") => Some(Outcome::Worn { tick }),
        _ => None,
    }
}

// The outcome of a read with this word, tick, place and bytes.
fn read_outcome<const B: usize>(
    word: &[u8],
    tick: u64,
    place: Option<u32>,
    bytes: Option<[u8; B]>,
) -> Option<Outcome<B>>
    ensures some { IfSome result (λ o. HasParts Op.Read word.now tick place bytes.entry o) }
    ensures none { IfNone result ((o : Outcome B)
        → ¬ HasParts Op.Read word.now tick place bytes.entry o) }
{
    match (place, bytes) {
        (Some(place), Some(bytes)) if is_same(word, b"read") => Some(Outcome::Read {
            tick,
            place,
            bytes,
        }),
        (None, Some(bytes)) if is_same(word, b"forwarded") => Some(Outcome::Forwarded {
            tick,
            bytes,
        }),
        (None, None) if is_same(word, b"busy") => Some(Outcome::Busy { tick }),
        (None, None) if is_same(word, b"lost") => Some(Outcome::Lost { tick }),
        _ => None,
    }
}

// The outcome of this operation with this word, tick, place and bytes.
fn outcome_with<const B: usize>(
    op: Op,
    word: &[u8],
    tick: u64,
    place: Option<u32>,
    bytes: Option<[u8; B]>,
) -> Option<Outcome<B>>
    ensures some { IfSome result (λ o. HasParts op word.now tick place bytes.entry o) }
    ensures none { IfNone result ((o : Outcome B)
        → ¬ HasParts op word.now tick place bytes.entry o) }
{
    match (op, bytes) {
        (Op::Write, None) => write_outcome(word, tick, place),
        (Op::Read, bytes) => read_outcome(word, tick, place, bytes),
        (Op::Cut, None) if is_same(word, b"cut") && place.is_none() => Some(Outcome::Cut { tick }),
        _ => None,
    }
}

/// The outcome that the last four fields show, of a row of this operation.
pub fn outcome_of<const B: usize>(op: Op, fields: &ResultFields) -> Option<Outcome<B>>
    requires some_size { 1 ≤ B }
    requires size { B ≤ 128 }
    ensures some { IfSome result (λ o. MayStand op o × Shows (seen fields.now) o) }
    ensures none { IfNone result ((o : Outcome B) → MayStand op o → ¬ Shows (seen fields.now) o) }
{
    let tick = read_number(fields.tick, LAST_TICK)?;
    let place = read_place(fields.place)?;
    let bytes = read_digits(fields.digits)?;
    outcome_with(op, fields.word, tick, place, bytes)
}
