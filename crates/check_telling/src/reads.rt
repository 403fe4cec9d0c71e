//! What a read finds in its bank as it comes.

ghost use Rattle.std.specs.Prelude.{◌≡◌, ◌&&◌, ◌||◌, ◌++◌, reverse};
ghost use Rattle.std.specs.List.{list_any};
ghost use Rattle.masked_bytes.specs.Masked.{none_given};
ghost use Rattle.row_rules.specs.Answers as answers;
ghost use Rattle.row_rules.specs.Queueing as queueing;
ghost use Rattle.row_rules.specs.Rows as row_rules;
ghost use Rattle.check_judging.specs.Distances.{last_read, read_to};
ghost use Rattle.check_telling.specs.Standing.{first_at, rows_of};
ghost use Rattle.check_telling.specs.Steps.{with_given, is_ahead, leaves_later};

use crate::facts::{RowAt, at};
use crate::mates::Numbered;
use crate::newest::accepts;
use crate::standing::is_cut;
use masked_bytes::layers::join_given;
use result_rows::Outcome;
use row_rules::{Asks, Row};

/// The first cut among these rows, the oldest first.
pub fn first_cut<const B: usize>(later: &[Numbered<B>]) -> Option<RowAt>
    ensures { result ≡ first_at row_rules.is_cut later.now }
{
    for one in later {
        if is_cut(&one.row) {
            return Some(at(one));
        }
    }
    None
}

/// Whether a row is a write of a line that is stored by a tick.
fn is_stored_by<const B: usize>(row: &Row<B>, line: u32, tick: u64) -> bool
    ensures { result
        ≡ (row_rules.write_of line row.now && answers.stored_by tick row.now.outcome) }
{
    match (&row.asks, &row.outcome) {
        (Asks::Writes { line: at, .. }, Outcome::Stored { tick: stored, .. }) => {
            *at == line && *stored <= tick
        }
        _ => false,
    }
}

/// Lets a row come to the bytes of a line that the queue gives at a tick.
fn add_given<const B: usize>(row: &Row<B>, line: u32, tick: u64, found: &mut [bool; B])
    ensures { found.new ≡ with_given tick line row.now found.old }
{
    if is_stored_by(row, line, tick) {
        let none = [false; B];
        *found = none;
    } else if let Asks::Writes {
        line: at,
        given,
        ..
    } = &row.asks
    {
        if *at == line && accepts(&row.outcome) {
            join_given(given, found);
        }
    }
}

/// The bytes of a line that the accepted writes of these rows, the oldest first, give for which neither that write nor a later one
/// is stored by a tick.
fn unstored<const B: usize>(past: &[Numbered<B>], line: u32, tick: u64) -> [bool; B]
    ensures { result
        ≡ queueing.unstored (answers.stored_by tick) line (reverse (rows_of past.now)) }
{
    let mut found = [false; B];
    for one in past {
        add_given(&one.row, line, tick, &mut found);
    }
    found
}

/// Whether one of these rows is a write of a line that is stored by a tick.
fn some_stored_by<const B: usize>(later: &[Numbered<B>], line: u32, tick: u64) -> bool
    ensures { result ≡ list_any (λ q. row_rules.write_of line q && answers.stored_by tick q.outcome)
        (rows_of later.now) }
{
    for one in later {
        if is_stored_by(&one.row, line, tick) {
            return true;
        }
    }
    false
}

/// The bytes of a line that the queue gives to a row at a tick, by those before it and those behind it, the oldest first.
pub fn cover<const B: usize>(
    past: &[Numbered<B>],
    later: &[Numbered<B>],
    line: u32,
    tick: u64,
) -> [bool; B]
    ensures { result
        ≡ queueing.cover tick line (reverse (rows_of past.now)) (rows_of later.now) }
{
    if some_stored_by(later, line, tick) {
        [false; B]
    } else {
        unstored(past, line, tick)
    }
}

/// The later of a tick at which a row is read, if it is, and another.
fn read_to<const B: usize>(outcome: &Outcome<B>, found: Option<u64>) -> Option<u64>
    ensures { result ≡ read_to outcome.now found }
{
    match (outcome, found) {
        (Outcome::Read { tick, .. }, Some(other)) if *tick <= other => Some(other),
        (Outcome::Read { tick, .. }, _) => Some(*tick),
        _ => found,
    }
}

/// The greatest tick at which one of these rows is read.
pub fn last_read<const B: usize>(past: &[Numbered<B>]) -> Option<u64>
    ensures { result ≡ last_read (reverse (rows_of past.now)) }
{
    let mut found = None;
    for one in past {
        found = read_to(&one.row.outcome, found);
    }
    found
}

/// The lesser of a tick at which a write of a line is stored above another tick, if it is, and a third.
fn store_to<const B: usize>(row: &Row<B>, line: u32, above: u64, found: Option<u64>) -> Option<u64>
    ensures { result ≡ queueing.store_of above line row.now row.now.outcome found }
{
    match (&row.asks, &row.outcome) {
        (Asks::Writes { line: at, .. }, Outcome::Stored { tick, .. })
            if *at == line && above < *tick => {
            match found {
                Some(other) => Some(other.min(*tick)),
                None => Some(*tick),
            }
        }
        _ => found,
    }
}

/// The least tick above another at which a write of a line among these rows, the oldest first, is stored.
fn next_store_behind<const B: usize>(later: &[Numbered<B>], line: u32, above: u64) -> Option<u64>
    ensures { result ≡ queueing.next_store above line (rows_of later.now) }
{
    let mut found = None;
    for index in (0..later.len()).rev() {
        found = store_to(&later[index].row, line, above, found);
    }
    found
}

/// The least tick above another at which a write of a line is stored, of rows before a row and behind it, the oldest first.
pub fn next_store<const B: usize>(
    past: &[Numbered<B>],
    later: &[Numbered<B>],
    line: u32,
    above: u64,
) -> Option<u64>
    ensures { result
        ≡ queueing.next_store above line (reverse (rows_of past.now) ++ rows_of later.now) }
{
    let mut found = next_store_behind(later, line, above);
    for one in past {
        found = store_to(&one.row, line, above, found);
    }
    found
}

/// Whether a row is a write of a line.
pub fn is_write_of<const B: usize>(row: &Row<B>, line: u32) -> bool
    ensures { result ≡ row_rules.write_of line row.now }
{
    match &row.asks {
        Asks::Writes { line: at, .. } => *at == line,
        _ => false,
    }
}

/// Whether a write is not stored before a tick, or not at all where there is none.
pub fn leaves_later<const B: usize>(next: Option<u64>, outcome: &Outcome<B>) -> bool
    ensures { result ≡ leaves_later next outcome.now }
{
    match (outcome, next) {
        (Outcome::Stored { tick, .. }, Some(next)) => next <= *tick,
        (Outcome::Stored { .. }, None) => false,
        _ => true,
    }
}

/// Whether a write is of a line, or leaves later than that line's next store.
pub fn stays_later<const B: usize>(row: &Row<B>, line: u32, next: Option<u64>) -> bool
    ensures { result ≡ (row_rules.write_of line row.now || leaves_later next row.now.outcome) }
{
    is_write_of(row, line) || leaves_later(next, &row.outcome)
}

/// Whether one of these writes is of a line.
pub fn has_line<const B: usize>(standing: &[Numbered<B>], line: u32) -> bool
    ensures { result ≡ list_any (row_rules.write_of line) (rows_of standing.now) }
{
    for one in standing {
        if is_write_of(&one.row, line) {
            return true;
        }
    }
    false
}

/// The first of these writes that is of another line and leaves before a line's next store, or at all where that has none.
pub fn ahead<const B: usize>(
    standing: &[Numbered<B>],
    line: u32,
    next: Option<u64>,
) -> Option<RowAt>
    ensures { result ≡ first_at (is_ahead line next) standing.now }
{
    for one in standing {
        if !stays_later(&one.row, line, next) {
            return Some(at(one));
        }
    }
    None
}
