//! A bank that holds more than it may as a row comes.

ghost use Rattle.std.specs.Prelude.{◌≡◌, ◌≤◌, ◌<◌, ◌&&◌, [], All, IfOk, filter, length, nat_le, reverse};
ghost use Rattle.std.specs.List.{list_all, list_any};
ghost use Rattle.row_rules.specs.Lines.{IsOfLines};
ghost use Rattle.row_rules.specs.Queueing as queueing;
ghost use Rattle.row_rules.specs.Rows as row_rules;
ghost use Rattle.check_telling.specs.Standing.{rows_of};
ghost use Rattle.clause_telling.specs.Rooms as rooms;

use check_telling::facts::{RowAt, at};
use check_telling::grounds::bank_of;
use check_telling::mates::{Numbered, mates};
use check_telling::newest::is_accepted;
use check_telling::standing::{is_merged, line_of, standing, waiting};
use check_telling::writes::leaves_first;
use row_rules::{Asks, Row, Rules};
use std::alloc::{AllocError, Global};

/// What a bank holds as a row comes: more than it may.
#[derive(Drop)]
pub struct Crowd<const B: usize> {
    pub bank: u8,
    /// The writes that stand in its queue, and the reads that wait, each the oldest first.
    pub standing: Vec<Numbered<B>>,
    pub waiting: Vec<Numbered<B>>,
    /// The first write that finds older ones of its line in the queue with which it may not stand: two may only where the older one
    /// came at a lower tick, isn't merged, and leaves first (it was in flight).
    pub newer: Option<RowAt>,
}

/// Whether the older of two entries of one line was in flight as the newer one came.
fn is_older<const B: usize>(newer: &Row<B>, older: &Row<B>, standing: &[Numbered<B>]) -> bool
    ensures { result ≡ queueing.is_older (rows_of standing.now) newer.now older.now }
{
    older.tick < newer.tick && !is_merged(&older.outcome) && leaves_first(older, standing)
}

/// Whether a write is of another line than a newer one, or may stand with it.
fn may_stand<const B: usize>(
    newer: &Row<B>,
    line: u32,
    older: &Row<B>,
    standing: &[Numbered<B>],
) -> bool
    ensures { result ≡ rooms.may_stand (rows_of standing.now) line newer.now older.now }
{
    !is_accepted(older, line) || is_older(newer, older, standing)
}

/// Whether all of these are so.
fn all_may_stand<const B: usize>(
    newer: &Row<B>,
    line: u32,
    earlier: &[Numbered<B>],
    standing: &[Numbered<B>],
) -> bool
    ensures { result ≡ list_all (rooms.may_stand (rows_of standing.now) line newer.now)
        (rows_of earlier.now) }
{
    for one in earlier {
        if !may_stand(newer, line, &one.row, standing) {
            return false;
        }
    }
    true
}

/// Whether one of these rows is an accepted write of a line.
fn some_accepted<const B: usize>(rows: &[Numbered<B>], line: u32) -> bool
    ensures { result ≡ list_any (row_rules.accepted_of line) (rows_of rows.now) }
{
    for one in rows {
        if is_accepted(&one.row, line) {
            return true;
        }
    }
    false
}

/// Whether at most one is.
fn has_one<const B: usize>(rows: &[Numbered<B>], line: u32) -> bool
    ensures { result ≡ rooms.has_one line (rows_of rows.now) }
{
    for (i, one) in rows.iter().enumerate() {
        if is_accepted(&one.row, line) {
            return !some_accepted(&rows[i + 1..], line);
        }
    }
    true
}

/// Whether a write finds none of its line among these, or one that was in flight.
fn has_few<const B: usize>(
    newer: &Row<B>,
    earlier: &[Numbered<B>],
    standing: &[Numbered<B>],
) -> bool
    ensures { result ≡ queueing.has_few (rows_of standing.now) newer.now
        (filter (row_rules.accepted_of (row_rules.line_of newer.now.asks)) (rows_of earlier.now)) }
{
    let line = line_of(&newer.asks);
    has_one(earlier, line) && all_may_stand(newer, line, earlier, standing)
}

/// The first of these writes that finds others of its line before it with which it may not stand.
fn first_crowded<const B: usize>(standing: &[Numbered<B>]) -> Option<RowAt>
    ensures { result ≡ rooms.first_crowded (rows_of standing.now) [] standing.now }
{
    for (i, one) in standing.iter().enumerate() {
        if !has_few(&one.row, &standing[..i], standing) {
            return Some(at(one));
        }
    }
    None
}

/// Whether so many writes and reads are no more than may be, and each write may stand.
fn fits(stands: usize, waits: usize, newer: &Option<RowAt>, rules: &Rules) -> bool
    ensures { result ≡ (nat_le stands rules.now.writes
        && (nat_le waits rules.now.reads && rooms.none_newer newer.now)) }
{
    match newer {
        Some(_) => false,
        None => stands <= rules.writes as usize && waits <= rules.reads as usize,
    }
}

/// Nothing where a bank with these rows, the oldest first, has room as a row comes at a tick; else what it holds.
fn find_crowd<const B: usize>(
    alloc: Global,
    past: &[Numbered<B>],
    bank: u8,
    rules: &Rules,
    tick: u64,
) -> Result<Option<Crowd<B>>, AllocError>
    requires { B ≤ 128 }
    ensures { IfOk result (λ crowd. rooms.IsRoomOf rules.now bank tick (reverse (rows_of past.now)) crowd) }
{
    let stand = standing(alloc, past, tick)?;
    let wait = waiting(alloc, past, tick)?;
    let newer = first_crowded(&stand);
    if fits(stand.len(), wait.len(), &newer, rules) {
        return Ok(None);
    }
    Ok(Some(Crowd {
        bank,
        standing: stand,
        waiting: wait,
        newer,
    }))
}

/// The bank of a read or a write.
fn bank_asked<const B: usize>(asks: &Asks<B>, banks: &[u8]) -> Option<u8>
    requires { IsOfLines (length banks.now) asks.now }
    ensures { result ≡ rooms.bank_asked banks.now asks.now }
{
    match asks {
        Asks::Reads { line } => Some(bank_of(banks, *line)),
        Asks::Writes { line, .. } => Some(bank_of(banks, *line)),
        Asks::Cuts => None,
    }
}

/// The bank of the last of these rows, the oldest first, unless that is a cut.
fn last_bank<const B: usize>(before: &[Row<B>], banks: &[u8]) -> Option<u8>
    requires { All (λ r. IsOfLines (length banks.now) r.asks) before.now }
    ensures { result ≡ rooms.last_bank banks.now (reverse before.now) }
{
    let mut found = None;
    for row in before {
        found = bank_asked(&row.asks, banks);
    }
    found
}

/// Nothing where all banks have room as a row comes at a tick behind these, the oldest first, of which each but it found room;
/// else what the bank holds that has none: it is that of the last of these rows.
pub fn find_room<const B: usize>(
    alloc: Global,
    before: &[Row<B>],
    banks: &[u8],
    rules: &Rules,
    tick: u64,
) -> Result<Option<Crowd<B>>, AllocError>
    requires small { B ≤ 128 }
    requires few { length before.now ≤ 400_000 }
    requires lines { All (λ r. IsOfLines (length banks.now) r.asks) before.now }
    ensures { IfOk result (λ crowd. rooms.TellsRoom rules.now banks.now tick (reverse before.now) crowd) }
{
    match last_bank(before, banks) {
        Some(bank) => {
            let past = mates(alloc, before, 0, banks, bank)?;
            find_crowd(alloc, &past, bank, rules, tick)
        }
        None => Ok(None),
    }
}
