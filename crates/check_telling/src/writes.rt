//! What a write finds in its bank as it comes.

ghost use Rattle.std.specs.Prelude.{◌≡◌, ◌≤◌, ◌<◌, ◌+◌, ◌&&◌, ◌==◌, filter, length, nat_lt, reverse, true, All, IfOk};
ghost use Rattle.std.specs.List.{list_all};
ghost use Rattle.row_rules.specs.Lines.{IsOfLines};
ghost use Rattle.row_rules.specs.Queueing as queueing;
ghost use Rattle.row_rules.specs.Rows as row_rules;
ghost use Rattle.row_rules.specs.Wearing as wearing;
ghost use Rattle.check_judging.specs.Distances.{last_end, end_to, waits_above};
ghost use Rattle.check_verdict.specs.Within.{AreWithin};
ghost use Rattle.check_telling.specs.Standing.{first_at, rows_of};
ghost use Rattle.check_telling.specs.Steps as steps;
ghost use Rattle.check_telling.specs.WriteGrounds.{IsWriteOfBank, TellsWrite};

use crate::facts::{RowAt, StoreBound, at};
use crate::grounds::{bank_of, stores_above};
use crate::mates::{Numbered, mates};
use crate::newest::is_accepted;
use crate::reads::{has_line, is_write_of, leaves_later};
use crate::standing::standing;
use crate::times::store_bound;
use result_rows::Outcome;
use row_rules::{Asks, Row, Rules};
use std::alloc::{AllocError, Global};

/// The first of these rows, the oldest first, that is an accepted write of a line: a write merges at no other's tick.
pub fn next_accepted<const B: usize>(later: &[Numbered<B>], line: u32) -> Option<RowAt>
    ensures { result ≡ first_at (row_rules.accepted_of line) later.now }
{
    for one in later {
        if is_accepted(&one.row, line) {
            return Some(at(one));
        }
    }
    None
}

/// Whether a row is a write that was refused, since a worn line had found no spare.
fn is_worn<const B: usize>(row: &Row<B>) -> bool
    ensures { result ≡ wearing.worn_row row.now }
{
    match (&row.asks, &row.outcome) {
        (Asks::Writes { .. }, Outcome::Worn { .. }) => true,
        _ => false,
    }
}

/// The first worn row of these, the oldest first: each later write of the bank is worn, and no write is stored at its tick or later.
pub fn first_worn<const B: usize>(rows: &[Numbered<B>]) -> Option<RowAt>
    ensures { result ≡ first_at wearing.worn_row rows.now }
{
    for one in rows {
        if is_worn(&one.row) {
            return Some(at(one));
        }
    }
    None
}

/// When a write leaves the queue, if it does.
fn leave_of<const B: usize>(outcome: &Outcome<B>) -> Option<u64>
    ensures { result ≡ steps.leave_of outcome.now }
{
    match outcome {
        Outcome::Stored { tick, .. } => Some(*tick),
        Outcome::Merged { tick } => Some(*tick),
        _ => None,
    }
}

/// The first of these writes that is stored before another one leaves the queue, or at all where that never does.
pub fn stored_first<const B: usize>(standing: &[Numbered<B>], outcome: &Outcome<B>) -> Option<RowAt>
    ensures { result ≡ first_at (steps.is_stored_first outcome.now) standing.now }
{
    let leaves = leave_of(outcome);
    for one in standing {
        if !leaves_later(leaves, &one.row.outcome) {
            return Some(at(one));
        }
    }
    None
}

/// Whether none of these writes is stored before one leaves.
pub fn leaves_first<const B: usize>(one: &Row<B>, standing: &[Numbered<B>]) -> bool
    ensures { result ≡ queueing.none_before one.now.outcome (rows_of standing.now) }
{
    match stored_first(standing, &one.outcome) {
        Some(_) => false,
        None => true,
    }
}

/// Whether one of these writes is of another line, or came before a tick and leaves first.
fn is_in_flight<const B: usize>(
    one: &Row<B>,
    standing: &[Numbered<B>],
    tick: u64,
    line: u32,
) -> bool
    ensures { result ≡ steps.is_other_or_first (rows_of standing.now) tick line one.now }
{
    !is_write_of(one, line) || one.tick < tick && leaves_first(one, standing)
}

/// Whether all of these writes are so.
fn all_in_flight<const B: usize>(standing: &[Numbered<B>], tick: u64, line: u32) -> bool
    ensures { result ≡ list_all (steps.is_other_or_first (rows_of standing.now) tick line)
        (rows_of standing.now) }
{
    for one in standing {
        if !is_in_flight(&one.row, standing, tick, line) {
            return false;
        }
    }
    true
}

/// Whether at most one of these writes is of a line.
fn has_one<const B: usize>(standing: &[Numbered<B>], line: u32) -> bool
    ensures { result ≡ steps.has_one line (rows_of standing.now) }
{
    for (i, one) in standing.iter().enumerate() {
        if is_write_of(&one.row, line) {
            return !has_line(&standing[i + 1..], line);
        }
    }
    true
}

/// Whether a write of a line that comes at a tick finds none of its line among these, or one that came before it and leaves first.
pub fn is_alone<const B: usize>(standing: &[Numbered<B>], tick: u64, line: u32) -> bool
    ensures { result ≡ queueing.is_refused tick (rows_of standing.now)
        (filter (row_rules.write_of line) (rows_of standing.now)) }
{
    has_one(standing, line) && all_in_flight(standing, tick, line)
}

/// The later of a tick up to another at which a row is stored, if it is, and a third.
fn end_to<const B: usize>(outcome: &Outcome<B>, to: u64, found: Option<u64>) -> Option<u64>
    ensures { result ≡ end_to to outcome.now found }
{
    match (outcome, found) {
        (Outcome::Stored { tick, .. }, _) if to < *tick => found,
        (Outcome::Stored { tick, .. }, Some(other)) if *tick <= other => Some(other),
        (Outcome::Stored { tick, .. }, _) => Some(*tick),
        _ => found,
    }
}

/// The greatest tick up to another at which one of these rows is stored.
fn last_end<const B: usize>(past: &[Numbered<B>], to: u64) -> Option<u64>
    ensures { result ≡ last_end to (reverse (rows_of past.now)) }
{
    let mut found = None;
    for one in past {
        found = end_to(&one.row.outcome, to, found);
    }
    found
}

/// Adds the tick at which a row is read, where it is so above another.
fn add_read<const B: usize>(
    found: &mut Vec<u64>,
    tick: u64,
    outcome: &Outcome<B>,
) -> Result<(), AllocError>
    ensures { IfOk result (λ _. found.new.items ≡ steps.with_read_at tick outcome.now found.old.items) }
{
    match outcome {
        Outcome::Read { tick: at, .. } if tick < *at => {
            found.push(*at)?;
        }
        _ => {}
    }
    Ok(())
}

/// The ticks above another at which these rows, the oldest first, are read.
fn reads_above<const B: usize>(
    alloc: Global,
    past: &[Numbered<B>],
    tick: u64,
) -> Result<Vec<u64>, AllocError>
    ensures { IfOk result (λ found. found.items
        ≡ reverse (waits_above tick (reverse (rows_of past.now)))) }
{
    let mut found = Vec::new(alloc);
    for one in past {
        add_read(&mut found, tick, &one.row.outcome)?;
    }
    Ok(found)
}

/// What a write finds as it comes, and the rows that say so.
#[derive(Drop)]
pub struct WriteGrounds<const B: usize> {
    /// The writes that stand in the bank's queue, the oldest first, and whether they are as many as it holds.
    pub standing: Vec<Numbered<B>>,
    pub full: bool,
    /// Whether none of them is of its line, or one that came before it and leaves first: only then it may be refused as full.
    pub alone: bool,
    /// The first worn row of the bank before it, and the first one behind it.
    pub worn_before: Option<RowAt>,
    pub worn_behind: Option<RowAt>,
    /// The next accepted write of its line: only at its tick a write is merged.
    pub next: Option<RowAt>,
    /// The last tick up to its own at which a row of the bank before it is stored; those above its own; and those above its own at
    /// which one is read. A write is stored as far from each of the first two as a read takes, and at none of the others.
    pub last_store: Option<u64>,
    pub stores: Vec<u64>,
    pub reads: Vec<u64>,
    /// By when it is stored.
    pub bound: StoreBound,
}

/// What a write of a line finds in its bank, by the bank's rows before it and behind it, the oldest first.
fn bank_write<const B: usize>(
    alloc: Global,
    past: &[Numbered<B>],
    later: &[Numbered<B>],
    rules: &Rules,
    tick: u64,
    line: u32,
) -> Result<WriteGrounds<B>, AllocError>
    requires small { B ≤ 128 }
    requires limits { AreWithin rules.now }
    ensures { IfOk result (λ found. IsWriteOfBank rules.now tick line past.now later.now found) }
{
    let stand = standing(alloc, past, tick)?;
    let stands = stand.len();
    let alone = is_alone(&stand, tick, line);
    let stores = stores_above(alloc, past, tick)?;
    let reads = reads_above(alloc, past, tick)?;
    Ok(WriteGrounds {
        standing: stand,
        full: stands == rules.writes as usize,
        alone,
        worn_before: first_worn(past),
        worn_behind: first_worn(later),
        next: next_accepted(later, line),
        last_store: last_end(past, tick),
        stores,
        reads,
        bound: store_bound(rules),
    })
}

/// What a write of a line that comes at a tick finds, by the rows before it and behind it, the oldest first.
pub fn find_write<const B: usize>(
    alloc: Global,
    before: &[Row<B>],
    after: &[Row<B>],
    banks: &[u8],
    rules: &Rules,
    tick: u64,
    line: u32,
) -> Result<WriteGrounds<B>, AllocError>
    requires small { B ≤ 128 }
    requires few { length before.now + length after.now < 400_000 }
    requires limits { AreWithin rules.now }
    requires line { line < length banks.now }
    requires past { All (λ r. IsOfLines (length banks.now) r.asks) before.now }
    requires later { All (λ r. IsOfLines (length banks.now) r.asks) after.now }
    ensures { IfOk result
        (λ found. TellsWrite rules.now banks.now tick line before.now after.now found) }
{
    let bank = bank_of(banks, line);
    let past = mates(alloc, before, 0, banks, bank)?;
    let later = mates(alloc, after, before.len() as u32 + 1, banks, bank)?;
    bank_write(alloc, &past, &later, rules, tick, line)
}
