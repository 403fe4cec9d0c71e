//! All that a read finds as it comes: by this its right answers are told.

ghost use Rattle.std.specs.Prelude.{◌≡◌, ◌<◌, ◌≤◌, ◌^◌, ◌+◌, ◌||◌, ◌&&◌, length, reverse, take, drop, All, IsTrue, IfOk, IfSome};
ghost use Rattle.std.specs.List.{list_all, list_any};
ghost use Rattle.row_rules.specs.Lines.{IsOfLines};
ghost use Rattle.row_rules.specs.Rows as row_rules;
ghost use Rattle.check_judging.specs.Distances.{ends_above};
ghost use Rattle.check_verdict.specs.Fitting.{all_brief};
ghost use Rattle.check_verdict.specs.Verdicts.{bank_in};
ghost use Rattle.check_verdict.specs.Within.{AreWithin};
ghost use Rattle.check_telling.specs.Grounds.{IsOfBank, TellsRead};
ghost use Rattle.check_telling.specs.Right as right;
ghost use Rattle.check_telling.specs.Standing.{rows_of};
ghost use Rattle.check_telling.specs.Steps.{leaves_later, with_store};

use crate::facts::RowAt;
use crate::mates::{Numbered, mates};
use crate::newest::{Newest, find_newest};
use crate::reads::{ahead, cover, first_cut, has_line, last_read, next_store, stays_later};
use crate::standing::{standing, waiting};
use crate::times::{bound, delay};
use masked_bytes::layers::has_all;
use result_rows::Outcome;
use row_rules::{Row, Rules};
use std::alloc::{AllocError, Global};

/// What a read finds as it comes, and the rows that say so.
#[derive(Drop)]
pub struct Grounds<const B: usize> {
    /// The newest bytes of its line, and which rows gave them.
    pub newest: Newest<B>,
    /// Which bytes of the line the queue gives, and whether it gives each.
    pub given: [bool; B],
    pub covered: bool,
    /// The writes that stand in the bank's queue, and whether the line is at its head.
    pub standing: Vec<Numbered<B>>,
    pub at_head: bool,
    /// Where it is not: the first write that leaves before the next store of the line, if there is one.
    pub ahead: Option<RowAt>,
    /// The reads that wait, and whether they are as many as may.
    pub waiting: Vec<Numbered<B>>,
    pub full: bool,
    /// The first and the last tick at which it may be read; the last has in it how long the bank may be busy with something else
    /// than reads; and the first cut behind it.
    pub from: u64,
    pub by: u64,
    pub delay: u64,
    pub cut: Option<RowAt>,
    /// The ticks above its own at which its bank stores what came before it.
    pub taken: Vec<u64>,
}

/// No sooner than a read takes, and so long behind another one.
fn earliest(read: u32, tick: u64, last: Option<u64>) -> u64
    requires tick { tick < 2 ^ 60 }
    requires last { IfSome last (λ v. v < 2 ^ 60) }
    ensures { result ≡ right.earliest read tick last }
{
    let own = tick + read as u64;
    match last {
        Some(other) => own.max(other + read as u64),
        None => own,
    }
}

/// Adds the tick at which a row is stored, where it is so above another.
fn add_store<const B: usize>(
    found: &mut Vec<u64>,
    tick: u64,
    outcome: &Outcome<B>,
) -> Result<(), AllocError>
    ensures { IfOk result (λ _. found.new.items ≡ with_store tick outcome.now found.old.items) }
{
    match outcome {
        Outcome::Stored { tick: at, .. } if tick < *at => {
            found.push(*at)?;
        }
        _ => {}
    }
    Ok(())
}

/// The ticks above another at which these rows, the oldest first, are stored.
pub fn stores_above<const B: usize>(
    alloc: Global,
    past: &[Numbered<B>],
    tick: u64,
) -> Result<Vec<u64>, AllocError>
    ensures { IfOk result (λ found. found.items
        ≡ reverse (ends_above tick (reverse (rows_of past.now)))) }
{
    let mut found = Vec::new(alloc);
    for one in past {
        add_store(&mut found, tick, &one.row.outcome)?;
    }
    Ok(found)
}

/// Whether each of these writes is of a line, or leaves later than that line's next store.
fn all_leave_later<const B: usize>(standing: &[Numbered<B>], line: u32, next: Option<u64>) -> bool
    ensures { result ≡ list_all (λ q. row_rules.write_of line q || leaves_later next q.outcome)
        (rows_of standing.now) }
{
    for one in standing {
        if !stays_later(&one.row, line, next) {
            return false;
        }
    }
    true
}

/// Whether a line has one of these writes, and none of another line leaves before its next store.
fn is_at_head<const B: usize>(standing: &[Numbered<B>], line: u32, next: Option<u64>) -> bool
    ensures { result ≡ (list_any (row_rules.write_of line) (rows_of standing.now)
        && list_all (λ q. row_rules.write_of line q || leaves_later next q.outcome)
        (rows_of standing.now)) }
{
    has_line(standing, line) && all_leave_later(standing, line, next)
}

/// What a read of a line finds in its bank, by the bank's rows before it and behind it, the oldest first.
fn bank_grounds<const B: usize>(
    alloc: Global,
    newest: Newest<B>,
    past: &[Numbered<B>],
    later: &[Numbered<B>],
    rules: &Rules,
    tick: u64,
    line: u32,
) -> Result<Grounds<B>, AllocError>
    requires small { B ≤ 128 }
    requires few { length past.now ≤ 400_000 }
    requires limits { AreWithin rules.now }
    requires brief { IsTrue (all_brief (rows_of past.now)) }
    requires tick { tick < 2 ^ 50 }
    ensures { IfOk result (λ found. IsOfBank rules.now tick line newest.entry past.now later.now found) }
{
    let given = cover(past, later, line, tick);
    let covered = has_all(&given);
    let stand = standing(alloc, past, tick)?;
    let next = next_store(past, later, line, tick);
    let at_head = is_at_head(&stand, line, next);
    let before_it = ahead(&stand, line, next);
    let wait = waiting(alloc, past, tick)?;
    let waits = wait.len();
    let last = last_read(past);
    let from = earliest(rules.read_ticks, tick, last);
    let busy = delay(rules, tick, past, later);
    let by = bound(rules, tick, waits as u64, past, later);
    let cut = first_cut(later);
    let taken = stores_above(alloc, past, tick)?;
    Ok(Grounds {
        newest,
        given,
        covered,
        standing: stand,
        at_head,
        ahead: before_it,
        waiting: wait,
        full: waits == rules.reads as usize,
        from,
        by,
        delay: busy,
        cut,
        taken,
    })
}

/// The bank of a line.
pub fn bank_of(banks: &[u8], line: u32) -> u8
    requires { line < length banks.now }
    ensures { result ≡ bank_in banks.now line }
{
    banks[line as usize]
}

/// What a read of a line that comes at a tick finds, by the rows before it and behind it, the oldest first.
pub fn find_grounds<const B: usize>(
    alloc: Global,
    before: &[Row<B>],
    after: &[Row<B>],
    banks: &[u8],
    rules: &Rules,
    tick: u64,
    line: u32,
) -> Result<Grounds<B>, AllocError>
    requires small { B ≤ 128 }
    requires few { length before.now + length after.now < 400_000 }
    requires limits { AreWithin rules.now }
    requires line { line < length banks.now }
    requires past { All (λ r. IsOfLines (length banks.now) r.asks) before.now }
    requires later { All (λ r. IsOfLines (length banks.now) r.asks) after.now }
    requires brief { IsTrue (all_brief before.now) }
    requires tick { tick < 2 ^ 50 }
    ensures { IfOk result (λ found. TellsRead rules.now banks.now tick line before.now after.now found) }
{
    let bank = bank_of(banks, line);
    let past = mates(alloc, before, 0, banks, bank)?;
    let later = mates(alloc, after, before.len() as u32 + 1, banks, bank)?;
    let newest = find_newest(before, line);
    bank_grounds(alloc, newest, &past, &later, rules, tick, line)
}
