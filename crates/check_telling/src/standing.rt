//! Which writes stand in a bank's queue at a tick, and which reads wait there.

ghost use Rattle.std.specs.Prelude.{◌≡◌, ◌≤◌, reverse, filter, List, IfOk, ℕ, []};
ghost use Rattle.row_rules.specs.Answers as answers;
ghost use Rattle.row_rules.specs.Queueing as queueing;
ghost use Rattle.row_rules.specs.Rows as row_rules;
ghost use Rattle.row_rules.specs.declared.Row.{Row};
ghost use Rattle.check_judging.specs.Steps as steps;
ghost use Rattle.check_telling.specs.Standing as spec;
ghost use Rattle.check_telling.specs.Standing.{AreNumbered, rows_of};

use crate::mates::Numbered;
use crate::newest::is_accepted;
use result_rows::Outcome;
use row_rules::{Asks, Row};
use std::alloc::{AllocError, Global};

/// The line of a read or a write.
pub fn line_of<const B: usize>(asks: &Asks<B>) -> u32
    ensures { result ≡ row_rules.line_of asks.now }
{
    match asks {
        Asks::Reads { line } => *line,
        Asks::Writes { line, .. } => *line,
        Asks::Cuts => 0,
    }
}

/// Whether a row is an accepted write that stands in the queue at a tick, where no row has come since.
fn stands<const B: usize>(tick: u64, row: &Row<B>) -> bool
    ensures { result ≡ queueing.stands tick [] row.now }
{
    match (&row.asks, &row.outcome) {
        (Asks::Writes { .. }, Outcome::Stored { tick: at, .. }) => tick < *at,
        (Asks::Writes { .. }, Outcome::Merged { .. } | Outcome::Queued { .. }) => true,
        _ => false,
    }
}

/// Whether a row is a read that waits at a tick, where no row has come since.
fn awaits<const B: usize>(tick: u64, row: &Row<B>) -> bool
    ensures { result ≡ queueing.awaits tick [] row.now }
{
    match (&row.asks, &row.outcome) {
        (Asks::Reads { .. }, Outcome::Read { tick: at, .. }) => tick < *at,
        (Asks::Reads { .. }, Outcome::Lost { .. }) => true,
        _ => false,
    }
}

/// Whether a write is told to be merged.
pub fn is_merged<const B: usize>(outcome: &Outcome<B>) -> bool
    ensures { result ≡ answers.is_merged outcome.now }
{
    matches!(outcome, Outcome::Merged { .. })
}

fn is_lost<const B: usize>(outcome: &Outcome<B>) -> bool
    ensures { result ≡ answers.is_lost outcome.now }
{
    matches!(outcome, Outcome::Lost { .. })
}

/// Whether a row is a cut.
pub fn is_cut<const B: usize>(row: &Row<B>) -> bool
    ensures { result ≡ row_rules.is_cut row.now }
{
    matches!(row.asks, Asks::Cuts)
}

/// Whether a write stays in the queue behind another row: it isn't merged into it.
fn stays_behind<const B: usize>(row: &Row<B>, other: &Row<B>) -> bool
    ensures { result ≡ steps.stays_behind row.now other.now }
{
    !(is_merged(&other.outcome) && is_accepted(row, line_of(&other.asks)))
}

/// Whether a read still waits behind another row: it isn't lost with it.
fn waits_behind<const B: usize>(row: &Row<B>, other: &Row<B>) -> bool
    ensures { result ≡ steps.waits_behind row.now other.now }
{
    !(is_lost(&other.outcome) && is_cut(row))
}

/// Lets those leave that are merged into a row.
fn let_merge<const B: usize>(told: &mut Vec<Numbered<B>>, row: &Row<B>)
    ensures { told.new.items ≡ filter (λ one. steps.stays_behind row.now one.row) told.old.items }
{
    told.retain(
        |one: &Numbered<B>| -> bool
            ensures { result ≡ steps.stays_behind row.entry.now one.now.row }
        { stays_behind(row, &one.row) },
    );
}

/// Lets those leave that are lost with a row.
fn let_lose<const B: usize>(told: &mut Vec<Numbered<B>>, row: &Row<B>)
    ensures { told.new.items ≡ filter (λ one. steps.waits_behind row.now one.row) told.old.items }
{
    told.retain(
        |one: &Numbered<B>| -> bool
            ensures { result ≡ steps.waits_behind row.entry.now one.now.row }
        { waits_behind(row, &one.row) },
    );
}

/// Lets a row come to the writes that stand.
fn add_write<const B: usize>(
    told: &mut Vec<Numbered<B>>,
    tick: u64,
    new: &Numbered<B>,
) -> Result<(), AllocError>
    requires { B ≤ 128 }
    ensures { IfOk result (λ _. told.new.items ≡ spec.with_write tick new.now told.old.items) }
{
    let_merge(told, &new.row);
    if stands(tick, &new.row) {
        told.push(*new)?;
    }
    Ok(())
}

/// Lets a row come to the reads that wait.
fn add_read<const B: usize>(
    told: &mut Vec<Numbered<B>>,
    tick: u64,
    new: &Numbered<B>,
) -> Result<(), AllocError>
    requires { B ≤ 128 }
    ensures { IfOk result (λ _. told.new.items ≡ spec.with_read tick new.now told.old.items) }
{
    let_lose(told, &new.row);
    if awaits(tick, &new.row) {
        told.push(*new)?;
    }
    Ok(())
}

/// The writes of a bank's rows, the oldest first, that stand in its queue at a tick.
pub fn standing<const B: usize>(
    alloc: Global,
    past: &[Numbered<B>],
    tick: u64,
) -> Result<Vec<Numbered<B>>, AllocError>
    requires { B ≤ 128 }
    ensures rows { IfOk result (λ told. rows_of told.items ≡ reverse (queueing.pending tick [] (reverse (rows_of past.now)))) }
    ensures numbers { (above : ℕ) (table : List (Row B)) → AreNumbered above table past.now
        → IfOk result (λ told. AreNumbered above table told.items) }
{
    let mut told = Vec::new(alloc);
    for one in past {
        add_write(&mut told, tick, one)?;
    }
    Ok(told)
}

/// The reads of a bank's rows, the oldest first, that wait at a tick.
pub fn waiting<const B: usize>(
    alloc: Global,
    past: &[Numbered<B>],
    tick: u64,
) -> Result<Vec<Numbered<B>>, AllocError>
    requires { B ≤ 128 }
    ensures rows { IfOk result (λ told. rows_of told.items ≡ reverse (queueing.waiting tick [] (reverse (rows_of past.now)))) }
    ensures numbers { (above : ℕ) (table : List (Row B)) → AreNumbered above table past.now
        → IfOk result (λ told. AreNumbered above table told.items) }
{
    let mut told = Vec::new(alloc);
    for one in past {
        add_read(&mut told, tick, one)?;
    }
    Ok(told)
}
