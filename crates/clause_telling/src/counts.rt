//! What a bank did by the tick at which a write is told to be stored.

ghost use Rattle.std.specs.Prelude.{◌≡◌, ◌≤◌, ◌<◌, ◌+◌, ◌^◌, ◌&&◌, ℕ, List, Bool, All, IfOk, count_by, length, nat_le, reverse};
ghost use Rattle.row_rules.specs.Answers as answers;
ghost use Rattle.row_rules.specs.Lines.{IsOfLines};
ghost use Rattle.row_rules.specs.Rows as row_rules;
ghost use Rattle.result_rows.specs.declared.Outcome.TheVariants as out;
ghost use Rattle.check_verdict.specs.Judged.{a_write};
ghost use Rattle.check_verdict.specs.Within.{AreWithin};
ghost use Rattle.check_telling.specs.Standing.{rows_of};
ghost use Rattle.clause_telling.specs.Counts as counts;

use check_telling::facts::StoreCounts;
use check_telling::grounds::bank_of;
use check_telling::mates::{Numbered, mates};
use check_telling::times::longest;
use result_rows::Outcome;
use row_rules::{Asks, Row, Rules};
use std::alloc::{AllocError, Global};

/// Whether a row is a write that is stored above a tick and by another.
fn is_stored_in<const B: usize>(one: &Numbered<B>, above: u64, to: u64) -> bool
    ensures { result ≡ counts.is_stored_in above to one.now.row }
{
    match (&one.row.asks, &one.row.outcome) {
        (Asks::Writes { .. }, Outcome::Stored { tick, .. }) => above < *tick && *tick <= to,
        _ => false,
    }
}

/// Whether it is a read that is read then.
fn is_read_in<const B: usize>(one: &Numbered<B>, above: u64, to: u64) -> bool
    ensures { result ≡ counts.is_read_in above to one.now.row }
{
    match (&one.row.asks, &one.row.outcome) {
        (Asks::Reads { .. }, Outcome::Read { tick, .. }) => above < *tick && *tick <= to,
        _ => false,
    }
}

/// Whether it is a cut that comes by a tick.
fn is_cut_to<const B: usize>(one: &Numbered<B>, to: u64) -> bool
    ensures { result ≡ counts.is_cut_to to one.now.row }
{
    match &one.row.asks {
        Asks::Cuts => one.row.tick <= to,
        _ => false,
    }
}

/// How many of these rows are stored then.
fn stores_in<const B: usize>(rows: &[Numbered<B>], above: u64, to: u64) -> usize
    ensures { result ≡ count_by (λ one. counts.is_stored_in above to one.row) rows.now }
{
    rows.iter()
        .filter(
            |one: &&Numbered<B>| -> bool
                ensures { result ≡ counts.is_stored_in above to one.now.now.row }
            { is_stored_in(one, above, to) },
        )
        .count()
}

/// How many are read.
fn reads_in<const B: usize>(rows: &[Numbered<B>], above: u64, to: u64) -> usize
    ensures { result ≡ count_by (λ one. counts.is_read_in above to one.row) rows.now }
{
    rows.iter()
        .filter(
            |one: &&Numbered<B>| -> bool
                ensures { result ≡ counts.is_read_in above to one.now.now.row }
            { is_read_in(one, above, to) },
        )
        .count()
}

/// How many are cuts.
fn cuts_to<const B: usize>(rows: &[Numbered<B>], to: u64) -> usize
    ensures { result ≡ count_by (λ one. counts.is_cut_to to one.row) rows.now }
{
    rows.iter()
        .filter(
            |one: &&Numbered<B>| -> bool
                ensures { result ≡ counts.is_cut_to to one.now.now.row }
            { is_cut_to(one, to) },
        )
        .count()
}

/// What a bank did, by its rows before a write and behind it, the oldest first, by a tick at which the write is stored.
fn count<const B: usize>(
    past: &[Numbered<B>],
    later: &[Numbered<B>],
    rules: &Rules,
    tick: u64,
    to: u64,
) -> StoreCounts
    requires within { AreWithin rules.now }
    requires few { length past.now + length later.now < 400_000 }
    requires arrived { tick < 2 ^ 50 }
    requires behind { tick < to }
    ensures { (line place : ℕ) (bytes : List ℕ) (given : List Bool)
        → counts.Counts rules.now (a_write tick line bytes given (out.Stored to place)) to
        (reverse (rows_of past.now)) (rows_of later.now) result }
{
    let stores = stores_in(past, tick, to) + stores_in(later, tick, to) + 1;
    let reads = reads_in(past, tick, to) + reads_in(later, tick, to);
    let cuts = cuts_to(later, to);
    StoreCounts {
        stores: stores as u32,
        reads: reads as u32,
        cuts: cuts as u32,
        latest: tick + longest(rules, stores as u64, reads as u64, cuts as u64),
    }
}

/// What its bank did by the tick at which a write of a line is told to be stored, where it is so behind its own.
pub fn find_counts<const B: usize>(
    alloc: Global,
    before: &[Row<B>],
    after: &[Row<B>],
    banks: &[u8],
    rules: &Rules,
    tick: u64,
    line: u32,
    outcome: &Outcome<B>,
) -> Result<Option<StoreCounts>, AllocError>
    requires small { B ≤ 128 }
    requires few { length before.now + length after.now < 400_000 }
    requires limits { AreWithin rules.now }
    requires line { line < length banks.now }
    requires past { All (λ r. IsOfLines (length banks.now) r.asks) before.now }
    requires later { All (λ r. IsOfLines (length banks.now) r.asks) after.now }
    requires tick { tick < 2 ^ 50 }
    ensures { IfOk result (λ found. counts.TellsCounts rules.now banks.now tick line
        (reverse before.now) after.now outcome.now found) }
{
    match outcome {
        Outcome::Stored { tick: at, .. } if tick < *at => {
            let bank = bank_of(banks, line);
            let past = mates(alloc, before, 0, banks, bank)?;
            let later = mates(alloc, after, before.len() as u32 + 1, banks, bank)?;
            Ok(Some(count(&past, &later, rules, tick, *at)))
        }
        _ => Ok(None),
    }
}
