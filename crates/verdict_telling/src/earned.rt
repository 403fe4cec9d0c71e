//! Whether wearing out is earned: a row that is told to be worn has an accepted write of its bank before it.

ghost use Rattle.std.specs.Prelude.{◌≡◌, ◌≤◌, ◌||◌, ◌==◌, ℕ, not, IfOk, IfSome, length};
ghost use Rattle.row_rules.specs.Lines.{IsOfLines};
ghost use Rattle.row_rules.specs.Rows.{line_of};
ghost use Rattle.row_rules.specs.Wearing.{worn_row};
ghost use Rattle.trace_reader.specs.Events.{AreEventsFor};
ghost use Rattle.trace_rows.specs.Rows.{rows_with};
ghost use Rattle.check_verdict.specs.Verdicts.{bank_in};
ghost use Rattle.verdict_telling.specs.Earned as spec;

use crate::row_of;
use check_telling::grounds::bank_of;
use check_telling::newest::accepts;
use result_rows::{Outcome, Results};
use row_rules::{Asks, Row};
use std::alloc::{AllocError, Global};
use trace_reader::Event;

/// Whether a bank is one of these.
fn has_bank(bank: u8, some: &[u8]) -> bool
    ensures { result ≡ spec.has_bank bank some.now }
{
    for one in some {
        if *one == bank {
            return true;
        }
    }
    false
}

/// Whether a row isn't worn, or its bank is one of these.
fn is_earned<const B: usize>(row: &Row<B>, banks: &[u8], some: &[u8]) -> bool
    requires { IsOfLines (length banks.now) row.now.asks }
    ensures { result ≡ (not (worn_row row.now)
        || spec.has_bank (bank_in banks.now (line_of row.now.asks)) some.now) }
{
    match (&row.asks, &row.outcome) {
        (Asks::Writes { line, .. }, Outcome::Worn { .. }) => has_bank(bank_of(banks, *line), some),
        _ => true,
    }
}

/// Adds a bank to these, where it is none of them.
fn add_bank(some: &mut Vec<u8>, bank: u8) -> Result<(), AllocError>
    ensures { IfOk result (λ _. (other : ℕ) → spec.has_bank other some.new.items
        ≡ (bank == other || spec.has_bank other some.old.items)) }
{
    if !has_bank(bank, some.as_slice()) {
        some.push(bank)?;
    }
    Ok(())
}

/// Adds the bank of a row to these, where the row is an accepted write.
fn add_taken<const B: usize>(
    some: &mut Vec<u8>,
    row: &Row<B>,
    banks: &[u8],
) -> Result<(), AllocError>
    requires { IsOfLines (length banks.now) row.now.asks }
    ensures { IfOk result (λ _. (bank : ℕ) → spec.has_bank bank some.new.items
        ≡ (spec.takes banks.now bank row.now || spec.has_bank bank some.old.items)) }
{
    match &row.asks {
        Asks::Writes { line, .. } if accepts(&row.outcome) => {
            add_bank(some, bank_of(banks, *line))
        }
        _ => Ok(()),
    }
}

/// The lowest row that is told to be worn though its bank, where item l of `banks` is that of line l, has accepted no write before it.
pub fn find_unearned<const B: usize>(
    alloc: Global,
    events: &[Event<B>],
    results: &Results<B>,
    banks: &[u8],
) -> Result<Option<u32>, AllocError>
    requires small { B ≤ 128 }
    requires events { AreEventsFor (length banks.now) 0 events.now }
    requires few { length events.now ≤ 400_000 }
    requires rows { length results.now ≡ length events.now }
    ensures exact { IfOk result
        (λ found. found ≡ spec.unearned banks.now (rows_with events.now results.now)) }
    ensures within { IfOk result (λ found. IfSome found
        (λ row. (1 ≤ row) × (row ≤ length events.now))) }
{
    let mut some = Vec::new(alloc);
    for (i, event) in events.iter().enumerate() {
        let number = i as u32 + 1;
        let row = row_of(event, results.get(number));
        if !is_earned(&row, banks, some.as_slice()) {
            return Ok(Some(number));
        }
        add_taken(&mut some, &row, banks)?;
    }
    Ok(None)
}
