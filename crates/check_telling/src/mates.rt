//! The rows of a bank, with their numbers.

ghost use Rattle.std.specs.Prelude.{◌≡◌, ◌≤◌, ◌<◌, ◌+◌, length, filter, All, IfOk};
ghost use Rattle.row_rules.specs.Lines.{IsOfLines};
ghost use Rattle.row_rules.specs.Table as table;
ghost use Rattle.check_verdict.specs.Verdicts.{bank_in};
ghost use Rattle.check_telling.specs.Standing.{AreNumbered, mates_of, numbered, rows_of, with_mate};

use row_rules::{Asks, Row};
use std::alloc::{AllocError, Global};

/// A row of a table, with its number from 1.
#[derive(Clone, Copy)]
pub struct Numbered<const B: usize> {
    pub number: u32,
    pub row: Row<B>,
}

/// Whether a row is one of a bank's: a read or a write of its lines, or a cut.
fn is_of<const B: usize>(banks: &[u8], bank: u8, asks: &Asks<B>) -> bool
    requires { IsOfLines (length banks.now) asks.now }
    ensures { result ≡ table.is_of (bank_in banks.now) bank asks.now }
{
    match asks {
        Asks::Reads { line } => banks[*line as usize] == bank,
        Asks::Writes { line, .. } => banks[*line as usize] == bank,
        Asks::Cuts => true,
    }
}

/// Lets a row join those of its bank, where it is one.
fn add_mate<const B: usize>(
    told: &mut Vec<Numbered<B>>,
    banks: &[u8],
    bank: u8,
    number: u32,
    row: &Row<B>,
) -> Result<(), AllocError>
    requires small { B ≤ 128 }
    requires lines { IsOfLines (length banks.now) row.now.asks }
    ensures { IfOk result (λ _. told.new.items
        ≡ with_mate (bank_in banks.now) bank (numbered number row.now) told.old.items) }
{
    if is_of(banks, bank, &row.asks) {
        told.push(Numbered { number, row: *row })?;
    }
    Ok(())
}

/// The rows of a bank among these, of which the first has the number behind this one.
pub fn mates<const B: usize>(
    alloc: Global,
    rows: &[Row<B>],
    above: u32,
    banks: &[u8],
    bank: u8,
) -> Result<Vec<Numbered<B>>, AllocError>
    requires small { B ≤ 128 }
    requires few { above + length rows.now ≤ 400_000 }
    requires lines { All (λ r. IsOfLines (length banks.now) r.asks) rows.now }
    ensures exact { IfOk result (λ told. told.items
        ≡ mates_of (bank_in banks.now) bank above rows.now) }
    ensures rows { IfOk result (λ told. rows_of told.items ≡ table.of_bank (bank_in banks.now) bank rows.now) }
    ensures numbers { IfOk result (λ told. AreNumbered above rows.now told.items) }
{
    let mut told = Vec::new(alloc);
    for (i, row) in rows.iter().enumerate() {
        add_mate(&mut told, banks, bank, above + i as u32 + 1, row)?;
    }
    Ok(told)
}
