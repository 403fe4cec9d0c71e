//! The newest bytes of a line, and which rows gave them.

ghost use Rattle.std.specs.Prelude.{◌≡◌, ◌≤◌, if◌then◌else◌, length, replicate, reverse};
ghost use Rattle.masked_bytes.specs.Masked.{laid};
ghost use Rattle.row_rules.specs.Answers as answers;
ghost use Rattle.row_rules.specs.Rows.{lay_row};
ghost use Rattle.row_rules.specs.Rows as spec;
ghost use Rattle.check_telling.specs.Givers.{givers, mark_row};

use masked_bytes::layers::lay_over;
use result_rows::Outcome;
use row_rules::{Asks, Row};

/// Whether a write was accepted.
pub fn accepts<const B: usize>(outcome: &Outcome<B>) -> bool
    ensures { result ≡ answers.accepts outcome.now }
{
    match outcome {
        Outcome::Stored { .. } | Outcome::Merged { .. } | Outcome::Queued { .. } => true,
        _ => false,
    }
}

/// Whether a row is an accepted write of a line.
pub fn is_accepted<const B: usize>(row: &Row<B>, line: u32) -> bool
    ensures { result ≡ spec.accepted_of line row.now }
{
    match row.asks {
        Asks::Writes { line: at, .. } => at == line && accepts(&row.outcome),
        _ => false,
    }
}

/// Another number where it is given, or else that which stands there.
fn picked(given: bool, above: u32, below: u32) -> u32
    ensures { result ≡ (if given then above else below) }
{
    if given { above } else { below }
}

/// Writes the given ones of these numbers over others.
fn lay_numbers<const B: usize>(numbers: &[u32; B], given: &[bool; B], under: &mut [u32; B])
    ensures { under.new ≡ laid numbers.now given.now under.old }
{
    for i in 0..B {
        under[i] = picked(given[i], numbers[i], under[i]);
    }
}

/// The newest bytes of a line, and for each the number of the row that gave it, or 0.
#[derive(Drop)]
pub struct Newest<const B: usize> {
    pub bytes: [u8; B],
    pub givers: [u32; B],
}

/// Lays a row over what stands, where it is an accepted write of the line.
fn lay<const B: usize>(row: &Row<B>, line: u32, number: u32, over: &mut Newest<B>)
    ensures bytes { over.new.bytes ≡ lay_row line row.now over.old.bytes }
    ensures givers { over.new.givers ≡ mark_row line number row.now over.old.givers }
{
    if let Asks::Writes {
        line: at,
        bytes,
        given,
    } = &row.asks
    {
        if *at == line && accepts(&row.outcome) {
            lay_over(bytes, given, &mut over.bytes);
            let numbers = [number; B];
            lay_numbers(&numbers, given, &mut over.givers);
        }
    }
}

/// The newest bytes of a line behind these rows, the oldest first, and by which of them.
pub fn find_newest<const B: usize>(rows: &[Row<B>], line: u32) -> Newest<B>
    requires { length rows.now ≤ 400_000 }
    ensures bytes { result.bytes ≡ spec.newest (reverse rows.now) line }
    ensures givers { result.givers ≡ givers (reverse rows.now) line }
{
    let mut found = Newest {
        bytes: [0; B],
        givers: [0; B],
    };
    for (i, row) in rows.iter().enumerate() {
        lay(row, line, i as u32 + 1, &mut found);
    }
    found
}
