//! One row of results.
ghost use Rattle.std.specs.Prelude.{◌≤◌, ◌↔◌, IsTrue, IfSome, IfNone};
ghost use Rattle.check_reader.specs.ResultRows.{IsRow, IsNoRow};
ghost use Rattle.check_reader.specs.Parts.{HasHead};
ghost use Rattle.check_reader.specs.Fields.{seen};

use crate::fields::{ResultFields, is_same, split_row};
use crate::number::is_number;
use crate::outcome::outcome_of;
use result_rows::{Op, Outcome};

// Whether the first three fields are those of this row.
fn has_head(fields: &ResultFields, row: u32, op: Op, line: u32) -> bool
    ensures { IsTrue result ↔ HasHead row (op, line) (seen fields.now) }
{
    is_number(fields.number, u64::from(row))
        && match op {
            Op::Read => is_same(fields.letter, b"R") && is_number(fields.line, u64::from(line)),
            Op::Write => is_same(fields.letter, b"W") && is_number(fields.line, u64::from(line)),
            Op::Cut => is_same(fields.letter, b"C") && is_same(fields.line, b""),
        }
}

/// The outcome of the row with which the bytes begin, and the bytes behind it, if it is one of this operation and line.
pub fn read_row<const B: usize>(
    row: u32,
    op: Op,
    line: u32,
    bytes: &[u8],
) -> Option<(Outcome<B>, &[u8])>
    requires some_size { 1 ≤ B }
    requires size { B ≤ 128 }
    ensures some { IfSome result (λ found. IsRow row (op, line) bytes.now found.0 found.1.now) }
    ensures none { IfNone result (IsNoRow B row (op, line) bytes.now) }
{
    let fields = split_row(bytes)?;
    if !has_head(&fields, row, op, line) {
        return None;
    }
    let outcome = outcome_of(op, &fields)?;
    Some((outcome, fields.rest))
}
