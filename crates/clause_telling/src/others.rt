//! Rows by which others are judged.

ghost use Rattle.std.specs.Prelude.{◌≡◌, ◌≤◌, ◌<◌, ◌+◌, ◌^◌, All, IfOk, length, nat_le, reverse};
ghost use Rattle.row_rules.specs.Lines.{IsOfLines};
ghost use Rattle.row_rules.specs.Rows as row_rules;
ghost use Rattle.row_rules.specs.Serving as serving;
ghost use Rattle.row_rules.specs.Ticking as ticking;
ghost use Rattle.check_verdict.specs.Verdicts.{bank_in};
ghost use Rattle.check_telling.specs.Standing.{first_at, mates_of};
ghost use Rattle.clause_telling.specs.Others as others;

use check_telling::facts::{RowAt, at};
use check_telling::grounds::bank_of;
use check_telling::mates::{Numbered, mates};
use check_telling::newest::accepts;
use masked_bytes::layers::lay_over;
use result_rows::Outcome;
use row_rules::{Asks, Row};
use std::alloc::{AllocError, Global};

/// Whether two lines have the same bytes.
fn same_bytes<const B: usize>(bytes: &[u8; B], other: &[u8; B]) -> bool
    ensures { result ≡ serving.same_bytes bytes.now other.now }
{
    *bytes == *other
}

/// Lays the bytes of a row over those of a line, where it is an accepted write of the line.
fn lay<const B: usize>(row: &Row<B>, line: u32, over: &mut [u8; B])
    ensures { over.new ≡ row_rules.lay_row line row.now over.old }
{
    if let Asks::Writes {
        line: at,
        bytes,
        given,
    } = &row.asks
    {
        if *at == line && accepts(&row.outcome) {
            lay_over(bytes, given, over);
        }
    }
}

/// The row at an index, where these are a line's newest bytes before it; else another.
fn stale_or(same: bool, index: usize, tick: u64, found: Option<RowAt>) -> Option<RowAt>
    requires { index < 400_000 }
    ensures { result ≡ others.stale_or same index tick found }
{
    if same {
        Some(RowAt {
            row: index as u32 + 1,
            tick,
        })
    } else {
        found
    }
}

/// The last of these rows, the oldest first, before which a line's newest bytes were these.
pub fn find_stale<const B: usize>(before: &[Row<B>], line: u32, told: &[u8; B]) -> Option<RowAt>
    requires { length before.now ≤ 400_000 }
    ensures { result ≡ others.stale_at told.now line (reverse before.now) }
{
    let mut now = [0; B];
    let mut found = None;
    for (i, row) in before.iter().enumerate() {
        found = stale_or(same_bytes(told, &now), i, row.tick, found);
        lay(row, line, &mut now);
    }
    found
}

/// Whether a tick lies a distance or more below another.
fn is_far(low: u64, distance: u64, high: u64) -> bool
    ensures { result ≡ nat_le (low + distance) high }
{
    low <= high && distance <= high - low
}

/// Whether a row with an outcome lies apart from another with one, the row the lower of the two.
fn is_apart<const B: usize>(read: u32, outcome: &Outcome<B>, other: &Outcome<B>) -> bool
    ensures { result ≡ ticking.apart read outcome.now other.now }
{
    let read = read as u64;
    match (outcome, other) {
        (Outcome::Stored { tick: u, .. }, Outcome::Stored { tick: v, .. }) => {
            is_far(*u, read, *v) || is_far(*v, read, *u)
        }
        (Outcome::Stored { tick: u, .. }, Outcome::Read { tick: v, .. }) => *u != *v,
        (Outcome::Read { tick: u, .. }, Outcome::Stored { tick: v, .. }) => *u != *v,
        (Outcome::Read { tick: u, .. }, Outcome::Read { tick: v, .. }) => is_far(*v, read, *u),
        _ => true,
    }
}

/// The first of these rows from which one with an outcome doesn't lie apart.
fn first_near<const B: usize>(
    past: &[Numbered<B>],
    read: u32,
    outcome: &Outcome<B>,
) -> Option<RowAt>
    ensures { result ≡ first_at (others.is_near read outcome.now) past.now }
{
    for one in past {
        if !is_apart(read, outcome, &one.row.outcome) {
            return Some(at(one));
        }
    }
    None
}

/// The first row of a line's bank, of these, the oldest first, from which a row with an outcome doesn't lie apart.
pub fn find_near<const B: usize>(
    alloc: Global,
    before: &[Row<B>],
    banks: &[u8],
    read: u32,
    line: u32,
    outcome: &Outcome<B>,
) -> Result<Option<RowAt>, AllocError>
    requires small { B ≤ 128 }
    requires few { length before.now ≤ 400_000 }
    requires line { line < length banks.now }
    requires lines { All (λ r. IsOfLines (length banks.now) r.asks) before.now }
    ensures { IfOk result (λ found. found ≡ first_at (others.is_near read outcome.now)
        (mates_of (bank_in banks.now) (bank_in banks.now line) 0 before.now)) }
{
    let bank = bank_of(banks, line);
    let past = mates(alloc, before, 0, banks, bank)?;
    Ok(first_near(&past, read, outcome))
}
