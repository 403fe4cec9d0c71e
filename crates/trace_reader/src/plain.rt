//! Rows of plain bytes, which are read without a machine.
ghost use Rattle.std.specs.Prelude.{◌≡◌, ℕ, ◌+◌, ◌-◌, ◌<◌, ◌≤◌, length, slice_index, take, drop, true, IfSome};
ghost use Rattle.std.specs.List.{list_all};
ghost use Rattle.trace_reader.specs.Plain.{fields_in, first_set, is_plain, IsField, IsPlainRow};
ghost use Rattle.trace_reader.specs.Rows.{event_of};

use crate::event::Event;
use crate::fault::Kind;
use crate::row::read_fields;
use std::simd::prelude::*;

// How many bytes go through one step of lanes.
const LANES: usize = 16;

/// Where the four fields of a row end: the first three at a comma, the last at a line feed.
#[derive(Clone, Copy)]
pub struct PlainRow {
    pub tick: usize,
    pub op: usize,
    pub line: usize,
    pub payload: usize,
}

// The place of the lowest bit that is 1, or else the number of lanes.
#[inline(always)]
fn first_set(mask: u64, lanes: usize) -> usize
    ensures { result ≡ first_set mask lanes }
{
    if mask == 0 {
        lanes
    } else {
        mask.trailing_zeros() as usize
    }
}

// How many of the bytes in one step of lanes are plain and come first. All four that aren't are commas or less, and no plain byte of a row
// without faults is.
#[inline(always)]
fn plain_lanes(bytes: &[u8], at: usize) -> usize
    requires { at + LANES ≤ length bytes.now }
    ensures few { result ≤ LANES }
    ensures plain { (k : ℕ) → at ≤ k → k < at + result
        → is_plain (slice_index bytes.now k) ≡ true }
{
    let lanes = u8x16::from_slice(&bytes[at..]);
    first_set(lanes.simd_le(u8x16::splat(b',')).to_bitmask(), LANES)
}

fn is_plain(byte: u8) -> bool
    ensures { result ≡ is_plain byte }
{
    byte != b'"' && byte != b',' && byte != b'\r' && byte != b'\n'
}

/// Behind some bytes the plain ones that come first: where they end.
pub fn plain_end(bytes: &[u8], from: usize) -> usize
    requires { from ≤ length bytes.now }
    ensures from { from ≤ result }
    ensures within { result ≤ length bytes.now }
    ensures plain { (k : ℕ) → from ≤ k → k < result → is_plain (slice_index bytes.now k) ≡ true }
{
    let mut at = from;
    'by_lanes: while bytes.len() - at >= LANES {
        let run = plain_lanes(bytes, at);
        if run < LANES {
            return at + run;
        }
        at += LANES;
    }
    while at < bytes.len() && is_plain(bytes[at]) {
        at += 1;
    }
    at
}

// Where a plain field ends, if it ends at this byte.
fn field_end(bytes: &[u8], from: usize, end: u8) -> Option<usize>
    requires { from ≤ length bytes.now }
    ensures { IfSome result (λ at. IsField bytes.now from at end) }
{
    let at = plain_end(bytes, from);
    if at < bytes.len() && bytes[at] == end {
        Some(at)
    } else {
        None
    }
}

/// The first row, if it has four fields of plain bytes and ends at a line feed.
pub fn plain_row(bytes: &[u8], from: usize) -> Option<PlainRow>
    requires { from ≤ length bytes.now }
    ensures { IfSome result (λ row. IsPlainRow bytes.now from row) }
{
    let tick = field_end(bytes, from, b',')?;
    let op = field_end(bytes, tick + 1, b',')?;
    let line = field_end(bytes, op + 1, b',')?;
    let payload = field_end(bytes, line + 1, b'\n')?;
    Some(PlainRow {
        tick,
        op,
        line,
        payload,
    })
}

/// What a plain row says as a row of a trace.
#[inline(always)]
pub fn read_plain_row<const B: usize>(
    bytes: &[u8],
    from: usize,
    row: PlainRow,
    lines: u32,
    before: u64,
) -> Result<Event<B>, Kind>
    requires lines { 1 ≤ lines }
    requires plain { IsPlainRow bytes.now from row }
    ensures { result ≡ event_of B lines before (fields_in bytes.now from row) }
{
    read_fields(
        &bytes[from..row.tick],
        &bytes[row.tick + 1..row.op],
        &bytes[row.op + 1..row.line],
        &bytes[row.line + 1..row.payload],
        lines,
        before,
    )
}
