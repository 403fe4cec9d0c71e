//! One row of a trace.
ghost use Rattle.std.specs.Prelude.{◌≡◌, ◌≤◌};
ghost use Rattle.std.specs.Option.{ok_or};
ghost use Rattle.csv.specs.Records.{fields_of};
ghost use Rattle.trace_reader.specs.Rows.{text_at, line_digits, line_of, read_of, write_of, mask_of, op_of, row_of, event_of};

use crate::decimal::number;
use crate::event::{Event, EventOp};
use crate::fault::Kind;
use crate::payload::{bytes_from_digits, bytes_from_pairs};
use csv::ByteRecord;

/// The greatest tick of a trace: 2 to the power 40.
pub const LATEST_TICK: u64 = 1_099_511_627_776;

/// The field at an index, empty where there is none.
pub fn field(row: &ByteRecord, index: usize) -> &[u8]
    ensures { result.now ≡ text_at (fields_of row.now) index }
{
    row.get(index).unwrap_or(b"")
}

// How many digits the number of one of so many lines has at most.
fn line_digits(lines: u32) -> usize
    ensures { result ≡ line_digits lines }
{
    if lines <= 100_000 { 5 } else { 8 }
}

#[tactic(auto, using(crate::proofs::Numbers::number_within))]
fn read_line(text: &[u8], lines: u32) -> Result<u32, Kind>
    requires { 1 ≤ lines }
    ensures { result ≡ ok_or (line_of lines text.now) Kind.Line }
{
    let line = number(text, line_digits(lines), u64::from(lines - 1)).ok_or(Kind::Line)?;
    Ok(line as u32)
}

// A read has a line and no payload.
#[inline(always)]
#[tactic(auto, unfolding(crate::specs::Rows::read_of))]
fn plain_read<const B: usize>(line: &[u8], payload: &[u8], lines: u32) -> Result<EventOp<B>, Kind>
    requires { 1 ≤ lines }
    ensures { result ≡ read_of B lines line.now payload.now }
{
    let line = read_line(line, lines)?;
    if payload.is_empty() {
        Ok(EventOp::Read(line))
    } else {
        Err(Kind::Payload)
    }
}

// A write has a line and all its bytes.
#[inline(always)]
#[tactic(auto, unfolding(crate::specs::Rows::write_of))]
fn whole_write<const B: usize>(line: &[u8], payload: &[u8], lines: u32) -> Result<EventOp<B>, Kind>
    requires { 1 ≤ lines }
    ensures { result ≡ write_of B lines line.now payload.now }
{
    let line = read_line(line, lines)?;
    let bytes = bytes_from_digits(payload).ok_or(Kind::Payload)?;
    Ok(EventOp::Write(line, bytes))
}

// A masked write has a line and some of its bytes.
#[tactic(auto, unfolding(crate::specs::Rows::mask_of))]
fn masked_write<const B: usize>(line: &[u8], payload: &[u8], lines: u32) -> Result<EventOp<B>, Kind>
    requires { 1 ≤ lines }
    ensures { result ≡ mask_of B lines line.now payload.now }
{
    let line = read_line(line, lines)?;
    let masked = bytes_from_pairs(payload).ok_or(Kind::Payload)?;
    Ok(EventOp::Mask(line, masked.bytes, masked.given))
}

#[inline(always)]
#[tactic(auto, unfolding(crate::specs::Rows::op_of, crate::specs::Rows::cut_of))]
fn read_op<const B: usize>(
    op: &[u8],
    line: &[u8],
    payload: &[u8],
    lines: u32,
) -> Result<EventOp<B>, Kind>
    requires { 1 ≤ lines }
    ensures { result ≡ op_of B lines op.now line.now payload.now }
{
    match op {
        b"R" => plain_read(line, payload, lines),
        b"W" => whole_write(line, payload, lines),
        b"M" => masked_write(line, payload, lines),
        b"C" => {
            if !line.is_empty() {
                Err(Kind::Line)
            } else if !payload.is_empty() {
                Err(Kind::Payload)
            } else {
                Ok(EventOp::Cut)
            }
        }
        _ => Err(Kind::Op),
    }
}

/// What four fields say as a row of a trace, where the row before has the tick `before`. It is read where its event is to stand: a call
/// would copy that three times.
#[inline(always)]
pub fn read_fields<const B: usize>(
    tick: &[u8],
    op: &[u8],
    line: &[u8],
    payload: &[u8],
    lines: u32,
    before: u64,
) -> Result<Event<B>, Kind>
    requires { 1 ≤ lines }
    ensures { result ≡ row_of B lines before tick.now op.now line.now payload.now }
{
    let tick = number(tick, 13, LATEST_TICK).ok_or(Kind::Tick)?;
    if tick < before {
        return Err(Kind::Order);
    }
    let op = read_op(op, line, payload, lines)?;
    Ok(Event { tick, op })
}

/// What a record says as a row of a trace.
#[tactic(auto, unfolding(crate::specs::Rows::event_of))]
pub fn read_event<const B: usize>(
    row: &ByteRecord,
    lines: u32,
    before: u64,
) -> Result<Event<B>, Kind>
    requires { 1 ≤ lines }
    ensures { result ≡ event_of B lines before (fields_of row.now) }
{
    if row.len() != 4 {
        return Err(Kind::Fields);
    }
    read_fields(
        field(row, 0),
        field(row, 1),
        field(row, 2),
        field(row, 3),
        lines,
        before,
    )
}
