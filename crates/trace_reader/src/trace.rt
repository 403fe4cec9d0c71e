//! A whole trace.
ghost use Rattle.std.specs.Prelude.{◌≡◌, ◌≢◌, ◌≤◌, ◌<◌, ◌+◌, ◌-◌, ◌∷◌, ℕ, List, [], vec_len, length, drop, slice_index, Ok, Err, IfOk, IfErr, IfSome};
ghost use Rattle.csv.specs.Reading.{default_config, records};
ghost use Rattle.csv.specs.Records.{fields_of};
ghost use Rattle.trace_reader.specs.Events.{AreEventsFor};
ghost use Rattle.trace_reader.specs.Records.{HasLeft, IsOpen};
ghost use Rattle.trace_reader.specs.Plain.{IsPlainRow, fields_in};
ghost use Rattle.trace_reader.specs.Trace.{after_events, is_header, rows_from, trace_of};

use crate::event::Event;
use crate::fault::{Kind, ParseFault, TraceFault};
use crate::plain::{PlainRow, plain_row, read_plain_row};
use crate::records::{next_row, open};
use crate::row::{field, read_event};
use csv::{ByteRecord, Reader};
use std::alloc::Global;

/// The greatest number of rows behind the header.
pub const MOST_ROWS: u32 = 400_000;

/// Whether a record is the header of a trace.
#[tactic(auto, unfolding(crate::specs::Trace::is_header))]
pub fn is_header_row(row: &ByteRecord) -> bool
    ensures { result ≡ is_header (fields_of row.now) }
{
    row.len() == 4
        && field(row, 0) == b"tick".as_slice()
        && field(row, 1) == b"op".as_slice()
        && field(row, 2) == b"arg".as_slice()
        && field(row, 3) == b"data".as_slice()
}

// Reads the events of the rows from this number on, up to their end or the first fault, behind those that were read.
fn read_rows<const B: usize>(
    reader: &mut Reader<&[u8]>,
    row: &mut ByteRecord,
    lines: u32,
    events: Vec<Event<B>>,
    first: u32,
    tick: u64,
) -> Result<Vec<Event<B>>, ParseFault>
    requires lines { 1 ≤ lines }
    requires small { B ≤ 128 }
    requires open { IsOpen reader.old }
    requires first { 1 ≤ first }
    requires few { vec_len events < first }
    requires most { first ≤ MOST_ROWS + 1 }
    ensures ok { IfOk result (λ v. (rows : List (List (List ℕ))) → HasLeft reader.old rows
        → after_events events.entry.items (rows_from B lines first tick rows) ≡ Ok v.items) }
    ensures rows { IfOk result (λ v. vec_len v ≤ MOST_ROWS) }
    ensures err { IfErr result (λ e. e ≢ ParseFault.NoMemory
        → (rows : List (List (List ℕ))) → HasLeft reader.old rows
        → after_events events.entry.items (rows_from B lines first tick rows) ≡ Err e) }
{
    let mut events = events;
    let mut before = tick;
    'rows: for number in first..MOST_ROWS + 1 {
        if !next_row(reader, row)? {
            return Ok(events);
        }
        let event = match read_event(row, lines, before) {
            Ok(event) => event,
            Err(kind) => return Err(ParseFault::Trace(TraceFault { row: number, kind })),
        };
        before = event.tick;
        if events.push(event).is_err() {
            return Err(ParseFault::NoMemory);
        }
    }
    if next_row(reader, row)? {
        Err(ParseFault::TooMany)
    } else {
        Ok(events)
    }
}

// The same of a text that begins with a line feed.
fn read_rest<const B: usize>(
    alloc: Global,
    text: &[u8],
    lines: u32,
    events: Vec<Event<B>>,
    first: u32,
    tick: u64,
) -> Result<Vec<Event<B>>, ParseFault>
    requires lines { 1 ≤ lines }
    requires small { B ≤ 128 }
    requires first { 1 ≤ first }
    requires few { vec_len events < first }
    requires most { first ≤ MOST_ROWS + 1 }
    ensures ok { IfOk result (λ v. (rest : List ℕ) → text.now ≡ 10 ∷ rest
        → after_events events.entry.items (rows_from B lines first tick
        (records default_config rest)) ≡ Ok v.items) }
    ensures rows { IfOk result (λ v. vec_len v ≤ MOST_ROWS) }
    ensures err { IfErr result (λ e. e ≢ ParseFault.NoMemory
        → (rest : List ℕ) → text.now ≡ 10 ∷ rest
        → after_events events.entry.items (rows_from B lines first tick
        (records default_config rest)) ≡ Err e) }
{
    let mut reader = open(alloc, text);
    let mut row = ByteRecord::new(alloc);
    read_rows(&mut reader, &mut row, lines, events, first, tick)
}

// Reads the events of the rows from one place on, up to their end or the first fault: plain rows by themselves, and all from the first one
// on that isn't plain by `csv`.
fn read_plain<const B: usize>(
    alloc: Global,
    bytes: &[u8],
    from: usize,
    lines: u32,
) -> Result<Vec<Event<B>>, ParseFault>
    requires lines { 1 ≤ lines }
    requires small { B ≤ 128 }
    requires from { (1 ≤ from) × (from ≤ length bytes.now) }
    requires behind { slice_index bytes.now (from - 1) ≡ 10 }
    ensures ok { IfOk result (λ v. rows_from B lines 1 0
        (records default_config (drop from bytes.now)) ≡ Ok v.items) }
    ensures rows { IfOk result (λ v. vec_len v ≤ MOST_ROWS) }
    ensures err { IfErr result (λ e. e ≢ ParseFault.NoMemory
        → rows_from B lines 1 0 (records default_config (drop from bytes.now)) ≡ Err e) }
{
    let mut events = Vec::new(alloc);
    let mut before = 0;
    let mut at = from;
    'rows: for number in 1..MOST_ROWS + 1 {
        let Some(row) = plain_row(bytes, at) else {
            return read_rest(alloc, &bytes[at - 1..], lines, events, number, before);
        };
        let event = match read_plain_row(bytes, at, row, lines, before) {
            Ok(event) => event,
            Err(kind) => return Err(ParseFault::Trace(TraceFault { kind, row: number })),
        };
        before = event.tick;
        at = row.payload + 1;
        if events.push(event).is_err() {
            return Err(ParseFault::NoMemory);
        }
    }
    read_rest(
        alloc,
        &bytes[at - 1..],
        lines,
        events,
        MOST_ROWS + 1,
        before,
    )
}

// Whether four fields are the header of a trace.
#[tactic(auto, using(crate::proofs::PlainRows::header_is))]
fn are_header(tick: &[u8], op: &[u8], line: &[u8], payload: &[u8]) -> bool
    ensures { result ≡ is_header (tick.now ∷ op.now ∷ line.now ∷ payload.now ∷ []) }
{
    tick == b"tick".as_slice()
        && op == b"op".as_slice()
        && line == b"arg".as_slice()
        && payload == b"data".as_slice()
}

// Whether a plain row is the header of a trace.
fn is_plain_header(bytes: &[u8], row: PlainRow) -> bool
    requires { IsPlainRow bytes.now 0 row }
    ensures { result ≡ is_header (fields_in bytes.now 0 row) }
{
    are_header(
        &bytes[0..row.tick],
        &bytes[row.tick + 1..row.op],
        &bytes[row.op + 1..row.line],
        &bytes[row.line + 1..row.payload],
    )
}

// Where the first row ends, if it is a plain header and no byte order mark stands before it.
fn plain_header(bytes: &[u8]) -> Option<usize>
    ensures { IfSome result (λ end. (1 ≤ end) × (end ≤ length bytes.now)
        × (slice_index bytes.now (end - 1) ≡ 10) × ((n lines : ℕ) → trace_of n lines bytes.now
        ≡ rows_from n lines 1 0 (records default_config (drop end bytes.now)))) }
{
    let row = plain_row(bytes, 0)?;
    if bytes[0] != 0xEF && is_plain_header(bytes, row) {
        Some(row.payload + 1)
    } else {
        None
    }
}

// Reads a trace by `csv`.
fn parse_all<const B: usize>(
    alloc: Global,
    bytes: &[u8],
    lines: u32,
) -> Result<Vec<Event<B>>, ParseFault>
    requires lines { 1 ≤ lines }
    requires small { B ≤ 128 }
    ensures ok { IfOk result (λ v. trace_of B lines bytes.now ≡ Ok v.items) }
    ensures rows { IfOk result (λ v. vec_len v ≤ MOST_ROWS) }
    ensures err { IfErr result (λ e. e ≢ ParseFault.NoMemory
        → trace_of B lines bytes.now ≡ Err e) }
{
    let mut reader = open(alloc, bytes);
    let mut row = ByteRecord::new(alloc);
    if !next_row(&mut reader, &mut row)? || !is_header_row(&row) {
        return Err(ParseFault::Trace(TraceFault {
            row: 0,
            kind: Kind::Header,
        }));
    }
    read_rows(&mut reader, &mut row, lines, Vec::new(alloc), 1, 0)
}

/// Reads a trace for a module of so many lines of `B` bytes. The bytes were read to their end where the answer is Ok.
pub fn parse<const B: usize>(
    alloc: Global,
    bytes: &[u8],
    lines: u32,
) -> Result<Vec<Event<B>>, ParseFault>
    requires lines { 1 ≤ lines }
    requires small { B ≤ 128 }
    ensures ok { IfOk result (λ v. trace_of B lines bytes.now ≡ Ok v.items) }
    ensures events { IfOk result (λ v. AreEventsFor lines 0 v.items) }
    ensures rows { IfOk result (λ v. vec_len v ≤ MOST_ROWS) }
    ensures err { IfErr result (λ e. e ≢ ParseFault.NoMemory → trace_of B lines bytes.now ≡ Err e) }
{
    match plain_header(bytes) {
        Some(end) => read_plain(alloc, bytes, end, lines),
        None => parse_all(alloc, bytes, lines),
    }
}
