//! What the rows of a streamed trace ask for.
ghost use Rattle.std.specs.Prelude.{◌≡◌, ◌<◌, ◌≤◌};
ghost use Rattle.trace_reader.specs.Rows.{event_of};
ghost use Rattle.trace_reader.specs.Trace.{is_header};
ghost use Rattle.trace_stream.specs.Asked.{any_of, asked_of, is_any, is_event_word, is_look, is_peek, is_query, is_settle, is_settle_word, is_until, peek_of, row_of, rows_after, settle_of, settled_of, tick_asked, tick_named, until_of};

use crate::kept::Gathered;
use trace_reader::{Event, EventOp, Kind, LATEST_TICK, number, read_fields};

/// What one row of a streamed trace asks for.
#[derive(Clone, Copy, PartialEq)]
pub enum Asked<const B: usize> {
    /// This happens. The row has a number.
    Happens(Event<B>),
    /// Every bank comes to this tick. The row has no number.
    Settle(u64),
    /// Every bank comes to this tick, and what waits in each then is asked. The row has no number.
    Query(u64),
    /// Every bank comes to this tick, and how worn the module is then is asked. The row has no number.
    Look(u64),
    /// Every bank comes to a tick, and the newest bytes of a line are asked. The row has no number.
    Peek(Peek),
    /// Every bank goes on until a row has its outcome. The row has no number.
    Until(Until),
    /// Every bank goes on until any row has its outcome. The row has no number.
    UntilAny(UntilAny),
}

/// A peek: the newest bytes of a line are asked, for which nothing is sensed.
#[derive(Clone, Copy, PartialEq)]
pub struct Peek {
    /// The tick to which every bank comes.
    pub tick: u64,
    /// The line, from 0.
    pub line: u32,
}

/// A settle until a row has its outcome: the module goes on to the first tick behind which it has, not before the one at which it stands.
#[derive(Clone, Copy, PartialEq)]
pub struct Until {
    /// The number of the row that is waited for, from 1.
    pub row: u32,
    /// The tick behind which the module doesn't go: that of the row that asks.
    pub limit: u64,
    /// The tick that was reached; of a row that isn't served yet, the tick of the row before it.
    pub reached: u64,
}

/// A settle until any row has its outcome that had none: the module goes on to the first tick behind which one has, not before the one at which
/// it stands.
#[derive(Clone, Copy, PartialEq)]
pub struct UntilAny {
    /// The tick behind which the module doesn't go: that of the row that asks.
    pub limit: u64,
    /// The tick that was reached; of a row that isn't served yet, the tick of the row before it.
    pub reached: u64,
}

impl<const B: usize> Asked<B> {
    /// The tick that is reached by the row. A row behind it has none below.
    pub fn tick(&self) -> u64
        ensures { result ≡ tick_asked self.now }
    {
        match self {
            Asked::Happens(event) => event.tick,
            Asked::Settle(tick) | Asked::Query(tick) | Asked::Look(tick) => *tick,
            Asked::Peek(peek) => peek.tick,
            Asked::Until(until) => until.reached,
            Asked::UntilAny(until) => until.reached,
        }
    }

    /// The tick that the row names: at most it is reached.
    pub fn named(&self) -> u64
        ensures { result ≡ tick_named self.now }
    {
        match self {
            Asked::Happens(event) => event.tick,
            Asked::Settle(tick) | Asked::Query(tick) | Asked::Look(tick) => *tick,
            Asked::Peek(peek) => peek.tick,
            Asked::Until(until) => until.limit,
            Asked::UntilAny(until) => until.limit,
        }
    }

    /// How many rows have a number, with this one, where so many had one before.
    pub fn rows_after(&self, rows: u32) -> u32
        requires { rows < 4294967295 }
        ensures { result ≡ rows_after rows self.now }
    {
        match self {
            Asked::Happens(_) => rows + 1,
            Asked::Settle(_)
            | Asked::Query(_)
            | Asked::Look(_)
            | Asked::Peek(_)
            | Asked::Until(_)
            | Asked::UntilAny(_) => rows,
        }
    }
}

/// Whether what is kept of a record is the header of a trace.
#[tactic(auto, unfolding(trace_reader::specs::Trace::is_header))]
pub fn is_header_row(row: &Gathered) -> bool
    ensures { result ≡ is_header row.now.fields }
{
    row.count() == 4
        && row.field(0) == b"tick".as_slice()
        && row.field(1) == b"op".as_slice()
        && row.field(2) == b"arg".as_slice()
        && row.field(3) == b"data".as_slice()
}

/// Whether it is a row that settles, right or wrong, as a query, a look, a peek and a settle until do.
pub fn is_settle_row(row: &Gathered) -> bool
    ensures { result ≡ is_settle row.now.fields }
{
    row.count() == 4 && is_settle_word(row.field(1))
}

// Whether a word is that of a row that settles.
fn is_settle_word(op: &[u8]) -> bool
    ensures { result ≡ is_settle_word op.now }
{
    match op {
        b"S" | b"Q" | b"L" | b"U" | b"P" => true,
        _ => false,
    }
}

// Whether a row that settles is a query.
fn is_query_row(row: &Gathered) -> bool
    ensures { result ≡ is_query row.now.fields }
{
    row.field(1) == b"Q".as_slice()
}

// Whether a row that settles is a look.
fn is_look_row(row: &Gathered) -> bool
    ensures { result ≡ is_look row.now.fields }
{
    row.field(1) == b"L".as_slice()
}

// Whether a row that settles is a peek.
fn is_peek_row(row: &Gathered) -> bool
    ensures { result ≡ is_peek row.now.fields }
{
    row.field(1) == b"P".as_slice()
}

// Whether it is a settle until.
fn is_until_row(row: &Gathered) -> bool
    ensures { result ≡ is_until row.now.fields }
{
    row.field(1) == b"U".as_slice()
}

// Whether it is one that names no row.
fn is_any_row(row: &Gathered) -> bool
    ensures { result ≡ is_any row.now.fields }
{
    is_until_row(row) && row.field(2).is_empty()
}

/// Whether an operation is a read, a write or a cut, which every trace has.
pub fn is_event_word(op: &[u8]) -> bool
    ensures { result ≡ is_event_word op.now }
{
    match op {
        b"R" | b"W" | b"C" => true,
        _ => false,
    }
}

// The tick of a row that settles.
#[tactic(auto, unfolding(crate::specs::Asked::settle_of))]
fn read_settle(row: &Gathered, before: u64) -> Result<u64, Kind>
    ensures { result ≡ settle_of before row.now.fields }
{
    let tick = number(row.field(0), 13, LATEST_TICK).ok_or(Kind::Tick)?;
    if tick < before {
        Err(Kind::Order)
    } else if !row.field(2).is_empty() {
        Err(Kind::Line)
    } else if !row.field(3).is_empty() {
        Err(Kind::Payload)
    } else {
        Ok(tick)
    }
}

// The number of one of so many rows.
fn read_row(text: &[u8], rows: u32) -> Option<u32>
    ensures { result ≡ row_of rows text.now }
{
    match number(text, 10, rows as u64)? {
        0 => None,
        row => Some(row as u32),
    }
}

// A settle until, behind so many rows with a number.
#[tactic(auto, unfolding(crate::specs::Asked::until_of))]
fn read_until(row: &Gathered, rows: u32, before: u64) -> Result<Until, Kind>
    ensures { result ≡ until_of rows before row.now.fields }
{
    let limit = number(row.field(0), 13, LATEST_TICK).ok_or(Kind::Tick)?;
    if limit < before {
        return Err(Kind::Order);
    }
    let named = read_row(row.field(2), rows).ok_or(Kind::Line)?;
    if !row.field(3).is_empty() {
        return Err(Kind::Payload);
    }
    Ok(Until {
        row: named,
        limit,
        reached: before,
    })
}

// A settle until any row has its outcome.
#[tactic(auto, unfolding(crate::specs::Asked::any_of))]
fn read_any(row: &Gathered, before: u64) -> Result<UntilAny, Kind>
    ensures { result ≡ any_of before row.now.fields }
{
    let limit = number(row.field(0), 13, LATEST_TICK).ok_or(Kind::Tick)?;
    if limit < before {
        return Err(Kind::Order);
    }
    if !row.field(3).is_empty() {
        return Err(Kind::Payload);
    }
    Ok(UntilAny {
        limit,
        reached: before,
    })
}

// A peek: its fields are those of a read, which has no bytes, so that those of a line of any size are read.
fn read_peek(row: &Gathered, lines: u32, before: u64) -> Result<Peek, Kind>
    requires { 1 ≤ lines }
    ensures { result ≡ peek_of lines before row.now.fields }
{
    let read = read_fields::<1>(
        row.field(0),
        b"R",
        row.field(2),
        row.field(3),
        lines,
        before,
    );
    match read {
        Ok(read) => match read.op {
            EventOp::Read(line) => Ok(Peek {
                tick: read.tick,
                line,
            }),
            _ => unreachable!(),
        },
        Err(kind) => Err(kind),
    }
}

// What happens by a row that doesn't settle.
#[tactic(auto, unfolding(trace_reader::specs::Rows::event_of))]
fn read_event<const B: usize>(row: &Gathered, lines: u32, before: u64) -> Result<Event<B>, Kind>
    requires { 1 ≤ lines }
    ensures { result ≡ event_of B lines before row.now.fields }
{
    if row.count() != 4 {
        return Err(Kind::Fields);
    }
    read_fields(
        row.field(0),
        row.field(1),
        row.field(2),
        row.field(3),
        lines,
        before,
    )
}

/// What a record asks for as a row, by what is kept of it, where so many rows before it have a number, and the row before has the tick `before`.
#[tactic(auto, unfolding(crate::specs::Asked::asked_of))]
pub fn read_asked<const B: usize>(
    row: &Gathered,
    lines: u32,
    rows: u32,
    before: u64,
) -> Result<Asked<B>, Kind>
    requires { 1 ≤ lines }
    ensures { result ≡ asked_of B lines rows before row.now.fields }
{
    if !is_settle_row(row) {
        return Ok(Asked::Happens(read_event(row, lines, before)?));
    }
    if is_peek_row(row) {
        return Ok(Asked::Peek(read_peek(row, lines, before)?));
    }
    if is_any_row(row) {
        return Ok(Asked::UntilAny(read_any(row, before)?));
    }
    read_settled(row, rows, before)
}

// A row that settles, but for a peek and a settle until any row has its outcome.
fn read_settled<const B: usize>(row: &Gathered, rows: u32, before: u64) -> Result<Asked<B>, Kind>
    ensures { result ≡ settled_of rows before row.now.fields }
{
    if is_until_row(row) {
        return Ok(Asked::Until(read_until(row, rows, before)?));
    }
    let tick = read_settle(row, before)?;
    if is_query_row(row) {
        Ok(Asked::Query(tick))
    } else if is_look_row(row) {
        Ok(Asked::Look(tick))
    } else {
        Ok(Asked::Settle(tick))
    }
}
