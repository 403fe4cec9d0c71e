// The rows of a table, in words.
ghost use Rattle.std.specs.Prelude.{◌≡◌, ◌≤◌, ◌++◌, IfOk, length};
ghost use Rattle.result_rows.specs.Outcomes as outcomes;
ghost use Rattle.verdict_text.specs.RowWords as spec;

use crate::say::{say, say_hex, say_number};
use check_telling::mates::Numbered;
use result_rows::{Outcome, Results};
use std::alloc::AllocError;
use trace_reader::{Event, EventOp};

// The word of an outcome.
fn word<const B: usize>(outcome: &Outcome<B>) -> &'static [u8]
    ensures { result.now ≡ outcomes.outcome_word outcome.now }
{
    match outcome {
        Outcome::Unset => b"",
        Outcome::Stored { .. } => b"stored",
        Outcome::Merged { .. } => b"merged",
        Outcome::Queued { .. } => b"queued",
        Outcome::Full { .. } => b"full",
        Outcome::Worn { .. } => b"worn",
        Outcome::Read { .. } => b"read",
        Outcome::Forwarded { .. } => b"forwarded",
        Outcome::Busy { .. } => b"busy",
        Outcome::Lost { .. } => b"lost",
        Outcome::Cut { .. } => b"cut",
    }
}

// The tick of an outcome.
fn tick<const B: usize>(outcome: &Outcome<B>) -> Option<u64>
    ensures { result ≡ outcomes.tick_of outcome.now }
{
    match outcome {
        Outcome::Unset => None,
        Outcome::Stored { tick, .. }
        | Outcome::Merged { tick }
        | Outcome::Queued { tick }
        | Outcome::Full { tick }
        | Outcome::Worn { tick }
        | Outcome::Read { tick, .. }
        | Outcome::Forwarded { tick, .. }
        | Outcome::Busy { tick }
        | Outcome::Lost { tick }
        | Outcome::Cut { tick } => Some(*tick),
    }
}

/// What a row asks for.
pub fn say_asks<const B: usize>(text: &mut Vec<u8>, op: &EventOp<B>) -> Result<(), AllocError>
    ensures { IfOk result (λ _. text.new.items ≡ spec.asks_on text.old.items op.now) }
{
    match op {
        EventOp::Read(line) => say_number(text, b"read of line ", u64::from(*line)),
        EventOp::Write(line, _) => say_number(text, b"write of line ", u64::from(*line)),
        EventOp::Mask(line, _, _) => say_number(text, b"write of line ", u64::from(*line)),
        EventOp::Cut => say(text, b"cut"),
    }
}

// The tick of an outcome behind a space.
fn say_tick(text: &mut Vec<u8>, tick: Option<u64>) -> Result<(), AllocError>
    ensures { IfOk result (λ _. text.new.items ≡ spec.tick_on text.old.items tick) }
{
    match tick {
        Some(tick) => say_number(text, b" ", tick),
        None => say(text, b" "),
    }
}

// An outcome by its word and its tick.
fn say_outcome<const B: usize>(text: &mut Vec<u8>, outcome: &Outcome<B>) -> Result<(), AllocError>
    ensures { IfOk result (λ _. text.new.items
        ≡ spec.outcome_on text.old.items outcome.now) }
{
    say(text, word(outcome))?;
    say_tick(text, tick(outcome))
}

// The bytes of an answer.
fn say_data<const B: usize>(text: &mut Vec<u8>, outcome: &Outcome<B>) -> Result<(), AllocError>
    requires size { B ≤ 128 }
    ensures { IfOk result (λ _. text.new.items
        ≡ spec.data_on text.old.items (outcomes.bytes_of outcome.now)) }
{
    match outcome {
        Outcome::Read { bytes, .. } => say_hex(text, b", data ", bytes),
        Outcome::Forwarded { bytes, .. } => say_hex(text, b", data ", bytes),
        _ => Ok(()),
    }
}

/// An outcome by its word, its tick, and the bytes of an answer.
pub fn say_answer<const B: usize>(
    text: &mut Vec<u8>,
    outcome: &Outcome<B>,
) -> Result<(), AllocError>
    requires size { B ≤ 128 }
    ensures { IfOk result (λ _. text.new.items ≡ spec.answer_on text.old.items outcome.now) }
{
    say_outcome(text, outcome)?;
    say_data(text, outcome)
}

// A row by its number.
fn say_row<const B: usize>(
    text: &mut Vec<u8>,
    number: u32,
    event: &Event<B>,
    outcome: &Outcome<B>,
) -> Result<(), AllocError>
    ensures { IfOk result (λ _. text.new.items
        ≡ spec.row_on text.old.items number event.now outcome.now) }
{
    say_number(text, b"row ", u64::from(number))?;
    say_number(text, b", tick ", event.tick)?;
    say(text, b": ")?;
    say_asks(text, &event.op)?;
    say(text, b", ")?;
    say_outcome(text, outcome)
}

/// A row of a table, or its number alone where the table has none of it.
pub fn say_named<const B: usize>(
    text: &mut Vec<u8>,
    events: &[Event<B>],
    results: &Results<B>,
    number: u32,
) -> Result<(), AllocError>
    requires one_each { length results.now ≡ length events.now }
    ensures { IfOk result (λ _. text.new.items
        ≡ spec.named_on text.old.items events.now results.now number) }
{
    let at = number.saturating_sub(1);
    if at as usize >= events.len() {
        return say_number(text, b"row ", u64::from(number));
    }
    let outcome = results.get(at + 1);
    say_row(text, number, &events[at as usize], outcome)
}

/// A line of a row, behind the line's key; none where there is no row.
pub fn say_row_line<const B: usize>(
    text: &mut Vec<u8>,
    key: &[u8],
    events: &[Event<B>],
    results: &Results<B>,
    row: Option<u32>,
) -> Result<(), AllocError>
    requires one_each { length results.now ≡ length events.now }
    ensures { IfOk result (λ _. text.new.items
        ≡ spec.row_line text.old.items key.now events.now results.now row) }
{
    match row {
        None => Ok(()),
        Some(number) => {
            say(text, key)?;
            say_named(text, events, results, number)?;
            say(text, b"\n")
        }
    }
}

// The numbers of rows.
fn say_numbers<const B: usize>(text: &mut Vec<u8>, rows: &[Numbered<B>]) -> Result<(), AllocError>
    ensures { IfOk result (λ _. text.new.items ≡ spec.numbers_on text.old.items rows.now) }
{
    for one in rows {
        say_number(text, b" ", u64::from(one.number))?;
    }
    Ok(())
}

// The same, or that there are none.
fn say_rows<const B: usize>(text: &mut Vec<u8>, rows: &[Numbered<B>]) -> Result<(), AllocError>
    ensures { IfOk result (λ _. text.new.items ≡ spec.rows_on text.old.items rows.now) }
{
    if rows.is_empty() {
        return say(text, b"rows none\n");
    }
    say(text, b"rows")?;
    say_numbers(text, rows)?;
    say(text, b"\n")
}

/// How many writes stand in a queue of so many, and which rows they are.
pub fn say_stand<const B: usize>(
    text: &mut Vec<u8>,
    most: u32,
    rows: &[Numbered<B>],
) -> Result<(), AllocError>
    ensures { IfOk result (λ _. text.new.items ≡ spec.stand_on text.old.items most rows.now) }
{
    say_number(text, b"         stand  ", rows.len() as u64)?;
    say_number(text, b" of ", u64::from(most))?;
    say(text, b" writes: ")?;
    say_rows(text, rows)
}

/// How many reads wait where so many may, and which rows they are.
pub fn say_waits<const B: usize>(
    text: &mut Vec<u8>,
    most: u32,
    rows: &[Numbered<B>],
) -> Result<(), AllocError>
    ensures { IfOk result (λ _. text.new.items ≡ spec.waits_on text.old.items most rows.now) }
{
    say_number(text, b"         waits  ", rows.len() as u64)?;
    say_number(text, b" of ", u64::from(most))?;
    say(text, b" reads: ")?;
    say_rows(text, rows)
}
