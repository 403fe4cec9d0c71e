// What breaks a clause of a read.
ghost use Rattle.std.specs.Prelude.{◌≡◌, ◌≤◌, ◌++◌, if◌then◌else◌, IfOk, length};
ghost use Rattle.verdict_text.specs.ReadFacts as spec;

use crate::rows::{say_named, say_row_line, say_waits};
use crate::say::{say, say_hex, say_number};
use check_telling::Clause;
use check_telling::facts::RowAt;
use check_telling::grounds::Grounds;
use result_rows::Results;
use row_rules::Rules;
use std::alloc::AllocError;
use trace_reader::Event;

/// The tick at which a row came.
pub fn say_own(text: &mut Vec<u8>, tick: u64) -> Result<(), AllocError>
    ensures { IfOk result (λ _. text.new.items ≡ spec.own_on text.old.items tick) }
{
    say_number(text, b"         own    tick ", tick)?;
    say(text, b"\n")
}

// The row before which other bytes were the newest.
fn say_stale(text: &mut Vec<u8>, row: Option<RowAt>) -> Result<(), AllocError>
    ensures { IfOk result (λ _. text.new.items ≡ spec.stale_on text.old.items row) }
{
    match row {
        None => Ok(()),
        Some(one) => {
            say_number(
                text,
                b"         stale  what is told was newest before row ",
                u64::from(one.row),
            )?;
            say(text, b"\n")
        }
    }
}

// Whether the queue gives every byte.
fn say_queue(text: &mut Vec<u8>, covered: bool) -> Result<(), AllocError>
    ensures { IfOk result (λ _. text.new.items ≡ spec.queue_on text.old.items covered) }
{
    if covered {
        say(text, b"         queue  gives every byte of the line\n")
    } else {
        say(text, b"         queue  gives not every byte of the line\n")
    }
}

/// The first tick at which a row may end.
pub fn say_least(text: &mut Vec<u8>, tick: u64, more: u64) -> Result<(), AllocError>
    ensures { IfOk result (λ _. text.new.items ≡ spec.least_on text.old.items tick more) }
{
    say_number(text, b"         least  ", tick)?;
    say_number(text, b" + ", more)?;
    say(text, b"\n")
}

// Which row gave a byte and those behind it; 0 stands for none.
fn say_giver<const B: usize>(
    text: &mut Vec<u8>,
    events: &[Event<B>],
    results: &Results<B>,
    at: usize,
    number: u32,
) -> Result<(), AllocError>
    requires one_each { length results.now ≡ length events.now }
    ensures { IfOk result (λ _. text.new.items
        ≡ spec.giver_on events.now results.now text.old.items at number) }
{
    say_number(text, b"         from   byte ", at as u64)?;
    if number == 0 {
        return say(text, b": no write\n");
    }
    say(text, b": ")?;
    say_named(text, events, results, number)?;
    say(text, b"\n")
}

// Whether a number is another one than that before it, if there was one.
fn is_new(last: Option<u32>, number: u32) -> bool
    ensures { result ≡ spec.is_new last number }
{
    match last {
        None => true,
        Some(last) => !(last == number),
    }
}

// The same, where it is another row than that before it.
fn say_other_giver<const B: usize>(
    text: &mut Vec<u8>,
    events: &[Event<B>],
    results: &Results<B>,
    at: usize,
    last: Option<u32>,
    number: u32,
) -> Result<(), AllocError>
    requires one_each { length results.now ≡ length events.now }
    ensures { IfOk result (λ _. text.new.items ≡ (if spec.is_new last number
        then spec.giver_on events.now results.now text.old.items at number
        else text.old.items)) }
{
    if is_new(last, number) {
        say_giver(text, events, results, at, number)
    } else {
        Ok(())
    }
}

// Which rows gave these bytes.
fn say_givers<const B: usize>(
    text: &mut Vec<u8>,
    events: &[Event<B>],
    results: &Results<B>,
    givers: &[u32],
) -> Result<(), AllocError>
    requires one_each { length results.now ≡ length events.now }
    ensures { IfOk result (λ _. text.new.items
        ≡ spec.givers_on events.now results.now text.old.items 0 None givers.now) }
{
    let mut last = None;
    for (at, number) in givers.iter().enumerate() {
        say_other_giver(text, events, results, at, last, *number)?;
        last = Some(*number);
    }
    Ok(())
}

// The newest bytes of a line, and which rows gave them.
fn say_newest<const B: usize>(
    text: &mut Vec<u8>,
    events: &[Event<B>],
    results: &Results<B>,
    g: &Grounds<B>,
) -> Result<(), AllocError>
    requires size { B ≤ 128 }
    requires one_each { length results.now ≡ length events.now }
    ensures { IfOk result (λ _. text.new.items
        ≡ spec.newest_on events.now results.now text.old.items g.now) }
{
    say_hex(text, b"         newest ", &g.newest.bytes)?;
    say(text, b"\n")?;
    say_givers(text, events, results, g.newest.givers.as_slice())
}

// A write that leaves the queue before the line's next store, or that the line has none there.
fn say_ahead<const B: usize>(
    text: &mut Vec<u8>,
    events: &[Event<B>],
    results: &Results<B>,
    ahead: Option<RowAt>,
) -> Result<(), AllocError>
    requires one_each { length results.now ≡ length events.now }
    ensures { IfOk result (λ _. text.new.items
        ≡ spec.ahead_on events.now results.now text.old.items ahead) }
{
    match ahead {
        None => say(text, b"         ahead  no write of the line stands\n"),
        Some(ahead) => say_row_line(text, b"         ahead  ", events, results, Some(ahead.row)),
    }
}

// The first cut behind a row.
fn say_cut<const B: usize>(
    text: &mut Vec<u8>,
    events: &[Event<B>],
    results: &Results<B>,
    cut: Option<RowAt>,
) -> Result<(), AllocError>
    requires one_each { length results.now ≡ length events.now }
    ensures { IfOk result (λ _. text.new.items
        ≡ spec.cut_on events.now results.now text.old.items cut) }
{
    match cut {
        None => say(text, b"         cut    none comes behind it\n"),
        Some(cut) => say_row_line(text, b"         cut    ", events, results, Some(cut.row)),
    }
}

/// The row from which an action doesn't lie apart.
pub fn say_other<const B: usize>(
    text: &mut Vec<u8>,
    events: &[Event<B>],
    results: &Results<B>,
    near: Option<RowAt>,
) -> Result<(), AllocError>
    requires one_each { length results.now ≡ length events.now }
    ensures { IfOk result (λ _. text.new.items
        ≡ spec.other_on events.now results.now text.old.items near) }
{
    match near {
        None => Ok(()),
        Some(other) => say_row_line(text, b"         other  ", events, results, Some(other.row)),
    }
}

// By when it is read: its tick, how long its bank may be busy otherwise, and a read's time for each that waits and for itself.
fn say_begun(text: &mut Vec<u8>, by: u64, tick: u64, delay: u64) -> Result<(), AllocError>
    ensures { IfOk result (λ _. text.new.items ≡ spec.begun_on text.old.items by tick delay) }
{
    say_number(text, b"         bound  ", by)?;
    say_number(text, b": ", tick)?;
    say_number(text, b" + ", delay)
}

fn say_times(text: &mut Vec<u8>, waits: u64, read: u64) -> Result<(), AllocError>
    ensures { IfOk result (λ _. text.new.items ≡ spec.times_on text.old.items waits read) }
{
    say_number(text, b" + (", waits)?;
    say_number(text, b" + 1) * ", read)?;
    say(text, b"\n")
}

// The same, and the reads that wait.
fn say_bound<const B: usize>(
    text: &mut Vec<u8>,
    rules: &Rules,
    tick: u64,
    g: &Grounds<B>,
) -> Result<(), AllocError>
    requires size { B ≤ 128 }
    ensures { IfOk result (λ _. text.new.items ≡ spec.bound_on text.old.items rules.now tick g.now) }
{
    say_begun(text, g.by, tick, g.delay)?;
    say_times(text, g.waiting.len() as u64, u64::from(rules.read_ticks))?;
    say_waits(text, rules.reads, &g.waiting)
}

// That a read is forwarded where the queue gives not every byte, nor its line is at the head.
fn say_forwarded_only<const B: usize>(
    text: &mut Vec<u8>,
    events: &[Event<B>],
    results: &Results<B>,
    rules: &Rules,
    g: &Grounds<B>,
) -> Result<(), AllocError>
    requires size { B ≤ 128 }
    requires one_each { length results.now ≡ length events.now }
    ensures { IfOk result (λ _. text.new.items
        ≡ spec.forwarded_only_on events.now results.now text.old.items rules.now g.now) }
{
    say_queue(text, g.covered)?;
    say_waits(text, rules.reads, &g.waiting)?;
    say_ahead(text, events, results, g.ahead)
}

// That a read has not its line's newest bytes.
fn say_newest_bytes<const B: usize>(
    text: &mut Vec<u8>,
    events: &[Event<B>],
    results: &Results<B>,
    g: &Grounds<B>,
    stale: Option<RowAt>,
) -> Result<(), AllocError>
    requires size { B ≤ 128 }
    requires one_each { length results.now ≡ length events.now }
    ensures { IfOk result (λ _. text.new.items
        ≡ spec.stale_on (spec.newest_on events.now results.now text.old.items g.now) stale) }
{
    say_newest(text, events, results, g)?;
    say_stale(text, stale)
}

/// What breaks a clause.
pub fn say_read_facts<const B: usize>(
    text: &mut Vec<u8>,
    events: &[Event<B>],
    results: &Results<B>,
    rules: &Rules,
    tick: u64,
    g: &Grounds<B>,
    clause: Clause,
    near: Option<RowAt>,
    stale: Option<RowAt>,
) -> Result<(), AllocError>
    requires size { B ≤ 128 }
    requires one_each { length results.now ≡ length events.now }
    ensures { IfOk result (λ _. text.new.items ≡ spec.read_facts_on
        events.now results.now rules.now tick g.now text.old.items clause near stale) }
{
    match clause {
        Clause::AtItsTick => say_own(text, tick),
        Clause::NewestBytes => say_newest_bytes(text, events, results, g, stale),
        Clause::Forwarded => say_queue(text, g.covered),
        Clause::ForwardedOnly => say_forwarded_only(text, events, results, rules, g),
        Clause::Busy => say_waits(text, rules.reads, &g.waiting),
        Clause::BusyOnly => say_waits(text, rules.reads, &g.waiting),
        Clause::NotTooEarly => say_least(text, tick, u64::from(rules.read_ticks)),
        Clause::NotTooLate => say_bound(text, rules, tick, g),
        Clause::LostInTime => say_bound(text, rules, tick, g),
        Clause::ReadBeforeCut => say_cut(text, events, results, g.cut),
        Clause::LostAtCut => say_cut(text, events, results, g.cut),
        Clause::Apart => say_other(text, events, results, near),
        _ => Ok(()),
    }
}
