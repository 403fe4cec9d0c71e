// An explanation as text, behind the line of its verdict.
ghost use Rattle.std.specs.Prelude.{◌≡◌, ◌≤◌, IfOk, length};
ghost use Rattle.verdict_telling.specs.Offers.{lines_found, lines_of};
ghost use Rattle.verdict_text.specs.Explained as spec;
ghost use Rattle.verdict_text.specs.RightLines.{lines_on, right_on};

use crate::clauses::clause_words;
use crate::read_facts::{say_own, say_read_facts};
use crate::right_reads::say_right_read;
use crate::right_writes::say_right_write;
use crate::room_facts::say_crowd;
use crate::rows::{say_answer, say_asks};
use crate::say::{say, say_number};
use crate::write_facts::say_write_facts;
use check_telling::Clause;
use clause_telling::room::Crowd;
use result_rows::{Outcome, Results};
use row_rules::Rules;
use std::alloc::AllocError;
use trace_reader::Event;
use verdict_telling::{Explanation, Finds};

// The bank of a row's line; a cut is of no bank.
fn say_bank(text: &mut Vec<u8>, bank: Option<u8>) -> Result<(), AllocError>
    ensures { IfOk result (λ _. text.new.items ≡ spec.bank_on text.old.items bank) }
{
    match bank {
        None => say(text, b"\n"),
        Some(bank) => {
            say_number(text, b", bank ", u64::from(bank))?;
            say(text, b"\n")
        }
    }
}

// What a row asked, and what it was told.
fn say_head<const B: usize>(
    text: &mut Vec<u8>,
    bank: Option<u8>,
    event: &Event<B>,
    outcome: &Outcome<B>,
) -> Result<(), AllocError>
    requires size { B ≤ 128 }
    ensures { IfOk result (λ _. text.new.items
        ≡ spec.head_on text.old.items bank event.now outcome.now) }
{
    say(text, b"  asks   ")?;
    say_asks(text, &event.op)?;
    say_number(text, b" at tick ", event.tick)?;
    say_bank(text, bank)?;
    say(text, b"  told   ")?;
    say_answer(text, outcome)?;
    say(text, b"\n")
}

// The clause that a row breaks.
fn say_breaks(text: &mut Vec<u8>, clause: Clause) -> Result<(), AllocError>
    ensures { IfOk result (λ _. text.new.items ≡ spec.breaks_on text.old.items clause) }
{
    say(text, b"  breaks ")?;
    say(text, clause_words(clause))?;
    say(text, b"\n")
}

// Every answer that would be right, where each bank has room.
fn say_right_found<const B: usize>(
    text: &mut Vec<u8>,
    rules: &Rules,
    tick: u64,
    finds: &Finds<B>,
) -> Result<(), AllocError>
    requires size { B ≤ 128 }
    ensures { IfOk result (λ _. text.new.items
        ≡ lines_on text.old.items (lines_found rules.now tick finds.now)) }
{
    match finds {
        Finds::Read(g) => say_right_read(text, g, tick),
        Finds::Write(w) => say_right_write(text, w, tick, u64::from(rules.read_ticks)),
        Finds::Cut => {
            say_number(text, b"  right  cut ", tick)?;
            say(text, b"\n")
        }
    }
}

// Every answer that would be right: none where a bank holds more than it may.
fn say_right<const B: usize>(
    text: &mut Vec<u8>,
    rules: &Rules,
    tick: u64,
    finds: &Finds<B>,
    crowd: &Option<Crowd<B>>,
) -> Result<(), AllocError>
    requires size { B ≤ 128 }
    ensures { IfOk result (λ _. text.new.items
        ≡ right_on text.old.items crowd.now (lines_of rules.now tick finds.now crowd.now)) }
{
    match crowd {
        None => say_right_found(text, rules, tick, finds),
        Some(crowd) => {
            say_number(text, b"  right  none: bank ", u64::from(crowd.bank))?;
            say(text, b" has no room as it comes\n")
        }
    }
}

// What breaks the clause.
fn say_found<const B: usize>(
    text: &mut Vec<u8>,
    rules: &Rules,
    events: &[Event<B>],
    results: &Results<B>,
    tick: u64,
    e: &Explanation<B>,
) -> Result<(), AllocError>
    requires size { B ≤ 128 }
    requires one_each { length results.now ≡ length events.now }
    ensures { IfOk result (λ _. text.new.items ≡ spec.found_on
        rules.now events.now results.now tick e.now text.old.items e.now.finds) }
{
    match &e.finds {
        Finds::Read(g) => {
            say_read_facts(
                text, events, results, rules, tick, g, e.clause, e.near, e.stale,
            )
        }
        Finds::Write(w) => {
            say_write_facts(
                text, events, results, rules, tick, w, e.clause, e.near, e.counts,
            )
        }
        Finds::Cut => say_own(text, tick),
    }
}

// What a bank holds that holds more than it may, if one does.
fn say_room<const B: usize>(
    text: &mut Vec<u8>,
    rules: &Rules,
    events: &[Event<B>],
    results: &Results<B>,
    crowd: &Option<Crowd<B>>,
) -> Result<(), AllocError>
    requires size { B ≤ 128 }
    requires one_each { length results.now ≡ length events.now }
    ensures { IfOk result (λ _. text.new.items ≡ spec.room_on
        rules.now events.now results.now text.old.items crowd.now) }
{
    match crowd {
        None => Ok(()),
        Some(crowd) => say_crowd(text, events, results, rules, crowd),
    }
}

// What breaks the clause, or by what a bank has no room.
fn say_facts<const B: usize>(
    text: &mut Vec<u8>,
    rules: &Rules,
    events: &[Event<B>],
    results: &Results<B>,
    tick: u64,
    e: &Explanation<B>,
) -> Result<(), AllocError>
    requires size { B ≤ 128 }
    requires one_each { length results.now ≡ length events.now }
    ensures { IfOk result (λ _. text.new.items ≡ spec.facts_on
        rules.now events.now results.now tick e.now text.old.items e.now.clause) }
{
    match e.clause {
        Clause::Room => say_room(text, rules, events, results, &e.crowd),
        _ => say_found(text, rules, events, results, tick, e),
    }
}

// What a row asked and was told, and the clause that it breaks.
fn say_row<const B: usize>(
    text: &mut Vec<u8>,
    bank: Option<u8>,
    event: &Event<B>,
    outcome: &Outcome<B>,
    clause: Clause,
) -> Result<(), AllocError>
    requires size { B ≤ 128 }
    ensures { IfOk result (λ _. text.new.items
        ≡ spec.row_on text.old.items bank event.now outcome.now clause) }
{
    say_head(text, bank, event, outcome)?;
    say_breaks(text, clause)
}

// What breaks the clause, and every answer that would be right.
fn say_why<const B: usize>(
    text: &mut Vec<u8>,
    rules: &Rules,
    events: &[Event<B>],
    results: &Results<B>,
    tick: u64,
    e: &Explanation<B>,
) -> Result<(), AllocError>
    requires size { B ≤ 128 }
    requires one_each { length results.now ≡ length events.now }
    ensures { IfOk result (λ _. text.new.items ≡ spec.why_on
        rules.now events.now results.now tick e.now text.old.items) }
{
    say_facts(text, rules, events, results, tick, e)?;
    say_right(text, rules, tick, &e.finds, &e.crowd)
}

/// Puts an explanation behind the line of its verdict: what the row asked and was told, the clause that it breaks, what breaks it, and
/// every answer that would be right. `bank` is that of the row's line; a cut has none.
pub fn say_explanation<const B: usize>(
    text: &mut Vec<u8>,
    rules: &Rules,
    events: &[Event<B>],
    results: &Results<B>,
    bank: Option<u8>,
    event: &Event<B>,
    outcome: &Outcome<B>,
    e: &Explanation<B>,
) -> Result<(), AllocError>
    requires size { B ≤ 128 }
    requires one_each { length results.now ≡ length events.now }
    ensures { IfOk result (λ _. text.new.items ≡ spec.explained_on text.old.items
        rules.now events.now results.now bank event.now outcome.now e.now) }
{
    say_row(text, bank, event, outcome, e.clause)?;
    say_why(text, rules, events, results, event.tick, e)
}

/// Puts behind the line of a verdict that names a worn row whose bank, `bank`, has accepted no write before it what the row asked and
/// was told, and that.
pub fn say_unearned<const B: usize>(
    text: &mut Vec<u8>,
    bank: Option<u8>,
    event: &Event<B>,
    outcome: &Outcome<B>,
) -> Result<(), AllocError>
    requires size { B ≤ 128 }
    ensures { IfOk result (λ _. text.new.items
        ≡ spec.unearned_on text.old.items bank event.now outcome.now) }
{
    say_head(text, bank, event, outcome)?;
    say(
        text,
        b"  breaks Earned: a worn row has an accepted write of its bank before it\n",
    )
}
