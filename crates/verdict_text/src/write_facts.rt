// What breaks a clause of a write.
ghost use Rattle.std.specs.Prelude.{◌≡◌, ◌≤◌, ◌++◌, IfOk, length};
ghost use Rattle.verdict_text.specs.WriteFacts as spec;

use crate::read_facts::{say_least, say_other, say_own};
use crate::rows::{say_row_line, say_stand};
use crate::say::{say, say_number};
use check_telling::Clause;
use check_telling::facts::{RowAt, StoreCounts};
use check_telling::writes::WriteGrounds;
use result_rows::Results;
use row_rules::Rules;
use std::alloc::AllocError;
use trace_reader::Event;

// By when a write would have to be stored, with what its bank did by then.
fn say_counts(text: &mut Vec<u8>, counts: Option<StoreCounts>) -> Result<(), AllocError>
    ensures { IfOk result (λ _. text.new.items ≡ spec.counts_on text.old.items counts) }
{
    match counts {
        None => Ok(()),
        Some(counts) => {
            say_number(text, b"         latest ", counts.latest)?;
            say_number(text, b": ", u64::from(counts.stores))?;
            say_number(text, b" stored, ", u64::from(counts.reads))?;
            say_number(text, b" read and ", u64::from(counts.cuts))?;
            say(text, b" cuts by then\n")
        }
    }
}

// The next accepted write of a line.
fn say_next<const B: usize>(
    text: &mut Vec<u8>,
    events: &[Event<B>],
    results: &Results<B>,
    next: Option<RowAt>,
) -> Result<(), AllocError>
    requires one_each { length results.now ≡ length events.now }
    ensures { IfOk result (λ _. text.new.items
        ≡ spec.next_on events.now results.now text.old.items next) }
{
    match next {
        None => say(
            text,
            b"         next   no later write of the line is accepted\n",
        ),
        Some(next) => say_row_line(text, b"         next   ", events, results, Some(next.row)),
    }
}

// A worn row.
fn say_worn<const B: usize>(
    text: &mut Vec<u8>,
    events: &[Event<B>],
    results: &Results<B>,
    worn: Option<RowAt>,
) -> Result<(), AllocError>
    requires one_each { length results.now ≡ length events.now }
    ensures { IfOk result (λ _. text.new.items
        ≡ spec.worn_on events.now results.now text.old.items worn) }
{
    match worn {
        None => Ok(()),
        Some(worn) => say_row_line(text, b"         first  ", events, results, Some(worn.row)),
    }
}

// The worn rows before a write and behind it, if there are such.
fn say_both_worn<const B: usize>(
    text: &mut Vec<u8>,
    events: &[Event<B>],
    results: &Results<B>,
    w: &WriteGrounds<B>,
) -> Result<(), AllocError>
    requires one_each { length results.now ≡ length events.now }
    ensures { IfOk result (λ _. text.new.items ≡ spec.worn_on events.now results.now
        (spec.worn_on events.now results.now text.old.items w.now.worn_before)
        w.now.worn_behind) }
{
    say_worn(text, events, results, w.worn_before)?;
    say_worn(text, events, results, w.worn_behind)
}

/// What breaks a clause.
pub fn say_write_facts<const B: usize>(
    text: &mut Vec<u8>,
    events: &[Event<B>],
    results: &Results<B>,
    rules: &Rules,
    tick: u64,
    w: &WriteGrounds<B>,
    clause: Clause,
    near: Option<RowAt>,
    counts: Option<StoreCounts>,
) -> Result<(), AllocError>
    requires size { B ≤ 128 }
    requires one_each { length results.now ≡ length events.now }
    ensures { IfOk result (λ _. text.new.items ≡ spec.write_facts_on
        events.now results.now rules.now tick w.now text.old.items clause near counts) }
{
    match clause {
        Clause::AtItsTick => say_own(text, tick),
        Clause::FullWhereFull => say_stand(text, rules.writes, &w.standing),
        Clause::FullWhereAlone => say_stand(text, rules.writes, &w.standing),
        Clause::MergedIntoNext => say_next(text, events, results, w.next),
        Clause::WornBehindWorn => say_worn(text, events, results, w.worn_before),
        Clause::StoredBeforeWorn => say_both_worn(text, events, results, w),
        Clause::NotTooEarly => say_least(text, tick, 1),
        Clause::NotTooLate => say_counts(text, counts),
        Clause::Apart => say_other(text, events, results, near),
        _ => Ok(()),
    }
}
