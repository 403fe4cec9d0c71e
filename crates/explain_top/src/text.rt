//! What is told of a trace and its results, as a text.
ghost use Rattle.std.specs.Prelude.{◌≡◌, ◌≤◌, Some, IfOk, IfErr, IfSome, length};
ghost use Rattle.trace_reader.specs.Events.{AreEventsFor};
ghost use Rattle.trace_rows.specs.Rows.{rows_with};
ghost use Rattle.module_shape.specs.Limits.{total_of};
ghost use Rattle.right_runs.specs.Banks.{banks_of, rules_in};
ghost use Rattle.check_reader.specs.ResultRows.{EachMayStand};
ghost use Rattle.check_text.specs.Checked.{IsTextFault, asks_in};
ghost use Rattle.check_text.specs.VerdictText.{verdict_text};
ghost use Rattle.verdict_telling.specs.Explained.{Explains};
ghost use Rattle.check_verdict.specs.declared.Rule.TheVariants.{Worn};
ghost use Rattle.check_verdict.specs.declared.Verdict.TheVariants.{Yes, No};
ghost use Rattle.explain_top.specs.Explained.{HasExplanation, IsExplained, judged};
ghost use Rattle.explain_top.specs.Explained as spec;

use check_reader::find_results;
use check_text::banks::banks;
use check_text::rules::rules;
use check_text::text::{results, trace};
use check_text::{TextFault, print_verdict};
use module_shape::Shape;
use pcm_io::Text;
use result_rows::Results;
use row_rules::Rules;
use std::alloc::{AllocError, Global};
use trace_reader::{Event, EventOp, MOST_ROWS};
use verdict_telling::{Explanation, Rule, Verdict, explain, find_unearned};
use verdict_text::{say_explanation, say_unearned};

/// The verdict on a trace and its results, and its text.
#[derive(Drop)]
pub struct Explained {
    /// Whether each row keeps each rule, or else the lowest row that doesn't; where all do, whether each
    /// worn row is earned, if that is asked.
    pub verdict: Verdict,
    /// The verdict's line and, where it isn't ok, what is told of the row that it names.
    pub text: Vec<u8>,
}

// The line of a verdict.
fn line_of(alloc: Global, verdict: Verdict) -> Result<Vec<u8>, AllocError>
    ensures { IfOk result (λ line. line.items ≡ verdict_text verdict) }
{
    let mut line = Text::new(alloc, 32)?;
    print_verdict(verdict, &mut line);
    Vec::from_slice(alloc, line.bytes())
}

// The bank of the line that an operation asks for, where item l of `banks` is the bank of line l.
fn bank_asked<const B: usize>(op: &EventOp<B>, banks: &[u8]) -> Option<u8>
    ensures { result ≡ spec.bank_asked banks.now op.now }
{
    match op {
        EventOp::Read(line) | EventOp::Write(line, _) | EventOp::Mask(line, _, _) => {
            banks.get(*line as usize).copied()
        }
        EventOp::Cut => None,
    }
}

// The verdict that names a row, and its line with what is told of the row behind it.
fn say_row<const B: usize>(
    alloc: Global,
    events: &[Event<B>],
    results: &Results<B>,
    banks: &[u8],
    rules: &Rules,
    told: &Explanation<B>,
) -> Result<Explained, AllocError>
    requires size { B ≤ 128 }
    requires one_each { length results.now ≡ length events.now }
    requires tells { Explains rules.now banks.now (rows_with events.now results.now)
        (Some told.now) }
    ensures { IfOk result (λ made. (made.verdict ≡ No told.now.row told.now.rule)
        × spec.SaysRow rules.now banks.now events.now results.now told.now.row told.now.rule
        made.text.items) }
{
    let Explanation { row, rule, .. } = *told;
    let verdict = Verdict::No { row, rule };
    let event = &events[row as usize - 1];
    let outcome = results.get(row);
    let bank = bank_asked(&event.op, banks);
    let mut text = line_of(alloc, verdict)?;
    say_explanation(
        &mut text, rules, events, results, bank, event, outcome, told,
    )?;
    Ok(Explained { verdict, text })
}

// A row that is told to be worn though its bank has accepted no write before it.
fn say_unearned_row<const B: usize>(
    alloc: Global,
    events: &[Event<B>],
    results: &Results<B>,
    banks: &[u8],
    row: u32,
) -> Result<Explained, AllocError>
    requires size { B ≤ 128 }
    requires one_each { length results.now ≡ length events.now }
    requires some { 1 ≤ row }
    requires within { row ≤ length events.now }
    ensures { IfOk result (λ made. (made.verdict ≡ No row Worn)
        × spec.SaysUnearned banks.now events.now results.now row Worn made.text.items) }
{
    let verdict = Verdict::No {
        row,
        rule: Rule::Worn,
    };
    let at = row as usize - 1;
    let event = &events[at];
    let outcome = results.get(row);
    let bank = bank_asked(&event.op, banks);
    let mut text = line_of(alloc, verdict)?;
    say_unearned(&mut text, bank, event, outcome)?;
    Ok(Explained { verdict, text })
}

// The lowest row that is worn though its bank has accepted no write before it, if that is asked.
fn find_asked<const B: usize>(
    alloc: Global,
    events: &[Event<B>],
    results: &Results<B>,
    banks: &[u8],
    strict: bool,
) -> Result<Option<u32>, AllocError>
    requires size { B ≤ 128 }
    requires events { AreEventsFor (length banks.now) 0 events.now }
    requires rows { length events.now ≤ MOST_ROWS }
    requires one_each { length results.now ≡ length events.now }
    ensures exact { IfOk result (λ found. found
        ≡ spec.found_in strict banks.now (rows_with events.now results.now)) }
    ensures within { IfOk result (λ found. IfSome found
        (λ row. (1 ≤ row) × (row ≤ length events.now))) }
{
    if !strict {
        return Ok(None);
    }
    find_unearned(alloc, events, results, banks)
}

// Of rows that keep all rules: whether each that is worn is earned, if that is asked.
fn say_kept<const B: usize>(
    alloc: Global,
    events: &[Event<B>],
    results: &Results<B>,
    banks: &[u8],
    strict: bool,
) -> Result<Explained, AllocError>
    requires size { B ≤ 128 }
    requires events { AreEventsFor (length banks.now) 0 events.now }
    requires rows { length events.now ≤ MOST_ROWS }
    requires one_each { length results.now ≡ length events.now }
    ensures { IfOk result (λ made.
        (made.verdict ≡ judged strict banks.now (rows_with events.now results.now) Yes)
        × spec.SaysKept banks.now events.now results.now made.verdict made.text.items) }
{
    match find_asked(alloc, events, results, banks, strict)? {
        None => Ok(Explained {
            verdict: Verdict::Yes,
            text: line_of(alloc, Verdict::Yes)?,
        }),
        Some(row) => say_unearned_row(alloc, events, results, banks, row),
    }
}

// The verdict on these events and results, and its text.
fn explain_rows<const B: usize, const E: usize>(
    alloc: Global,
    events: &[Event<B>],
    results: &Results<B>,
    shape: &Shape,
    seed: u64,
    strict: bool,
) -> Result<Explained, AllocError>
    requires size { B ≤ 128 }
    requires few { E ≤ 8 }
    requires events { AreEventsFor (total_of shape.now) 0 events.now }
    requires rows { length events.now ≤ MOST_ROWS }
    requires one_each { length results.now ≡ length events.now }
    requires may_stand { EachMayStand (asks_in events.now) results.now }
    ensures { IfOk result (λ made. IsExplained (rules_in E shape.now 0) (banks_of shape.now seed)
        events.now results.now strict made.verdict made.text.items) }
{
    let banks = banks(alloc, shape, seed)?;
    let rules = rules::<E>(shape);
    match explain(alloc, events, results, banks.as_slice(), &rules)? {
        None => say_kept(alloc, events, results, banks.as_slice(), strict),
        Some(told) => say_row(alloc, events, results, banks.as_slice(), &rules, &told),
    }
}

/// What is told of the results that stand behind a trace, for a module of this shape whose
/// randomiser has this seed; `strict` asks that a worn row is earned. A line has `B` bytes and `E`
/// error-correcting pointers.
pub fn explain_text<const B: usize, const E: usize>(
    alloc: Global,
    bytes: &[u8],
    shape: &Shape,
    seed: u64,
    strict: bool,
) -> Result<Explained, TextFault>
    requires some_size { 1 ≤ B }
    requires size { B ≤ 128 }
    requires few { E ≤ 8 }
    ensures made { IfOk result (λ made.
        HasExplanation B E shape.now seed strict bytes.now made.verdict made.text.items) }
    ensures fault { IfErr result (IsTextFault B shape.now bytes.now) }
{
    let at = find_results(bytes);
    let events = trace(alloc, &bytes[..at], shape.total())?;
    let results = results(alloc, &bytes[at..], events.as_slice())?;
    let made = explain_rows::<B, E>(alloc, events.as_slice(), &results, shape, seed, strict)?;
    Ok(made)
}
