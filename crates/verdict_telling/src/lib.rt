//! A verdict on a trace and its results, and what would have been right for the row that it names.
#![tactic(auto)]

ghost use Rattle.std.specs.Prelude.{◌≡◌, ◌≤◌, length, IfOk};
ghost use Rattle.result_check.specs.Checkable.{IsCheckable};
ghost use Rattle.trace_rows.specs.Rows as spec;
ghost use Rattle.verdict_telling.specs.Explained.{Explains, IsTold, TellsOf};

pub mod earned;
pub mod row;

pub use check_telling::Clause;
pub use earned::find_unearned;
pub use result_check::{Rule, Verdict, check};
use result_rows::{Outcome, Results};
use row::explain_one;
pub use row::{Explanation, Finds};
use row_rules::{Asks, Row, Rules};
use std::alloc::{AllocError, Global};
use trace_reader::{Event, EventOp};

/// What an event asks for.
fn asks_of<const B: usize>(op: &EventOp<B>) -> Asks<B>
    ensures { result ≡ spec.asks_of op.now }
{
    match op {
        EventOp::Read(line) => Asks::Reads { line: *line },
        EventOp::Write(line, bytes) => {
            let given = [true; B];
            Asks::Writes {
                line: *line,
                bytes: *bytes,
                given,
            }
        }
        EventOp::Mask(line, bytes, given) => Asks::Writes {
            line: *line,
            bytes: *bytes,
            given: *given,
        },
        EventOp::Cut => Asks::Cuts,
    }
}

/// The row of an event with its outcome.
fn row_of<const B: usize>(event: &Event<B>, outcome: &Outcome<B>) -> Row<B>
    ensures { result ≡ spec.row_of event.now outcome.now }
{
    Row {
        tick: event.tick,
        asks: asks_of(&event.op),
        outcome: *outcome,
    }
}

/// The rows of a trace with these outcomes, the oldest first.
fn table<const B: usize>(
    alloc: Global,
    events: &[Event<B>],
    results: &Results<B>,
) -> Result<Vec<Row<B>>, AllocError>
    requires small { B ≤ 128 }
    requires few { length events.now ≤ 400_000 }
    requires rows { length results.now ≡ length events.now }
    ensures { IfOk result (λ rows. rows.items ≡ spec.rows_with events.now results.now) }
{
    let mut rows = Vec::new(alloc);
    for (i, event) in events.iter().enumerate() {
        rows.push(row_of(event, results.get(i as u32 + 1)))?;
    }
    Ok(rows)
}

/// What is told of a row of these, the lowest that breaks a rule.
fn explain_row<const B: usize>(
    alloc: Global,
    rows: &[Row<B>],
    banks: &[u8],
    rules: &Rules,
    row: u32,
    rule: Rule,
) -> Result<Explanation<B>, AllocError>
    requires small { B ≤ 128 }
    requires table { IsTold rules.now banks.now rows.now row rule }
    ensures { IfOk result (λ told. TellsOf rules.now banks.now rows.now row rule told) }
{
    let (before, rest) = rows.split_at(row as usize - 1);
    let Some((one, after)) = rest.split_first() else {
        unreachable!()
    };
    explain_one(alloc, before, one, after, banks, rules, row, rule)
}

/// The verdict on a trace and its results, where item l of `banks` is the bank of line l; where it is No, with what its row finds.
pub fn explain<const B: usize>(
    alloc: Global,
    events: &[Event<B>],
    results: &Results<B>,
    banks: &[u8],
    rules: &Rules,
) -> Result<Option<Explanation<B>>, AllocError>
    requires small { B ≤ 128 }
    requires checkable { IsCheckable events.now results.now banks.now rules.now }
    ensures { IfOk result
        (λ told. Explains rules.now banks.now (spec.rows_with events.now results.now) told) }
{
    match check(alloc, events, results, banks, rules)? {
        Verdict::Yes => Ok(None),
        Verdict::No { row, rule } => {
            let rows = table(alloc, events, results)?;
            let told = explain_row(alloc, &rows, banks, rules, row, rule)?;
            Ok(Some(told))
        }
    }
}
