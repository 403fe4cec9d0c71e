//! Whether the results of a run are ones that a module may give: the verdict on a trace, its results, the bank of each line
//! and the rules.
#![tactic(auto)]

ghost use Rattle.std.specs.Prelude.{◌≡◌, ◌+◌, ◌≤◌, if◌then◌else◌, drop, length, slice_get, Some, ◌<◌, IfOk};
ghost use Rattle.row_rules.specs.Rows.{asks_cut};
ghost use Rattle.check_verdict.specs.Within.{AreWithin};
ghost use Rattle.check_verdict.specs.Verdicts.{verdict_of};
ghost use Rattle.trace_rows.specs.Rows.{rows_with, asks_of};
ghost use Rattle.result_check.specs.Checkable.{IsCheckable};
ghost use Rattle.result_check.specs.Coming.{coming_of};
ghost use Rattle.result_check.specs.Going.{GoesOn};
ghost use Rattle.result_check.specs.Tables.{IsTable, IsFound};

mod ahead;
mod found;
mod kept;
pub mod watched;

use ahead::look_ahead;
use check_verdict::known::{Coming, JudgingGrounds};
pub use check_verdict::{Rule, Verdict};
use found::Found;
use kept::KeptRows;
use result_rows::Results;
pub use row_rules::Rules;
use std::alloc::{AllocError, Global};
use trace_reader::{Event, EventOp};

/// How many cuts have come with this operation.
fn cuts_with<const B: usize>(cuts: usize, op: &EventOp<B>) -> usize
    requires { cuts ≤ 400_000 }
    ensures { result ≡ (if asks_cut (asks_of op.now) then cuts + 1 else cuts) }
{
    match op {
        EventOp::Cut => cuts + 1,
        _ => cuts,
    }
}

/// The ticks of the cuts behind so many.
fn cuts_behind(cuts: &[u64], passed: usize) -> &[u64]
    requires { passed ≤ length cuts.now }
    ensures { result.now ≡ drop passed cuts.now }
{
    &cuts[passed..]
}

/// The item at an index.
fn item(coming: &[Coming], index: usize) -> Coming
    requires { index < length coming.now }
    ensures { slice_get coming.now index ≡ Some result }
{
    coming[index]
}

/// Lets the rows pass in their order, up to the first that breaks a rule.
fn pass_rows<const B: usize>(
    events: &[Event<B>],
    results: &Results<B>,
    banks: &[u8],
    rules: &Rules,
    found: &Found,
    coming: &[Coming],
    kept: &mut KeptRows<B>,
) -> Result<Verdict, AllocError>
    requires small { B ≤ 128 }
    requires within { AreWithin rules.now }
    requires few { length events.now ≤ 400_000 }
    requires rows { length results.now ≡ length events.now }
    requires table { IsTable (length banks.now) (rows_with events.now results.now) }
    requires found { IsFound banks.now (rows_with events.now results.now) found.now }
    requires coming { coming.now ≡ coming_of banks.now (rows_with events.now results.now) }
    requires begun { GoesOn rules.now banks.now (rows_with events.now results.now) 0 found.now 0
        kept.old.banks.items kept.old.joined kept.old.lines.items }
    ensures exact { IfOk result (λ verdict. verdict
        ≡ verdict_of rules.now banks.now (rows_with events.now results.now)) }
{
    let mut cuts = 0;
    for (i, event) in events.iter().enumerate() {
        let row = i as u32 + 1;
        let outcome = results.get(row);
        cuts = cuts_with(cuts, &event.op);
        let behind = cuts_behind(&found.cuts, cuts);
        let ahead = item(coming, events.len() - 1 - i);
        let grounds = JudgingGrounds {
            rules,
            banks,
            keys: &found.keys,
            coming: ahead,
            cuts: behind,
        };
        let broken = kept.take(grounds, event, outcome)?;
        if let Some(rule) = broken {
            return Ok(Verdict::No { row, rule });
        }
    }
    Ok(Verdict::Yes)
}

/// The verdict on a trace and its results, where item l of `banks` is the bank of line l. Yes comes exactly where each row
/// keeps each rule, and No names the lowest row that doesn't, counted from 1, and the first rule that it breaks
/// (`check_verdict::verdicts_are_exact`).
pub fn check<const B: usize>(
    alloc: Global,
    events: &[Event<B>],
    results: &Results<B>,
    banks: &[u8],
    rules: &Rules,
) -> Result<Verdict, AllocError>
    requires small { B ≤ 128 }
    requires checkable { IsCheckable events.now results.now banks.now rules.now }
    ensures exact { IfOk result (λ verdict. verdict
        ≡ verdict_of rules.now banks.now (rows_with events.now results.now)) }
{
    let found = Found::of(alloc, events, results, banks)?;
    let coming = look_ahead(alloc, events, results, banks)?;
    let mut kept = KeptRows::new(alloc, banks)?;
    pass_rows(events, results, banks, rules, &found, &coming, &mut kept)
}
