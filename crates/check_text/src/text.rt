//! The verdict on a text.
ghost use Rattle.std.specs.Prelude.{◌≡◌, ◌≤◌, Ok, IfOk, IfErr, length, vec_len};
ghost use Rattle.trace_reader.specs.Events.{AreEventsFor};
ghost use Rattle.trace_reader.specs.Trace.{trace_of};
ghost use Rattle.module_shape.specs.Limits.{total_of};
ghost use Rattle.check_reader.specs.ResultRows.{AreResults, EachMayStand};
ghost use Rattle.check_text.specs.Checked.{HasVerdict, IsResultsFault, IsTextFault, IsTraceFault, asks_in, verdict_on};

use crate::asks::asks;
use crate::banks::banks;
use crate::fault::TextFault;
use crate::rules::rules;
use check_reader::{find_results, parse_results};
use module_shape::Shape;
use result_check::{Verdict, check};
use result_rows::Results;
use std::alloc::Global;
use trace_reader::{Event, MOST_ROWS, parse};

/// The trace of a text, up to its results.
pub fn trace<const B: usize>(
    alloc: Global,
    bytes: &[u8],
    lines: u32,
) -> Result<Vec<Event<B>>, TextFault>
    requires lines { 1 ≤ lines }
    requires size { B ≤ 128 }
    ensures ok { IfOk result (λ events. trace_of B lines bytes.now ≡ Ok events.items) }
    ensures events { IfOk result (λ events. AreEventsFor lines 0 events.items) }
    ensures rows { IfOk result (λ events. vec_len events ≤ MOST_ROWS) }
    ensures fault { IfErr result (IsTraceFault (trace_of B lines bytes.now)) }
{
    Ok(parse(alloc, bytes, lines)?)
}

/// The results of these events.
pub fn results<const B: usize>(
    alloc: Global,
    bytes: &[u8],
    events: &[Event<B>],
) -> Result<Results<B>, TextFault>
    requires some_size { 1 ≤ B }
    requires size { B ≤ 128 }
    requires rows { length events.now ≤ MOST_ROWS }
    ensures ok { IfOk result (λ results. AreResults (asks_in events.now) bytes.now results) }
    ensures rows { IfOk result (λ results. length results ≡ length events.now) }
    ensures fault { IfErr result (IsResultsFault B (asks_in events.now) bytes.now) }
{
    let asks = asks(alloc, events)?;
    Ok(parse_results(alloc, bytes, asks.as_slice())?)
}

// The verdict on these events and results.
fn judge<const B: usize, const E: usize>(
    alloc: Global,
    events: &[Event<B>],
    results: &Results<B>,
    shape: &Shape,
    seed: u64,
) -> Result<Verdict, TextFault>
    requires size { B ≤ 128 }
    requires few { E ≤ 8 }
    requires events { AreEventsFor (total_of shape.now) 0 events.now }
    requires rows { length events.now ≤ MOST_ROWS }
    requires one_each { length results.now ≡ length events.now }
    requires may_stand { EachMayStand (asks_in events.now) results.now }
    ensures exact { IfOk result (λ verdict. verdict
        ≡ verdict_on E shape.now seed events.now results.now) }
    ensures memory { IfErr result (λ fault. fault ≡ TextFault.NoMemory) }
{
    let banks = banks(alloc, shape, seed)?;
    let rules = rules::<E>(shape);
    Ok(check(alloc, events, results, banks.as_slice(), &rules)?)
}

/// Whether the results that stand behind a trace are ones that a module of this shape may give of it, whose randomiser has this
/// seed. A line has `B` bytes and `E` error-correcting pointers.
pub fn check_text<const B: usize, const E: usize>(
    alloc: Global,
    bytes: &[u8],
    shape: &Shape,
    seed: u64,
) -> Result<Verdict, TextFault>
    requires some_size { 1 ≤ B }
    requires size { B ≤ 128 }
    requires few { E ≤ 8 }
    ensures verdict { IfOk result (HasVerdict B E shape.now seed bytes.now) }
    ensures fault { IfErr result (IsTextFault B shape.now bytes.now) }
{
    let at = find_results(bytes);
    let events = trace(alloc, &bytes[..at], shape.total())?;
    let results = results(alloc, &bytes[at..], events.as_slice())?;
    judge::<B, E>(alloc, events.as_slice(), &results, shape, seed)
}
