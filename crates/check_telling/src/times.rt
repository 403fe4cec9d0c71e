//! When a read may end, and a write.

ghost use Rattle.std.specs.Prelude.{◌≡◌, ◌<◌, ◌≤◌, ◌^◌, ◌+◌, ◌*◌, ◌++◌, if◌then◌else◌, nat_lt, max, length, reverse, count_by, []};
ghost use Rattle.row_rules.specs.Queueing as queueing;
ghost use Rattle.row_rules.specs.Rows as row_rules;
ghost use Rattle.row_rules.specs.Ticking as ticking;
ghost use Rattle.check_verdict.specs.Within.{AreWithin};
ghost use Rattle.check_telling.specs.Standing.{rows_of};
ghost use Rattle.check_telling.specs.Steps.{came_from};
ghost use Rattle.check_telling.specs.WriteGrounds.{IsBound};

use crate::facts::StoreBound;
use crate::mates::Numbered;
use bank_shape::Policy;
use result_rows::Outcome;
use row_rules::{Asks, Row, Rules};

/// The longest time of one attempt to write a line.
fn attempt(rules: &Rules) -> u64
    requires { AreWithin rules.now }
    ensures value { result ≡ ticking.attempt rules.now }
    ensures bound { result ≤ 53_295 }
{
    rules.read_ticks as u64 + rules.steps as u64 * rules.iter_ticks as u64
}

/// The later of a tick and that at which a write is stored, if it is so up to another tick.
fn store_up_to<const B: usize>(row: &Row<B>, to: u64, found: u64) -> u64
    ensures { result ≡ (if row_rules.asks_write row.now.asks
        then ticking.store_up_to to row.now.outcome found else found) }
{
    match (&row.asks, &row.outcome) {
        (Asks::Writes { .. }, Outcome::Stored { tick, .. }) if *tick <= to => found.max(*tick),
        _ => found,
    }
}

/// The greatest tick up to another at which a write of these rows, the oldest first, is stored, or 0.
fn last_store_behind<const B: usize>(later: &[Numbered<B>], to: u64) -> u64
    ensures { result ≡ ticking.last_store to (rows_of later.now) }
{
    let mut found = 0;
    for index in (0..later.len()).rev() {
        found = store_up_to(&later[index].row, to, found);
    }
    found
}

/// The same over rows before a row and behind it, the oldest first.
fn last_store<const B: usize>(past: &[Numbered<B>], later: &[Numbered<B>], to: u64) -> u64
    ensures { result
        ≡ ticking.last_store to (reverse (rows_of past.now) ++ rows_of later.now) }
{
    let mut found = last_store_behind(later, to);
    for one in past {
        found = store_up_to(&one.row, to, found);
    }
    found
}

/// Whether a row is a read that came at a tick or later, and is read or lost.
fn came<const B: usize>(one: &Numbered<B>, from: u64) -> bool
    ensures { result ≡ came_from from one.now }
{
    match (&one.row.asks, &one.row.outcome) {
        (Asks::Reads { .. }, Outcome::Read { .. } | Outcome::Lost { .. }) => from <= one.row.tick,
        _ => false,
    }
}

/// How many of these rows are such reads.
fn count_came<const B: usize>(past: &[Numbered<B>], from: u64) -> usize
    ensures { result ≡ count_by (came_from from) past.now }
{
    past.iter()
        .filter(
            |one: &&Numbered<B>| -> bool
                ensures { result ≡ came_from from one.now.now }
            { came(one, from) },
        )
        .count()
}

/// How many reads of these rows came at a tick or later, and are read or lost.
fn came_since<const B: usize>(past: &[Numbered<B>], from: u64) -> usize
    ensures { result ≡ ticking.came_since from (reverse (rows_of past.now)) }
{
    count_came(past, from)
}

/// The longer of a serve and an iteration.
fn longer(rules: &Rules) -> u64
    requires { AreWithin rules.now }
    ensures value { result ≡ max rules.now.read_ticks rules.now.iter_ticks }
    ensures bound { result ≤ 255 }
{
    (rules.read_ticks as u64).max(rules.iter_ticks as u64)
}

/// That time, or nothing where fewer than four reads came since the last store up to a tick.
fn cancel_delay<const B: usize>(
    one: u64,
    tick: u64,
    past: &[Numbered<B>],
    later: &[Numbered<B>],
) -> u64
    ensures value { result ≡ (if nat_lt (ticking.came_since
        (ticking.last_store tick (reverse (rows_of past.now) ++ rows_of later.now))
        (reverse (rows_of past.now))) 4 then 0 else one) }
    ensures bound { result ≤ one }
{
    if came_since(past, last_store(past, later, tick)) < 4 {
        0
    } else {
        one
    }
}

/// How long a read may find its bank busy with something else than reads.
pub fn delay<const B: usize>(
    rules: &Rules,
    tick: u64,
    past: &[Numbered<B>],
    later: &[Numbered<B>],
) -> u64
    requires { AreWithin rules.now }
    ensures value { result ≡ ticking.delay rules.now rules.now.policy tick
        (reverse (rows_of past.now)) (rows_of later.now) }
    ensures bound { result ≤ 53_295 }
{
    match rules.policy {
        Policy::Pause => longer(rules),
        Policy::Plain => attempt(rules),
        Policy::Cancel => cancel_delay(longer(rules), tick, past, later),
    }
}

/// The tick by which a read that arrives at another has ended, behind so many that wait.
pub fn bound<const B: usize>(
    rules: &Rules,
    tick: u64,
    waiting: u64,
    past: &[Numbered<B>],
    later: &[Numbered<B>],
) -> u64
    requires within { AreWithin rules.now }
    requires arrived { tick < 2 ^ 50 }
    requires few { waiting ≤ 400_000 }
    requires waits { waiting ≡ length (queueing.waiting tick [] (reverse (rows_of past.now))) }
    ensures value { result
        ≡ ticking.bound rules.now tick (reverse (rows_of past.now)) (rows_of later.now) }
    ensures bound { result < 2 ^ 51 }
{
    tick + delay(rules, tick, past, later) + (waiting + 1) * rules.read_ticks as u64
}

/// How long all tries to write a line may take.
fn all_tries(rules: &Rules) -> u64
    requires { AreWithin rules.now }
    ensures value { result ≡ ticking.tries rules.now.policy * ticking.attempt rules.now }
    ensures bound { result ≤ 266_475 }
{
    match rules.policy {
        Policy::Cancel => 5 * attempt(rules),
        _ => attempt(rules),
    }
}

/// How many line writes an event brings.
fn writings(rules: &Rules) -> u64
    ensures value { result ≡ ticking.writings rules.now.twice }
    ensures bound { result ≤ 2 }
{
    if rules.twice { 2 } else { 1 }
}

/// The product of two numbers.
fn times(number: u64, other: u64) -> u64
    requires left { number < 2 ^ 31 }
    requires right { other < 2 ^ 31 }
    ensures value { result ≡ number * other }
    ensures bound { result < 2 ^ 62 }
{
    number * other
}

/// The longest time until a write is stored, in which some writes are stored, some reads are read and some cuts come.
pub fn longest(rules: &Rules, stores: u64, reads: u64, cuts: u64) -> u64
    requires within { AreWithin rules.now }
    requires stores { stores ≤ 400_000 }
    requires reads { reads ≤ 400_000 }
    requires cuts { cuts ≤ 400_000 }
    ensures value { result ≡ ticking.longest rules.now stores reads cuts }
    ensures bound { result < 2 ^ 63 }
{
    let once = all_tries(rules);
    let each = writings(rules) * (2 * stores + rules.spares as u64) + cuts;
    times(once, each) + times(rules.read_ticks as u64, 2 * reads + cuts)
}

/// By when a write is stored.
pub fn store_bound(rules: &Rules) -> StoreBound
    requires { AreWithin rules.now }
    ensures { IsBound rules.now result }
{
    let once = all_tries(rules);
    let each = writings(rules);
    StoreBound {
        alone: times(once, each * (2 + rules.spares as u64)),
        a_store: times(once, each * 2),
        a_read: 2 * rules.read_ticks as u64,
        a_cut: once + rules.read_ticks as u64,
    }
}
