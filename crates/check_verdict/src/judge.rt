//! The verdict on one row, by what is kept of its bank and known of the rows behind it.

ghost use Rattle.std.specs.Prelude.{◌≡◌, ◌+◌, ◌<◌, ◌≤◌, ◌-◌, length, IsTrue, IfSome};
ghost use Rattle.std.specs.List.Sorted.{IsNonDecreasing};
ghost use Rattle.row_rules.specs.Queueing as queueing;
ghost use Rattle.check_judging.specs.Keys as spec;
ghost use Rattle.check_judging.specs.Keys.{reach, is_short};
ghost use Rattle.check_verdict.specs.Ahead.{four_kept, latest_kept, at_store};
ghost use Rattle.check_verdict.specs.Banks.{facts_of};
ghost use Rattle.check_verdict.specs.Fitting.{at_head_kept};
ghost use Rattle.check_verdict.specs.Judged.{a_row, first_broken};
ghost use Rattle.check_verdict.specs.Keeping.{write_timely};
ghost use Rattle.check_verdict.specs.RowVerdicts.{AreUsable, is_apart, write_verdict, read_verdict};
ghost use Rattle.check_verdict.specs.Within.{AreWithin};
ghost use Rattle.trace_rows.specs.Rows.{asks_of};

use crate::Rule;
use crate::bank::CheckedBank;
use crate::judging::lies_apart;
use crate::keys::{between, key, up_to};
use crate::known::{Arrival, JudgingGrounds, Keys};
use crate::lines::{CheckedLine, is_covered};
use crate::members::Member;
use crate::queue::{is_at_head, write_fits};
use crate::reads::{read_fits, read_in_time};
use crate::serving::may_have;
use crate::timing::{bound, longest};
use crate::wearing::keeps_worn;
use result_rows::Outcome;
use row_rules::Rules;
use trace_reader::EventOp;

/// The first rule that is broken, by whether a row is served, each bank has room, and its answer, wear and times are as they must be.
fn first_broken(served: bool, room: bool, fits: bool, keeps: bool, timely: bool) -> Option<Rule>
    ensures { result ≡ first_broken served room fits keeps timely }
{
    if !served {
        Some(Rule::Serves)
    } else if !(room && fits) {
        Some(Rule::Queue)
    } else if !keeps {
        Some(Rule::Worn)
    } else if !timely {
        Some(Rule::Tick)
    } else {
        None
    }
}

/// How many of these few keys lie above one and up to another.
fn number_between(keys: &[u64], above: u64, to: u64) -> u64
    requires sorted { IsNonDecreasing keys.now }
    requires order { above ≤ to }
    requires few { length keys.now ≤ 400_000 }
    ensures value { result ≡ spec.up_to to keys.now - spec.up_to above keys.now }
    ensures bound { result ≤ 400_000 }
{
    between(keys, above, to) as u64
}

/// The latest tick for a write that arrived at one tick and is stored at another.
fn latest_store(rules: &Rules, bank: u8, arrived: u64, at: u64, keys: &Keys, cuts: &[u64]) -> u64
    requires within { AreWithin rules.now }
    requires keys { AreUsable keys.now }
    requires cuts { IsNonDecreasing cuts.now }
    requires few { length cuts.now ≤ 400_000 }
    requires order { arrived ≤ at }
    requires short { at < reach }
    ensures { let stores = keys.now.stores.items in
        result ≡ latest_kept rules.now stores keys.now.reads.items cuts.now bank arrived at }
{
    let from = key(bank, arrived);
    let to = key(bank, at);
    let stored = number_between(&keys.stores, from, to);
    let read = number_between(&keys.reads, from, to);
    arrived + longest(rules, stored, read, up_to(cuts, at) as u64)
}

/// Whether a write that arrived at a tick is stored behind it, and in time.
fn write_in_time<const B: usize>(
    rules: &Rules,
    bank: u8,
    arrived: u64,
    keys: &Keys,
    cuts: &[u64],
    outcome: &Outcome<B>,
) -> bool
    requires within { AreWithin rules.now }
    requires keys { AreUsable keys.now }
    requires cuts { IsNonDecreasing cuts.now }
    requires few { length cuts.now ≤ 400_000 }
    requires short { IsTrue (is_short outcome.now) }
    ensures { let stores = keys.now.stores.items in
        let by = latest_kept rules.now stores keys.now.reads.items cuts.now bank arrived in
        result ≡ write_timely arrived (at_store by outcome.now) outcome.now }
{
    match outcome {
        Outcome::Stored { tick, .. } => {
            arrived < *tick && *tick <= latest_store(rules, bank, arrived, *tick, keys, cuts)
        }
        _ => true,
    }
}

/// Whether no store of a bank lies between the fourth last arrival of a read and this tick.
fn four_came(stores: &[u64], bank: u8, tick: u64, fourth: Option<u64>) -> bool
    requires stores { IsNonDecreasing stores.now }
    requires short { tick < reach }
    requires fourth { IfSome fourth (λ d. d < reach) }
    ensures { result ≡ four_kept stores.now bank tick fourth }
{
    match fourth {
        Some(came) => up_to(stores, key(bank, came)) == up_to(stores, key(bank, tick)),
        None => false,
    }
}

/// What the queue and the reads that wait say of a read's answer, by how many may wait and how many do.
fn read_fits_queue<const B: usize>(
    reads: u32,
    count: u32,
    covered: bool,
    lines: &[u128],
    members: &[Member],
    row: Arrival,
    outcome: &Outcome<B>,
) -> bool
    requires { IsNonDecreasing lines.now }
    ensures { let at_head = at_head_kept lines.now row.line row.tick members.now in
        result ≡ queueing.read_fits reads count covered at_head outcome.now }
{
    match outcome {
        Outcome::Forwarded { .. } => covered || is_at_head(lines, row.line, row.tick, members),
        _ => read_fits(reads, count, covered, false, outcome),
    }
}

/// Whether a row's action lies apart from those that its bank still knows of.
fn is_apart<const B: usize>(read: u32, bank: &CheckedBank, outcome: &Outcome<B>) -> bool
    requires { IsTrue (is_short outcome.now) }
    ensures { result ≡ is_apart read (facts_of bank.now) outcome.now }
{
    lies_apart(
        &bank.members,
        &bank.waits,
        bank.last_answer,
        bank.last_store,
        read,
        outcome,
    )
}

/// The verdict on a write, by the number of its line's bank, what is kept of that bank, and the line's newest bytes.
pub fn judge_write<const B: usize>(
    grounds: JudgingGrounds,
    number: u8,
    bank: &CheckedBank,
    newest: &[u8; B],
    row: Arrival,
    op: &EventOp<B>,
    outcome: &Outcome<B>,
) -> Option<Rule>
    requires within { AreWithin grounds.rules.now }
    requires keys { AreUsable grounds.keys.now }
    requires cuts { IsNonDecreasing grounds.cuts.now }
    requires few { length grounds.cuts.now ≤ 400_000 }
    requires short { IsTrue (is_short outcome.now) }
    ensures { let rules = grounds.entry.rules.now in
        let r = a_row row.tick (asks_of op.now) outcome.now in
        result ≡ write_verdict rules number (facts_of bank.now) newest.now row.line r row.room
        grounds.entry.keys.now grounds.entry.coming grounds.entry.cuts.now }
{
    let rules = grounds.rules;
    let next = grounds.coming.next;
    let served = may_have(row.tick, op, newest, outcome);
    let fits = write_fits(
        rules.writes,
        row.tick,
        row.line,
        &bank.members,
        next,
        outcome,
    );
    let keeps = keeps_worn(bank.worn, grounds.coming.worn, outcome);
    let in_time = write_in_time(rules, number, row.tick, grounds.keys, grounds.cuts, outcome);
    let apart = is_apart(rules.read_ticks, bank, outcome);
    first_broken(served, row.room, fits, keeps, in_time && apart)
}

/// The verdict on a read, by the number of its line's bank, and what is kept of that bank and of the line.
pub fn judge_read<const B: usize>(
    grounds: JudgingGrounds,
    number: u8,
    bank: &CheckedBank,
    line: &CheckedLine<B>,
    row: Arrival,
    op: &EventOp<B>,
    outcome: &Outcome<B>,
) -> Option<Rule>
    requires within { AreWithin grounds.rules.now }
    requires keys { AreUsable grounds.keys.now }
    requires arrived { row.tick < reach }
    requires fourth { IfSome bank.now.fourth (λ came. came < reach) }
    requires few { length bank.now.waits.items + bank.now.lost ≤ 400_000 }
    requires short { IsTrue (is_short outcome.now) }
    ensures { let rules = grounds.entry.rules.now in
        let r = a_row row.tick (asks_of op.now) outcome.now in
        result ≡ read_verdict rules number (facts_of bank.now) line.now row.line r row.room
        grounds.entry.keys.now grounds.entry.coming grounds.entry.cuts.now }
{
    let rules = grounds.rules;
    let keys = grounds.keys;
    let served = may_have(row.tick, op, &line.newest, outcome);
    let count = bank.waits.len() as u32 + bank.lost;
    let covered = is_covered(row.tick, grounds.coming.soonest, &line.unclosed, &line.runs);
    let fits = read_fits_queue(
        rules.reads,
        count,
        covered,
        &keys.lines,
        &bank.members,
        row,
        outcome,
    );
    let four = four_came(&keys.stores, number, row.tick, bank.fourth);
    let latest = bound(rules, row.tick, count as u64, four);
    let first_cut = grounds.cuts.first().copied();
    let in_time = read_in_time(row.tick, rules.read_ticks, latest, first_cut, outcome);
    let apart = is_apart(rules.read_ticks, bank, outcome);
    first_broken(served, row.room, fits, true, in_time && apart)
}
