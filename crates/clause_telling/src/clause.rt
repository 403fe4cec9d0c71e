//! The first clause of a rule that a row breaks, by what it finds.

ghost use Rattle.std.specs.Prelude.{◌≡◌, ◌<◌, ◌+◌, ◌^◌, ◌||◌, not, nat_le, nat_lt, Option};
ghost use Rattle.row_rules.specs.Answers as answers;
ghost use Rattle.check_verdict.specs.Keeping as keeping;
ghost use Rattle.check_telling.specs.Clauses as clauses;
ghost use Rattle.check_telling.specs.Grounds.{grounds_of};
ghost use Rattle.check_telling.specs.Standing.{tick_at};
ghost use Rattle.check_verdict.specs.Within.{AreWithin};
ghost use Rattle.clause_telling.specs.ByFinds as finds;

use check_telling::Clause;
use check_telling::facts::RowAt;
use check_telling::grounds::Grounds;
use check_verdict::Rule;
use result_rows::Outcome;
use row_rules::Rules;

/// Whether an outcome is one of a read.
fn is_of_read<const B: usize>(outcome: &Outcome<B>) -> bool
    ensures { result ≡ finds.is_of_read outcome.now }
{
    match outcome {
        Outcome::Read { .. }
        | Outcome::Forwarded { .. }
        | Outcome::Busy { .. }
        | Outcome::Lost { .. } => true,
        _ => false,
    }
}

/// Whether it is one of a write.
fn is_of_write<const B: usize>(outcome: &Outcome<B>) -> bool
    ensures { result ≡ finds.is_of_write outcome.now }
{
    match outcome {
        Outcome::Stored { .. } | Outcome::Merged { .. } | Outcome::Queued { .. } => true,
        Outcome::Full { .. } | Outcome::Worn { .. } => true,
        _ => false,
    }
}

/// Whether it is one of a cut.
fn is_of_cut<const B: usize>(outcome: &Outcome<B>) -> bool
    ensures { result ≡ finds.is_of_cut outcome.now }
{
    matches!(outcome, Outcome::Cut { .. })
}

/// Whether an outcome has a row's own tick, where it is decided at the row's arrival, or never.
fn has_own_tick<const B: usize>(tick: u64, outcome: &Outcome<B>) -> bool
    ensures { result ≡ clauses.has_own_tick tick outcome.now }
{
    match outcome {
        Outcome::Queued { tick: at } | Outcome::Full { tick: at } | Outcome::Worn { tick: at } =>
            *at == tick,
        Outcome::Busy { tick: at } | Outcome::Cut { tick: at } => *at == tick,
        Outcome::Forwarded { tick: at, .. } => *at == tick,
        _ => true,
    }
}

/// The clause of the first rule that a row breaks, where its outcome is of its operation or isn't.
fn serves_clause<const B: usize>(of_op: bool, tick: u64, outcome: &Outcome<B>) -> Clause
    ensures { result ≡ finds.serves_clause of_op tick outcome.now }
{
    if !of_op {
        Clause::OfItsOperation
    } else if !has_own_tick(tick, outcome) {
        Clause::AtItsTick
    } else {
        Clause::NewestBytes
    }
}

fn is_forwarded<const B: usize>(outcome: &Outcome<B>) -> bool
    ensures { result ≡ answers.is_forwarded outcome.now }
{
    matches!(outcome, Outcome::Forwarded { .. })
}

fn is_busy<const B: usize>(outcome: &Outcome<B>) -> bool
    ensures { result ≡ answers.is_busy outcome.now }
{
    matches!(outcome, Outcome::Busy { .. })
}

fn is_full<const B: usize>(outcome: &Outcome<B>) -> bool
    ensures { result ≡ answers.is_full outcome.now }
{
    matches!(outcome, Outcome::Full { .. })
}

fn is_worn<const B: usize>(outcome: &Outcome<B>) -> bool
    ensures { result ≡ answers.is_worn outcome.now }
{
    matches!(outcome, Outcome::Worn { .. })
}

/// Whether a read is forwarded where the queue gives every byte.
fn forwards<const B: usize>(covered: bool, at_head: bool, full: bool, outcome: &Outcome<B>) -> bool
    ensures { result ≡ clauses.forwards covered at_head full outcome.now }
{
    !covered || is_forwarded(outcome)
}

/// Whether it is so only there, or where its line is at the head.
fn forwards_only<const B: usize>(
    covered: bool,
    at_head: bool,
    full: bool,
    outcome: &Outcome<B>,
) -> bool
    ensures { result ≡ clauses.forwards_only covered at_head full outcome.now }
{
    !is_forwarded(outcome) || covered || at_head
}

/// Whether another is busy where as many wait as may.
fn refuses<const B: usize>(covered: bool, at_head: bool, full: bool, outcome: &Outcome<B>) -> bool
    ensures { result ≡ clauses.refuses covered at_head full outcome.now }
{
    covered || is_forwarded(outcome) || !full || is_busy(outcome)
}

/// The clause of a read's rule on the queue, where the banks have room or not.
fn read_queue_clause<const B: usize>(
    room: bool,
    covered: bool,
    at_head: bool,
    full: bool,
    outcome: &Outcome<B>,
) -> Clause
    ensures { result ≡ finds.read_queue_clause room covered at_head full outcome.now }
{
    if !room {
        Clause::Room
    } else if !forwards(covered, at_head, full, outcome) {
        Clause::Forwarded
    } else if !forwards_only(covered, at_head, full, outcome) {
        Clause::ForwardedOnly
    } else if !refuses(covered, at_head, full, outcome) {
        Clause::Busy
    } else {
        Clause::BusyOnly
    }
}

/// Whether a tick is no later than that of the first cut, if there is one.
fn before_cut(tick: u64, cut: &Option<RowAt>) -> bool
    ensures { result ≡ keeping.before_cut tick (tick_at cut.now) }
{
    match cut {
        Some(cut) => tick <= cut.tick,
        None => true,
    }
}

/// Whether it is that of the first cut.
fn at_cut(tick: u64, cut: &Option<RowAt>) -> bool
    ensures { result ≡ keeping.at_cut tick (tick_at cut.now) }
{
    match cut {
        Some(cut) => cut.tick == tick,
        None => false,
    }
}

/// The clause of the rule on ticks that a read breaks which is read at a tick.
fn answered_clause(soonest: u64, by: u64, cut: &Option<RowAt>, at: u64) -> Clause
    ensures { result ≡ finds.answered_clause soonest by (tick_at cut.now) at }
{
    if at < soonest {
        Clause::NotTooEarly
    } else if by < at {
        Clause::NotTooLate
    } else if !before_cut(at, cut) {
        Clause::ReadBeforeCut
    } else {
        Clause::Apart
    }
}

/// That which one breaks that is lost.
fn lost_clause(by: u64, cut: &Option<RowAt>, at: u64) -> Clause
    ensures { result ≡ finds.lost_clause by (tick_at cut.now) at }
{
    if !at_cut(at, cut) {
        Clause::LostAtCut
    } else if by <= at {
        Clause::LostInTime
    } else {
        Clause::Apart
    }
}

/// The clause of a read's rule on ticks.
fn read_tick_clause<const B: usize>(
    soonest: u64,
    by: u64,
    cut: &Option<RowAt>,
    outcome: &Outcome<B>,
) -> Clause
    ensures { result ≡ finds.read_tick_clause soonest by (tick_at cut.now) outcome.now }
{
    match outcome {
        Outcome::Read { tick: at, .. } => answered_clause(soonest, by, cut, *at),
        Outcome::Lost { tick: at } => lost_clause(by, cut, *at),
        _ => Clause::Apart,
    }
}

/// The first clause of a rule that a read breaks, where it breaks the rule.
pub fn read_clause<const B: usize>(
    rules: &Rules,
    tick: u64,
    grounds: &Grounds<B>,
    room: bool,
    outcome: &Outcome<B>,
    rule: Rule,
) -> Clause
    requires { tick < 2 ^ 50 }
    ensures { result
        ≡ finds.read_clause rules.now tick (grounds_of grounds.now) room outcome.now rule }
{
    match rule {
        Rule::Serves => serves_clause(is_of_read(outcome), tick, outcome),
        Rule::Queue => {
            read_queue_clause(
                room,
                grounds.covered,
                grounds.at_head,
                grounds.full,
                outcome,
            )
        }
        Rule::Worn => Clause::StoredBeforeWorn,
        Rule::Tick => {
            read_tick_clause(
                tick + rules.read_ticks as u64,
                grounds.by,
                &grounds.cut,
                outcome,
            )
        }
    }
}

/// The clause of a write's rule on the queue, where the banks have room or not.
fn write_queue_clause<const B: usize>(
    room: bool,
    full: bool,
    alone: bool,
    outcome: &Outcome<B>,
) -> Clause
    ensures { result ≡ finds.write_queue_clause room full alone outcome.now }
{
    if !room {
        Clause::Room
    } else if is_full(outcome) && !full {
        Clause::FullWhereFull
    } else if is_full(outcome) && !alone {
        Clause::FullWhereAlone
    } else {
        Clause::MergedIntoNext
    }
}

/// That of its rule on worn rows.
fn write_worn_clause<const B: usize>(worn_out: bool, outcome: &Outcome<B>) -> Clause
    ensures { result ≡ finds.write_worn_clause worn_out outcome.now }
{
    if worn_out && !is_worn(outcome) {
        Clause::WornBehindWorn
    } else {
        Clause::StoredBeforeWorn
    }
}

/// That of its rule on ticks, where it could be stored up to a latest one.
fn write_tick_clause<const B: usize>(tick: u64, late: u64, outcome: &Outcome<B>) -> Clause
    ensures { result ≡ finds.write_tick_clause tick late outcome.now }
{
    match outcome {
        Outcome::Stored { tick: at, .. } if *at <= tick => Clause::NotTooEarly,
        Outcome::Stored { tick: at, .. } if late < *at => Clause::NotTooLate,
        _ => Clause::Apart,
    }
}

/// The first clause of a rule that a write breaks, where it breaks the rule.
pub fn write_clause<const B: usize>(
    tick: u64,
    room: bool,
    full: bool,
    alone: bool,
    worn_out: bool,
    late: u64,
    outcome: &Outcome<B>,
    rule: Rule,
) -> Clause
    ensures { result
        ≡ finds.write_clause tick room full alone worn_out late outcome.now rule }
{
    match rule {
        Rule::Serves => serves_clause(is_of_write(outcome), tick, outcome),
        Rule::Queue => write_queue_clause(room, full, alone, outcome),
        Rule::Worn => write_worn_clause(worn_out, outcome),
        Rule::Tick => write_tick_clause(tick, late, outcome),
    }
}

/// The first clause of a rule that a cut breaks, where it breaks the rule.
pub fn cut_clause<const B: usize>(tick: u64, outcome: &Outcome<B>, rule: Rule) -> Clause
    ensures { result ≡ finds.cut_clause tick outcome.now rule }
{
    match rule {
        Rule::Serves => serves_clause(is_of_cut(outcome), tick, outcome),
        Rule::Queue => Clause::Room,
        Rule::Worn => Clause::StoredBeforeWorn,
        Rule::Tick => Clause::Apart,
    }
}
