//! What the queue holds, and what it says of a row's answer, by the members that are kept of a bank.

ghost use Rattle.std.specs.Prelude.{◌≡◌, ◌==◌, ◌&&◌, ◌||◌, ◌++◌, [], ◌∷◌, not, nat_le, nat_lt, count_by};
ghost use Rattle.std.specs.List.{list_all, list_any};
ghost use Rattle.std.specs.List.Sorted.{IsNonDecreasing};
ghost use Rattle.check_verdict.specs.Covering.{comes_by};
ghost use Rattle.check_verdict.specs.Fitting as spec;
ghost use Rattle.check_verdict.specs.Members.{never};

use crate::keys::{line_key, next_key};
use crate::members::{Member, NEVER};
use result_rows::Outcome;

/// Whether a member is of this line.
fn is_of(member: &Member, line: u32) -> bool
    ensures { result ≡ spec.is_of line member.now }
{
    member.line == line
}

/// How many of these are of a line.
fn count_of(members: &[Member], line: u32) -> usize
    ensures { result ≡ count_by (spec.is_of line) members.now }
{
    members
        .iter()
        .filter(
            |member: &&Member| -> bool
                ensures { result ≡ spec.is_of line member.now.now }
            { member.line == line },
        )
        .count()
}

/// Whether none of these is stored before a member leaves.
fn leaves_first(all: &[Member], older: &Member) -> bool
    ensures { result ≡ spec.leaves_first all.now older.now }
{
    all.iter().all(|member| older.leave <= member.end)
}

/// Whether the older of two members of one line came before the newer, isn't merged, and leaves first.
fn precedes(all: &[Member], newer: &Member, older: &Member) -> bool
    ensures { result ≡ spec.precedes all.now newer.now older.now }
{
    older.arrived < newer.arrived && !older.merged && leaves_first(all, older)
}

/// Whether a member is of another line than the newest, or precedes it.
fn is_apart_or_precedes(all: &[Member], newest: &Member, other: &Member) -> bool
    ensures { result
        ≡ (not (spec.is_of newest.now.line other.now)
        || spec.precedes all.now newest.now other.now) }
{
    other.line != newest.line || precedes(all, newest, other)
}

/// Whether each of these is of another line than the newest, or precedes it.
fn all_precede(all: &[Member], newest: &Member, others: &[Member]) -> bool
    ensures { result ≡ list_all (λ o. not (spec.is_of newest.now.line o)
        || spec.precedes all.now newest.now o) others.now }
{
    others
        .iter()
        .all(|other| is_apart_or_precedes(all, newest, other))
}

/// Whether a tick is that of nothing that happens.
fn is_never(tick: u64) -> bool
    ensures { result ≡ (tick == never) }
{
    tick == NEVER
}

/// Whether a member is stored by this tick.
fn ends_by(member: &Member, tick: u64) -> bool
    ensures { result ≡ nat_le member.now.end tick }
{
    member.end <= tick
}

/// Whether one of these is stored by this tick. The newest are looked at first.
fn some_end_by(members: &[Member], tick: u64) -> bool
    ensures { result ≡ list_any (λ m. nat_le m.end tick) members.now }
{
    for index in (0..members.len()).rev() {
        if ends_by(&members[index], tick) {
            return true;
        }
    }
    false
}

/// Whether a member isn't stored before all of these.
fn follows(newest: &Member, others: &[Member]) -> bool
    ensures { result ≡ spec.follows newest.now others.now }
{
    is_never(newest.end) || some_end_by(others, newest.end)
}

/// Whether the newest member finds at most one other of its line, which precedes it, and isn't stored first where two of a line
/// stand. So many of all have a later one of their line: where none has, no other is looked at.
fn joins_well(all: &[Member], newest: &Member, others: &[Member], twins: usize) -> bool
    requires { twins ≡ spec.twins_in (others.now ++ newest.now ∷ []) }
    ensures { result ≡ spec.joins_well all.now newest.now others.now }
{
    if twins == 0 {
        return true;
    }
    match count_of(others, newest.line) {
        0 => follows(newest, others),
        1 => all_precede(all, newest, others) && (twins == 1 || follows(newest, others)),
        _ => false,
    }
}

/// Whether these members are in order, where all but the newest are.
fn in_order(members: &[Member], twins: usize) -> bool
    requires { twins ≡ spec.twins_in members.now }
    ensures { result ≡ spec.in_order members.now }
{
    match members.last() {
        None => true,
        Some(newest) => {
            let others = &members[..members.len() - 1];
            joins_well(members, newest, others, twins)
        }
    }
}

/// Whether a bank holds no more than it may, where its pairs are in order but for the newest member, and so many members have a
/// later one of their line.
pub fn has_room(
    writes: u32,
    reads: u32,
    members: &[Member],
    waits: &[u64],
    lost: u32,
    twins: usize,
) -> bool
    requires { twins ≡ spec.twins_in members.now }
    ensures { result ≡ spec.room_kept writes reads members.now waits.now lost }
{
    members.len() <= writes as usize
        && (reads >= lost && waits.len() <= (reads - lost) as usize)
        && in_order(members, twins)
}

/// Whether a member is of another line than a refused write, or came before it and leaves first.
fn lets_refuse(tick: u64, line: u32, members: &[Member], member: &Member) -> bool
    ensures { result ≡ (not (spec.is_of line member.now)
        || (nat_lt member.now.arrived tick && spec.leaves_first members.now member.now)) }
{
    member.line != line || (member.arrived < tick && leaves_first(members, member))
}

/// Whether each of these is of another line than a refused write, or came before it and leaves first.
fn all_let_refuse(tick: u64, line: u32, members: &[Member]) -> bool
    ensures { result ≡ list_all (λ m. not (spec.is_of line m)
        || (nat_lt m.arrived tick && spec.leaves_first members.now m)) members.now }
{
    members
        .iter()
        .all(|member| lets_refuse(tick, line, members, member))
}

/// Whether a refused write finds no member of its line, or one that came before it and leaves first.
fn is_refused(tick: u64, line: u32, members: &[Member]) -> bool
    ensures { result ≡ spec.refused_kept tick line members.now }
{
    count_of(members, line) <= 1 && all_let_refuse(tick, line, members)
}

/// What the queue says of a write, where the next accepted write of its line comes at this tick.
pub fn write_fits<const B: usize>(
    writes: u32,
    tick: u64,
    line: u32,
    members: &[Member],
    next: Option<u64>,
    outcome: &Outcome<B>,
) -> bool
    ensures { result ≡ spec.write_fits writes tick line members.now next outcome.now }
{
    match outcome {
        Outcome::Full { .. } => {
            members.len() == writes as usize && is_refused(tick, line, members)
        }
        Outcome::Merged { tick: at } => next == Some(*at),
        _ => true,
    }
}

/// Whether a key, if there is one, is at most this one.
fn comes_by(key: u128, next: Option<u128>) -> bool
    ensures { result ≡ comes_by key next }
{
    match next {
        Some(other) => other <= key,
        None => false,
    }
}

/// Whether a member is of this line, or is never stored, or is so no sooner than the line's next store, which has this key.
fn is_behind_next(next: Option<u128>, line: u32, member: &Member) -> bool
    ensures { result ≡ spec.is_behind_next next line member.now }
{
    member.line == line || is_never(member.end) || comes_by(line_key(line, member.end), next)
}

/// Whether one of these is of this line.
pub fn has_line(members: &[Member], line: u32) -> bool
    ensures { result ≡ list_any (spec.is_of line) members.now }
{
    members.iter().any(|member| is_of(member, line))
}

/// Whether each of these is of this line, or is stored no sooner than the line's next store, which has this key.
fn all_behind_next(next: Option<u128>, line: u32, members: &[Member]) -> bool
    ensures { result ≡ list_all (spec.is_behind_next next line) members.now }
{
    members
        .iter()
        .all(|member| is_behind_next(next, line, member))
}

/// Whether a member has the line, and none of another line is stored before the line's next store above this tick.
pub fn is_at_head(stores: &[u128], line: u32, tick: u64, members: &[Member]) -> bool
    requires { IsNonDecreasing stores.now }
    ensures { result ≡ spec.at_head_kept stores.now line tick members.now }
{
    let next = next_key(stores, line_key(line, tick));
    has_line(members, line) && all_behind_next(next, line, members)
}
