//! What is kept of a bank, as time passes.

ghost use Rattle.std.specs.Prelude.{◌≡◌, ◌<◌, ◌+◌, ◌++◌, ◌&&◌, ◌||◌, not, nat_le, nat_lt, filter, take, drop, length};
ghost use Rattle.std.specs.List.{list_any};
ghost use Rattle.check_verdict.specs.Fitting.{is_of, twins_in};
ghost use Rattle.check_verdict.specs.Kept.{ended, least_end};
ghost use Rattle.check_verdict.specs.Members.{never};
ghost use Rattle.check_judging.specs.Distances as distances;

use crate::members::{Member, NEVER};
use crate::queue::has_line;

/// The later of a tick and another, if there is one.
pub fn later_of(tick: u64, last: Option<u64>) -> Option<u64>
    ensures { result ≡ distances.later_of tick last }
{
    match last {
        Some(other) if tick <= other => Some(other),
        _ => Some(tick),
    }
}

/// The last tick at which a write was stored, once those of some members have left that are stored by a tick, and the first at
/// which one of the others is.
pub struct Ends {
    pub last: Option<u64>,
    pub first: u64,
}

/// The ends of these members at a tick, where a write was last stored before them at this one.
pub fn ends_at(members: &[Member], tick: u64, last: Option<u64>) -> Ends
    ensures last { result.last ≡ ended tick members.now last }
    ensures first { result.first ≡ least_end never
        (filter (λ m. not (nat_le m.end tick)) members.now) }
{
    let mut latest = last;
    let mut first = NEVER;
    for member in members {
        if member.end <= tick {
            latest = later_of(member.end, latest);
        } else {
            first = first.min(member.end);
        }
    }
    Ends {
        last: latest,
        first,
    }
}

/// Whether a member is of a line, and stays at a tick.
fn is_staying(member: &Member, line: u32, tick: u64) -> bool
    ensures { result ≡ (is_of line member.now && not (nat_le member.now.end tick)) }
{
    member.line == line && tick < member.end
}

/// Whether one of these is of a line, and stays at a tick.
fn has_staying(members: &[Member], line: u32, tick: u64) -> bool
    ensures { result ≡ list_any (λ m. is_of line m && not (nat_le m.end tick)) members.now }
{
    members.iter().any(|member| is_staying(member, line, tick))
}

/// Whether one of a line is among the members before an index that stay at a tick, or among those behind it.
fn stands_beside(members: &[Member], index: usize, line: u32, tick: u64) -> bool
    requires { index < length members.now }
    ensures { result ≡ (list_any (λ m. is_of line m && not (nat_le m.end tick))
        (take index members.now) || list_any (is_of line) (drop (index + 1) members.now)) }
{
    has_staying(&members[..index], line, tick) || has_line(&members[index + 1..], line)
}

/// How many of these members have a later one of their line, where those before an index have left that are stored by a tick, and
/// then the member there too if it is; so many have until it does.
fn twins_past(members: &[Member], index: usize, tick: u64, twins: usize) -> usize
    requires index { index < length members.now }
    requires twins { twins ≡ twins_in (filter (λ m. not (nat_le m.end tick))
        (take index members.now) ++ drop index members.now) }
    ensures { result ≡ twins_in (filter (λ m. not (nat_le m.end tick))
        (take (index + 1) members.now) ++ drop (index + 1) members.now) }
{
    let member = members[index];
    if member.end <= tick && stands_beside(members, index, member.line, tick) {
        twins - 1
    } else {
        twins
    }
}

/// How many of these members have a later one of their line, once those leave that are stored by a tick; so many have until they
/// do. Where none has, no member is looked at.
pub fn twins_left(members: &[Member], tick: u64, twins: usize) -> usize
    requires { twins ≡ twins_in members.now }
    ensures { result ≡ twins_in (filter (λ m. not (nat_le m.end tick)) members.now) }
{
    if twins == 0 {
        return 0;
    }
    let mut left = twins;
    for index in 0..members.len() {
        left = twins_past(members, index, tick, left);
    }
    left
}

/// Lets those leave that are stored by this tick.
pub fn let_leave(members: &mut Vec<Member>, tick: u64)
    ensures { members.new.items ≡ filter (λ m. not (nat_le m.end tick)) members.old.items }
{
    members.retain(
        |member: &Member| -> bool
            ensures { result ≡ not (nat_le member.now.end tick) }
        { tick < member.end },
    );
}
