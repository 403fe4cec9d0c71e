//! The writes in a bank's queue, as the checker keeps them: the oldest first.

ghost use Rattle.std.specs.Prelude.{◌≡◌, ◌<◌, ◌≤◌, ◌+◌, ◌^◌, ◌==◌, ◌&&◌, ◌||◌, not, nat_le, nat_lt};
ghost use Rattle.std.specs.List.{list_all};
ghost use Rattle.check_verdict.specs.Members as spec;

/// Later than every tick.
pub const NEVER: u64 = u64::MAX;

/// An accepted write that stands in the queue.
#[derive(Clone, Copy)]
pub struct Member {
    /// Its line, and whether it is merged into a later write of it.
    pub line: u32,
    pub merged: bool,
    /// When it arrived.
    pub arrived: u64,
    /// When it is stored, and when it leaves the queue, or never.
    pub end: u64,
    pub leave: u64,
}

/// Whether a member is not stored at this tick.
fn ends_elsewhere(member: &Member, tick: u64) -> bool
    ensures { result ≡ spec.ends_elsewhere tick member.now }
{
    tick != member.end
}

/// Whether a member is stored before this span of ticks, or behind it.
fn ends_outside(member: &Member, from: u64, to: u64) -> bool
    ensures { result ≡ (nat_le to member.now.end || nat_lt member.now.end from) }
{
    to <= member.end || member.end < from
}

/// Whether each of these is stored before this span of ticks, or behind it.
fn all_end_outside(members: &[Member], from: u64, to: u64) -> bool
    ensures { result ≡ list_all (λ m. nat_le to m.end || nat_lt m.end from) members.now }
{
    members.iter().all(|member| ends_outside(member, from, to))
}

/// Whether none of these is stored at this tick.
pub fn none_ends_at(members: &[Member], tick: u64) -> bool
    ensures { result ≡ list_all (λ m. spec.ends_elsewhere tick m) members.now }
{
    members.iter().all(|member| ends_elsewhere(member, tick))
}

/// Whether each of these that is stored is so a distance before or after this tick.
pub fn all_end_apart(members: &[Member], tick: u64, read: u32) -> bool
    requires { tick < 2 ^ 60 }
    ensures { result ≡ list_all (λ m. spec.ends_apart read tick m) members.now }
{
    let from = (tick + 1).saturating_sub(read as u64);
    all_end_outside(members, from, tick + read as u64)
}

/// Whether none of these ticks is that one.
pub fn none_is(ticks: &[u64], tick: u64) -> bool
    ensures { result ≡ list_all (λ v. not (tick == v)) ticks.now }
{
    ticks.iter().all(|other| tick != *other)
}
