//! What the queue and the times say of a read's answer.

ghost use Rattle.std.specs.Prelude.{◌≡◌, ◌&&◌, ◌||◌, ◌+◌, ◌*◌, ◌^◌, ◌<◌, ◌≤◌, not, nat_le, nat_lt};
ghost use Rattle.row_rules.specs.Queueing as queueing;
ghost use Rattle.check_verdict.specs.Keeping.{read_timely};

use result_rows::Outcome;

/// What becomes of a read, by how many may wait and how many do.
pub fn read_fits<const B: usize>(
    reads: u32,
    count: u32,
    covered: bool,
    at_head: bool,
    outcome: &Outcome<B>,
) -> bool
    ensures { result ≡ queueing.read_fits reads count covered at_head outcome.now }
{
    let forwarded = matches!(outcome, Outcome::Forwarded { .. });
    if covered {
        return forwarded;
    }
    if forwarded {
        return at_head;
    }
    match outcome {
        Outcome::Busy { .. } => count == reads,
        Outcome::Read { .. } | Outcome::Lost { .. } => count != reads,
        _ => false,
    }
}

/// Whether a read that arrived at a tick is read or lost in time, where it must end by this bound, and this is the tick of the
/// first cut behind it.
pub fn read_in_time<const B: usize>(
    arrived: u64,
    read: u32,
    bound: u64,
    first_cut: Option<u64>,
    outcome: &Outcome<B>,
) -> bool
    requires { arrived < 2 ^ 63 }
    ensures { result ≡ read_timely arrived read bound first_cut outcome.now }
{
    match outcome {
        Outcome::Read { tick, .. } => {
            arrived + read as u64 <= *tick
                && *tick <= bound
                && match first_cut {
                    Some(cut) => *tick <= cut,
                    None => true,
                }
        }
        Outcome::Lost { tick } => first_cut == Some(*tick) && *tick < bound,
        _ => true,
    }
}
