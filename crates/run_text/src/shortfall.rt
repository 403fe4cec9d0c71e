// Whether a run fell short of what its trace asked for.
ghost use Rattle.std.specs.Prelude.{◌≡◌, ◌≤◌};
ghost use Rattle.run_text.specs.Shortfall as short;

use result_rows::{Outcome, Results};

/// Whether an outcome is that of a write that was refused or still stands in the queue, or of a read that was refused or
/// lost.
pub fn is_short<const B: usize>(outcome: &Outcome<B>) -> bool
    ensures { result ≡ short.is_short outcome.now }
{
    match outcome {
        Outcome::Full { .. }
        | Outcome::Worn { .. }
        | Outcome::Busy { .. }
        | Outcome::Lost { .. }
        | Outcome::Queued { .. } => true,
        _ => false,
    }
}

/// Whether some row of a table falls short: then a run ends with status 1.
pub fn any_short<const B: usize>(results: &Results<B>) -> bool
    requires { B ≤ 128 }
    ensures { result ≡ short.any_short results.now }
{
    for before in 0..results.rows() {
        if is_short(results.get(before + 1)) {
            return true;
        }
    }
    false
}
