//! Whether a write keeps to the worn rows of its bank.

ghost use Rattle.std.specs.Prelude.{◌≡◌, ◌&&◌, ◌||◌, not, nat_le};
ghost use Rattle.row_rules.specs.Answers.{is_worn};
ghost use Rattle.check_verdict.specs.Keeping.{stored_early};

use result_rows::Outcome;

/// Whether a write is worn, or stands before each worn row and is stored before the first of them came.
pub fn keeps_worn<const B: usize>(
    behind_worn: bool,
    first_worn: Option<u64>,
    outcome: &Outcome<B>,
) -> bool
    ensures { result ≡ (is_worn outcome.now || (not behind_worn
        && stored_early first_worn outcome.now)) }
{
    match outcome {
        Outcome::Worn { .. } => true,
        Outcome::Stored { tick, .. } => {
            !behind_worn
                && match first_worn {
                    Some(at) => *tick < at,
                    None => true,
                }
        }
        _ => !behind_worn,
    }
}
