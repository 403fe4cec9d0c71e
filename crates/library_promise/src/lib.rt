//! The promise of a session, by the rows that its calls took and by what was told of them alone.
#![tactic(auto)]

ghost use Rattle.std.specs.Prelude.{◌≡◌, true, false};
ghost use Rattle.pcm_library.specs.Keeping.{IsToldTo};
ghost use Rattle.library_promise.specs.Rows.{PromisesByRows, PromisesSoFar, StandsNewest};

use cell_rows::CellArray;
use moment_laws::no_moment_loses_bytes;
use pcm_library::Session;
use settle_laws::{
    outcomes_are_told_in_turn, outcomes_are_told_in_turn_so_far, what_is_told_by_a_settle_stays,
    what_is_told_by_a_settle_stays_so_far,
};

/// What was told of all rows that were taken so far, and of all rows where the session was finished, or stopped with the power off; that all
/// of it was handed out, or waits; and that what `newest` answers of a line so far are the line's newest bytes. (A law: the function does nothing when it runs.)
pub fn tells_by_rows<const B: usize, const M: usize, const E: usize, A: CellArray<B, M> + Drop>(
    session: &Session<B, M, E, A>,
)
    ensures so_far { session.now.module_.finished ≡ false → PromisesSoFar E
        session.now.module_.shape session.now.module_.seed session.now.asked
        (A.state session.now.array) session.now.kept.told }
    ensures newest { session.now.module_.finished ≡ false → StandsNewest session.now.module_
        (A.state session.now.array) session.now.asked session.now.kept.told }
    ensures ended { session.now.module_.finished ≡ true → PromisesByRows E
        session.now.module_.shape session.now.module_.seed session.now.asked
        (A.state session.now.array) session.now.off session.now.kept.rows session.now.kept.told }
    ensures told { IsToldTo session.now.kept.told session.now.kept.sink }
{
    no_moment_loses_bytes();
    what_is_told_by_a_settle_stays();
    what_is_told_by_a_settle_stays_so_far();
    outcomes_are_told_in_turn();
    outcomes_are_told_in_turn_so_far();
    session.tells_all();
}
