//! That what a bank keeps is what its history says it keeps.

ghost use Rattle.bank_invariant.specs.Bridge.{AgreeLaw};

/// The slots, array lines, next work and readiness that follow from a bank's state are those of its history.
pub fn kept_state_is_that_of_the_history()
    ensures { AgreeLaw }
{}
