//! The law of an iteration after which the line write in progress goes on.

ghost use Rattle.bank_invariant.specs.Iterating.{IteratedLaw};

/// An iteration that goes on keeps the invariant, with one iteration more and fewer steps left.
pub fn iterations_that_go_on_keep_it()
    ensures { IteratedLaw }
{}
