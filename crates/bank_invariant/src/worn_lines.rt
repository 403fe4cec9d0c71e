//! The laws of iterations that find their line worn.

ghost use Rattle.bank_invariant.specs.Retiring.{ExhaustedLaw, RetiredLaw};

/// An iteration that finds its line worn, and no spare left, keeps the invariant, for the bank that bears the mark.
pub fn exhaustion_keeps_it()
    ensures { ExhaustedLaw }
{}

/// An iteration that finds its line worn, and a spare left, keeps the invariant, for the bank whose slot has that spare.
pub fn retirements_keep_it()
    ensures { RetiredLaw }
{}
