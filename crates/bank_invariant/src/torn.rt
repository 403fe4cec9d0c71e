//! The law of a cut that tears the line write in progress.

ghost use Rattle.bank_invariant.specs.Tearing.{TornLaw};

/// A cut that tears the line write in progress keeps the invariant, for the bank that it leaves, whatever the torn line
/// then holds, as long as it is sound.
pub fn cuts_that_tear_keep_it()
    ensures { TornLaw }
{}
