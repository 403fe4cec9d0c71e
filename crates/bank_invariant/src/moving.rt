//! The laws of a gap move that ends: by an iteration, or at once as it begins.

ghost use Rattle.bank_invariant.specs.Moving.{MovedLaw, MovedAtOnceLaw};

/// An iteration that ends a gap move keeps the invariant: the line that was copied stands in the old gap, every other line
/// where it stood, and the region counts its stores from 0 again.
pub fn moves_keep_it()
    ensures { MovedLaw }
{}

/// So does a gap move whose copy needs no pulse, and that ends as it begins.
pub fn moves_at_once_keep_it()
    ensures { MovedAtOnceLaw }
{}
