//! The laws of the begin of a line write that goes on.

ghost use Rattle.bank_invariant.specs.Beginning.{BegunStoreLaw, BegunCopyLaw};

/// A begin of a store that goes on keeps the invariant, with the head completed.
pub fn begins_of_stores_keep_it()
    ensures { BegunStoreLaw }
{}

/// A begin of a copy that goes on keeps the invariant.
pub fn begins_of_copies_keep_it()
    ensures { BegunCopyLaw }
{}
