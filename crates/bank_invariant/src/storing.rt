//! The laws of the end of a store.

ghost use Rattle.bank_invariant.specs.Storing.{StoredLaw, BegunStoredLaw};

/// An iteration that ends a store keeps the invariant.
pub fn stores_keep_it()
    ensures { StoredLaw }
{}

/// A begin of a store that finds its line as the store would leave it keeps the invariant.
pub fn stores_that_write_nothing_keep_it()
    ensures { BegunStoredLaw }
{}
