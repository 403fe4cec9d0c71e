//! The law of how few iterations a line write on a line without a stuck cell takes.

ghost use Rattle.bank_invariant.specs.Fine.{FineWriteLaw};

/// A line write in progress on a line of which no cell is stuck has had at most as many iterations as the cells of its array may miss.
pub fn fine_lines_are_written_soon()
    ensures { FineWriteLaw }
{}
