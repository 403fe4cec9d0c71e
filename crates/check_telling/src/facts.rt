//! Rows and bounds that are told of a row.

ghost use Rattle.std.specs.Prelude.{◌≡◌};
ghost use Rattle.check_telling.specs.Standing.{row_at};

use crate::mates::Numbered;

/// A row of a table, by its number from 1, and the tick at which it came.
#[derive(Clone, Copy, PartialEq)]
pub struct RowAt {
    pub row: u32,
    pub tick: u64,
}

/// Where a row stands, and when it came.
pub fn at<const B: usize>(one: &Numbered<B>) -> RowAt
    ensures { result ≡ row_at one.now }
{
    RowAt {
        row: one.number,
        tick: one.row.tick,
    }
}

/// By when a write is stored: so many ticks behind its own where nothing else is stored or read by then and no cut comes, and so
/// many more for each further write that is stored by then, for each read that is read, and for each cut behind it.
#[derive(Clone, Copy, PartialEq)]
pub struct StoreBound {
    pub alone: u64,
    pub a_store: u64,
    pub a_read: u64,
    pub a_cut: u64,
}

/// How many writes of its bank are stored above a write's tick and by the tick at which it is told to be stored, itself among them,
/// how many reads are read then, and how many cuts come behind it by then; and by when it would have to be stored with these.
#[derive(Clone, Copy, PartialEq)]
pub struct StoreCounts {
    pub stores: u32,
    pub reads: u32,
    pub cuts: u32,
    pub latest: u64,
}
