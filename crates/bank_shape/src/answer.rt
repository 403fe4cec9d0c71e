//! The answers of a bank to its events.

use start_gap::Move;

/// The answer to a write that arrives.
#[derive(Clone, Copy)]
pub enum WriteAnswer {
    /// It stands in the queue as an entry of its own.
    Accepted,
    /// It was laid over the queue's newest entry of its line, whose row this was.
    Merged(u32),
    /// The queue is full.
    Full,
    /// A worn line had found no spare, so the bank takes no more writes.
    Exhausted,
}

/// The answer to a read that arrives.
#[derive(Clone, Copy)]
pub enum ReadAnswer<const B: usize> {
    /// The queue gives all bytes of the line: these.
    Forwarded([u8; B]),
    /// It waits to be served.
    Waiting,
    /// As many reads wait as may.
    Busy,
}

/// The answer to a read that waited.
#[derive(Clone, Copy)]
pub struct Served<const B: usize> {
    /// The read's row.
    pub row: u32,
    /// The array line that was sensed.
    pub place: u32,
    /// The bytes of the read's line.
    pub bytes: [u8; B],
}

/// How far a line write has come.
#[derive(Clone, Copy)]
pub enum Step {
    /// It goes on.
    More,
    /// The write of this row is stored, in the array line `place`.
    Stored { row: u32, place: u32 },
    /// The gap move is done.
    Moved(Move),
    /// The slot's array line was worn; from now on the slot has this spare line (without the bank's base).
    Retired { slot: u32, line: u32 },
    /// The slot's array line was worn, and no spare was left.
    Exhausted,
}

/// How far the writing of a change to its control line has come.
#[derive(Clone, Copy, PartialEq, Eq)]
pub enum Keep {
    /// It goes on.
    More,
    /// The control line is read as the change's values, and the change is gone.
    Done,
    /// The control line was worn: the change stays, and the bank writes nothing any more.
    Halted,
}
