//! A read that waits at a bank.

/// A read that waits, with those bytes of the queue that were newest as it came.
#[derive(Clone, Copy)]
pub struct Waiting<const B: usize> {
    /// The read's row.
    pub row: u32,
    /// The bank line that it reads.
    pub line: u32,
    /// The queue's bytes of the line; a byte that isn't given is 0.
    pub kept: [u8; B],
    /// Which of them the queue gave.
    pub given: [bool; B],
}
