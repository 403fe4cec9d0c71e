//! The events that the rows of a trace stand for.

/// One row of a trace: at this tick of the simulation this happens.
#[derive(Clone, Copy, PartialEq)]
pub struct Event<const B: usize> {
    pub tick: u64,
    pub op: EventOp<B>,
}

/// What happens, at a line of `B` bytes where it has one.
#[derive(Clone, Copy, PartialEq)]
pub enum EventOp<const B: usize> {
    /// A read of this line arrives.
    Read(u32),
    /// A write of this line arrives, with all its bytes.
    Write(u32, [u8; B]),
    /// A write of this line arrives that gives some bytes, at least one. A byte that it doesn't give is 0.
    Mask(u32, [u8; B], [bool; B]),
    /// The power is cut.
    Cut,
}
