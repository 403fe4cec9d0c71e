//! Why bytes are no trace.

use thiserror::Error;

/// Why `parse` gave no events.
#[derive(Debug, Drop, Error)]
pub enum ParseFault {
    /// A row breaks the format.
    #[error("the trace has a fault")]
    Trace(TraceFault),
    /// No row up to the last that is allowed has a fault, and one more stands.
    #[error("the trace has too many rows")]
    TooMany,
    /// Memory ran out.
    #[error("out of memory")]
    NoMemory,
}

/// The first faulty row, counted from 1, the header being row 0, and the first fault of it.
#[derive(Clone, Copy, Debug, PartialEq)]
pub struct TraceFault {
    pub row: u32,
    pub kind: Kind,
}

/// What is wrong with a row. The tests of a row come in this order.
#[derive(Clone, Copy, Debug, PartialEq, Eq)]
pub enum Kind {
    /// The first record is missing or isn't `tick,op,arg,data`.
    Header,
    /// The row hasn't four fields.
    Fields,
    /// The first field is no number of a tick.
    Tick,
    /// The tick is below that of the row before.
    Order,
    /// The second field is no operation.
    Op,
    /// The third field isn't what the operation wants.
    Line,
    /// The fourth field isn't what the operation wants.
    Payload,
}
