//! Why bytes are no results.

/// Why `parse_results` gave no outcomes.
#[derive(Clone, Copy, PartialEq, Eq)]
pub enum ResultFault {
    /// The first row whose bytes aren't one of results, counted from 1. Row 0 is the header; where bytes follow the last row, it is
    /// the row after the last.
    Row(u32),
    /// Memory ran out.
    NoMemory,
}
