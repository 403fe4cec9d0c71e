//! The answer of a write queue to a write.

/// What became of a write.
#[derive(Clone, Copy, PartialEq, Eq)]
pub enum Accept {
    /// It stands behind all others.
    Pushed,
    /// It was merged into the entry at this index, which counted as this row's.
    Merged { row: u32, index: usize },
    /// It was refused, and nothing changed.
    Full,
}
