// How much is gathered, and how much is put behind it at once.

/// Bytes of text that are gathered before they are written.
pub const TEXT_ROOM: usize = 65_536;

/// Bytes that a row takes at most: one of the results, over lines of 128 bytes.
pub const ROW_ROOM: usize = 320;
