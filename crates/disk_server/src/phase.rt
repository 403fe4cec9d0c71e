// Where a client and the server stand, and how a session ends.

/// Where a client and the server of a disk stand.
#[derive(Clone, Copy, Debug, PartialEq, Eq)]
pub enum SessionPhase {
    /// The server said that it speaks NBD, and the client has not said so yet.
    Opening,
    /// The client asks for options, and whether it wants zeros behind the size of the disk.
    Choosing(bool),
    /// The client asks for bytes.
    Serving,
    /// The client said that it leaves.
    Over,
}

/// How the session of a client ended.
#[derive(Clone, Copy, Debug, PartialEq, Eq)]
pub enum Ended {
    /// The client said that it leaves.
    Left,
    /// The bytes of the client ended between two messages.
    Closed,
    /// They ended amid a message.
    Broken,
    /// Bytes came that begin no message.
    Strange,
    /// Reading failed.
    Unread,
    /// Writing failed.
    Unwritten,
    /// There were 2^64 - 1 messages.
    Endless,
}
