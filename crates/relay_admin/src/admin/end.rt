//! How a session ends.

/// How a session ended.
#[derive(Clone, Copy, Debug, PartialEq, Eq, Drop)]
pub enum AdminEnd {
    /// The reader has no more bytes.
    End,
    /// The line `quit`.
    Quit,
    /// The line `stop`: the relay is to stop.
    Stop,
    /// A line of more than 64 bytes.
    TooLong,
    /// Line 65,536 was answered, and didn't end the session.
    TooManyLines,
}
