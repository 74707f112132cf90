//! What one try of a half gave.

/// What a device says of an error, as far as callers tell errors apart.
#[derive(Clone, Copy, Debug, PartialEq, Eq, Drop)]
pub enum DevKind {
    /// The peer reset the connection (`ECONNRESET`).
    Reset,
    /// The connection was aborted (`ECONNABORTED`).
    Aborted,
    /// The peer takes no more bytes (`EPIPE`).
    BrokenPipe,
    /// Nobody listens at the address (`ECONNREFUSED`).
    Refused,
    /// Any other error.
    Other,
}

/// What one try to read or to write gave.
#[derive(Clone, Copy, Debug, PartialEq, Eq, Drop)]
pub enum Outcome {
    /// So many bytes were read or written, at most as many as the try was offered; a read that
    /// gives 0 is at the stream's end.
    Count(usize),
    /// A signal came first (`EINTR`).
    Interrupted,
    /// The connection was aborted (`ECONNABORTED`).
    Aborted,
    /// Nothing can be done before the half is ready (`EAGAIN`).
    WouldBlock,
    /// The device failed.
    Broken(DevKind),
}

/// What one try to accept gave.
#[derive(Debug, PartialEq, Eq, Drop)]
pub enum AcceptOutcome<T> {
    /// A connection.
    Took(T),
    /// A signal came first (`EINTR`).
    Interrupted,
    /// The peer was gone before it was accepted (`ECONNABORTED`).
    Aborted,
    /// Nobody waits to be accepted (`EAGAIN`).
    WouldBlock,
    /// The device failed.
    Broken(DevKind),
}
