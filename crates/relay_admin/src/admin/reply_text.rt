//! The words of replies, each with its line feed. They stand here alone: replies are made of them,
//! and contracts cite them.

/// What was asked is done.
pub const DONE: &[u8] = b"ok\n";

/// The last line of a reply that has a line for each connection and listener.
pub const SHOWN_ALL: &[u8] = b"end\n";

/// The line is no command, or is too long to be one.
pub const BAD_COMMAND: &[u8] = b"error 400 bad command\n";

/// No connection and no listener has the id.
pub const NO_SUCH_CONNECTION: &[u8] = b"error 404 no such connection\n";

/// The connection is closed already.
pub const CLOSED: &[u8] = b"error 409 closed\n";

/// The connection is drained already.
pub const DRAINING: &[u8] = b"error 409 draining\n";

/// The connection has as many references as it may.
pub const BUSY: &[u8] = b"error 409 busy\n";

/// The system's poller took no socket more.
pub const DEVICE: &[u8] = b"error 503 device\n";

/// No rule that is served has the name.
pub const NO_SUCH_RULE: &[u8] = b"error 404 no such rule\n";

/// The rule has no target by the word.
pub const NO_SUCH_TARGET: &[u8] = b"error 404 no such target\n";

/// Memory was refused.
pub const OUT_OF_MEMORY: &[u8] = b"error 507 out of memory\n";

/// The rules file can't be read. Its twin is what `ServeFault` prints, whose attributes can
/// cite no constant.
pub const CANNOT_READ: &[u8] = b"cannot read rules\n";

/// The rule whose name follows can't be listened for. Its twin is what `ServeFault` prints,
/// likewise.
pub const CANNOT_LISTEN: &str = "cannot listen ";
