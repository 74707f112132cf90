//! The words of a log, but for those of ends. They stand here alone: lines are made of them, and
//! contracts cite them.

/// What a line of text begins with that says how many lines were lost.
pub const LOST: &[u8] = b"lost ";

/// In place of an id, in a line of text: the connection was refused, so it never had one.
pub const NO_ID: &[u8] = b"-";
