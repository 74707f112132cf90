//! How large a loop's buffer is.

/// The bytes of a loop's buffer, which it lends to each copy in turn, and of what a copy keeps at
/// most. One read takes so much that a stream costs fewer calls of the system than with a quarter
/// of it; a larger one was not faster. This project's own rule.
pub const LOOP_BUFFER_BYTES: usize = 65_536;
