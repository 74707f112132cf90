//! How many admin sessions stand at once.

/// The most admin sessions at once. This project's own rule.
pub const MAX_SESSIONS: usize = 32;
