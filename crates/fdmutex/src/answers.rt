//! Why a call was refused.

use lockword_core::Word;

/// Why a call was refused. The seat comes back beside it.
#[derive(Debug, PartialEq, Eq, Drop)]
pub enum Refusal {
    /// The word is closed.
    Closed,
    /// The word that the refused try found, which is not closed and, but for a close, not draining,
    /// is at a limit: its references, or where somebody has the lock that was asked for, the
    /// waiters of that lock.
    TooMany(Word),
    /// The word is draining, and not closed. A close is never refused so.
    Draining,
}
