//! Why a read or a write may not go on.

/// Why a read or a write may not go on, as Go's poll descriptor answers it.
#[derive(Clone, Copy, Debug, PartialEq, Eq, Drop)]
pub enum Refusal {
    /// The descriptor is closing.
    Closed,
    /// The direction's deadline has passed.
    DeadlineExceeded,
}
