//! What a deadline is, and for which directions one is set.
ghost use Rattle.std.specs.Prelude.{◌≡◌, [], ◌∷◌};
ghost use Rattle.deadline_core.specs.PollHistory.{passed};

/// When a read or a write that waits gives up, as Go's `net.Conn` has it.
#[derive(Clone, Copy, Debug, PartialEq, Eq)]
pub enum Deadline {
    /// It never gives up.
    Never,
    /// It gives up at this moment and after it, in nanoseconds of the caller's clock; every `u64`
    /// is a moment.
    At(u64),
}

/// The directions that one call sets a deadline for.
#[derive(Clone, Copy, Debug, PartialEq, Eq)]
pub enum Dirs {
    Read,
    Write,
    Both,
}

impl Deadline {
    // A deadline has passed at its own moment already.
    pub(crate) fn has_passed(self, now: u64) -> bool
        ensures { result ≡ passed self (now ∷ []) }
    {
        match self {
            Deadline::Never => false,
            Deadline::At(moment) => moment <= now,
        }
    }
}
