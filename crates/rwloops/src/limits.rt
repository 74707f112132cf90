//! The two limits of a call: the bytes of one try, and the inconclusive answers in a row.
ghost use Rattle.std.specs.Prelude.{◌≡◌, min};

/// The most bytes that one try is offered, 1 GiB.
///
/// Go's `internal/poll` has the same limit for streams: some systems refuse a read or a write of 2
/// GiB or more, and 1 GiB leaves a caller's next try aligned as its first. What is left goes to
/// later tries of the same write, or to the caller's next read.
pub const MAX_TRY_BYTES: usize = 1_073_741_824;

/// The most inconclusive answers that a call takes in a row: `Interrupted`, and for an accept
/// `Aborted` too.
///
/// The next one ends the call as `TooManyRetries`. Go tries again without end; this limit is the
/// project's own, so that a device which is always interrupted can't hold a thread for ever. Any
/// other outcome ends the row.
pub const MAX_RETRIES: u32 = 1_024;

/// How many of the bytes that are left one try is offered: all of them, up to `MAX_TRY_BYTES`.
pub fn chunk_of(rest: usize) -> usize
    ensures { result ≡ min rest MAX_TRY_BYTES }
{
    rest.min(MAX_TRY_BYTES)
}
