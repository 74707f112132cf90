//! Why a call failed.
ghost use Rattle.std.specs.Prelude.{◌≡◌};
ghost use Rattle.rwloops.specs.Waits.{fault_of};

use crate::outcome::DevKind;
use deadline_core::Refusal;

/// Why a read, a write or an accept failed, or a call of the descriptor above.
#[derive(Clone, Copy, Debug, PartialEq, Eq, Drop)]
pub enum Fault {
    /// The descriptor is closing.
    Closed,
    /// The direction's deadline has passed.
    DeadlineExceeded,
    /// A read is at the stream's end: Go's `io.EOF`.
    EndOfFile,
    /// A write was taken no byte of before its end: Go's `io.ErrUnexpectedEOF`.
    UnexpectedEof,
    /// The device failed, or a read or a write was aborted.
    Device(DevKind),
    /// More than `MAX_RETRIES` inconclusive answers came in a row.
    TooManyRetries,
    /// No more references can be held. No call of this crate answers it.
    TooMany,
    /// Memory ran out. No call of this crate answers it.
    OutOfMemory,
    /// The descriptor is drained: it ends what it has taken on, and takes on nothing more. No call
    /// of this crate answers it.
    Draining,
}

impl From<Refusal> for Fault {
    ghost from_gives = { λ refusal fault. fault ≡ fault_of refusal };

    fn from(refusal: Refusal) -> Fault {
        match refusal {
            Refusal::Closed => Fault::Closed,
            Refusal::DeadlineExceeded => Fault::DeadlineExceeded,
        }
    }
}

/// Why a write failed, and how many of its bytes were taken before.
#[derive(Clone, Copy, Debug, PartialEq, Eq, Drop)]
pub struct WriteFault {
    /// Why it failed.
    pub fault: Fault,
    /// The sum of the counts of all its tries: the bytes from the front that are written.
    pub count: usize,
}

/// For who has no use for the count, as whoever closes a connection at the first fault.
impl From<WriteFault> for Fault {
    ghost from_gives = { λ failed fault. fault ≡ failed.fault };

    fn from(failed: WriteFault) -> Fault {
        failed.fault
    }
}
