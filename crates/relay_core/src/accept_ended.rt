//! How accepting ends.

use rwloops::Fault;

/// The most faults in a row after which an accept is tried again.
pub const MAX_FAULTS_IN_A_ROW: u32 = 1_024;

/// How accepting ended. This project's own rule.
#[derive(Clone, Copy, Debug, PartialEq, Eq, Drop)]
pub enum AcceptEnded {
    /// The listener was closed.
    Closed,
    /// The listener is drained: it accepts nothing more, and is still to be closed, since its clients
    /// would wait in the system's queue, and nobody would come for them.
    Draining,
    /// One fault more came in a row than `MAX_FAULTS_IN_A_ROW`; it is the last of them.
    TooManyFaults(Fault),
}
