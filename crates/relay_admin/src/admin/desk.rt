//! What a desk answers, whatever it was asked.

use crate::admin::shown::Shown;
use crate::rules::rule::MAX_NAME_BYTES;
use crate::rules::verdict::Verdict;
use arrayvec::ArrayString;

/// What a desk answers to a question.
#[derive(Debug, Drop)]
pub enum DeskAnswer {
    /// The ids, in the order in which they are replied.
    Ids(Vec<u64>),
    /// The bytes copied from clients to targets, and from targets to clients.
    Totals(u64, u64),
    /// It was done. A device's fault at closing is no matter of the caller's.
    Fine,
    /// No connection or listener has this id.
    Unknown,
    /// The connection is closed already.
    Closed,
    /// The connection is drained already, and not closed.
    Draining,
    /// The connection has as many references as it may.
    Busy,
    /// Memory was refused.
    NoMemory,
    /// What is known of the connection or listener.
    Shown(Shown),
    /// What is said of the rules file as it was read. By `Verdict::Rules` its rules are in force.
    Verdict(Verdict),
    /// The rules file can't be read.
    CannotRead,
    /// The rule of this name can't be listened for.
    CannotListen(ArrayString<MAX_NAME_BYTES>),
    /// The system's poller took no socket more.
    Device,
    /// No rule has this name.
    UnknownRule,
    /// The rule has no such target.
    UnknownTarget,
}
