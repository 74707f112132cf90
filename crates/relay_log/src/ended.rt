//! How a connection ended, or why it was refused: the words of each way, and its place among what
//! is counted of a rule. All that is told of ends goes by these places, so that a way stands here
//! and where it arises, and nowhere else.

ghost use Rattle.std.specs.Prelude.{◌≡◌, ◌++◌, OnOk};
ghost use Rattle.relay_log.specs.Ended.{cause_place, cause_text, end_label, end_place};
ghost use Rattle.relay_log.specs.Ended.{ended_text, reason_text};

use base_types::OutOfMemory;
use std::alloc::Allocator;

/// The ways for a connection to end that was set up.
pub const ENDS: usize = 7;

/// What figures call each of them, by their places.
pub const END_LABELS: [&[u8]; ENDS] = [
    b"eof",
    b"idle",
    b"closed",
    b"drained",
    b"read",
    b"write",
    b"no_target",
];

/// The causes for which a target isn't reached.
pub const CAUSES: usize = 5;

/// Their words, by their places.
pub const CAUSE_WORDS: [&[u8]; CAUSES] = [
    b"refused",
    b"unreachable",
    b"timeout",
    b"descriptors",
    b"down",
];

/// What a device said of a read or a write that failed. One for each kind of `rwloops::DevKind`,
/// on which this crate doesn't stand, since a log needs none of its loops.
#[derive(Clone, Copy, Debug, PartialEq, Eq, Drop)]
pub enum Reason {
    /// The peer reset the connection.
    Reset,
    /// The system gave the connection up.
    Aborted,
    /// The peer took no more bytes.
    BrokenPipe,
    /// Nobody listened at the address.
    Refused,
    /// Any other error.
    Other,
}

impl Reason {
    /// Its word, in which no space stands.
    pub fn word(self) -> &'static [u8]
        ensures { result.now ≡ reason_text self }
    {
        match self {
            Reason::Reset => b"reset",
            Reason::Aborted => b"aborted",
            Reason::BrokenPipe => b"broken-pipe",
            Reason::Refused => b"refused",
            Reason::Other => b"other",
        }
    }
}

/// Why a target wasn't reached.
#[derive(Clone, Copy, Debug, PartialEq, Eq, Drop)]
pub enum Cause {
    /// Nobody listened at its address.
    Refused,
    /// There is no way to it, or nothing at its path, or its queue is full.
    Unreachable,
    /// It wasn't connected in the time that it has, or before a deadline of its connection.
    Timeout,
    /// The relay, or the system, has no descriptor left for it.
    Descriptors,
    /// Each that might take the client is down.
    Down,
}

impl Cause {
    /// Its word, in which no space stands.
    pub fn word(self) -> &'static [u8]
        ensures { result.now ≡ cause_text self }
    {
        CAUSE_WORDS[self.place()]
    }

    /// Its place among the counts of causes.
    pub fn place(self) -> usize
        ensures { result ≡ cause_place self }
    {
        match self {
            Cause::Refused => 0,
            Cause::Unreachable => 1,
            Cause::Timeout => 2,
            Cause::Descriptors => 3,
            Cause::Down => 4,
        }
    }
}

/// How a connection ended, or what else a line tells. `Denied`, `Full`, `RuleFull`, `SourceFull`,
/// `SourceRate`, `NoMemory`, `Descriptors`, `NoHeader` and `BadHeader` are of clients that were refused, `NoTarget` of those and
/// of connections whose targets weren't reached later.
#[derive(Clone, Copy, Debug, PartialEq, Eq, Drop)]
pub enum Ended {
    /// Both ends of file were passed on.
    Eof,
    /// No byte passed for the idle time of its rule.
    Idle,
    /// An admin session closed it.
    Closed,
    /// It ended what it had begun after a drain.
    Drained,
    /// A read failed.
    Read(Reason),
    /// A write failed.
    Write(Reason),
    /// The lists of its rule don't let the client in.
    Denied,
    /// As many connections stood as may.
    Full,
    /// As many connections of its rule stood as may.
    RuleFull,
    /// As many connections of its source stood as may.
    SourceFull,
    /// As many clients of its source were let in as may be in their time.
    SourceRate,
    /// Memory was refused for the connection.
    NoMemory,
    /// The system's poller took none of its descriptors.
    Descriptors,
    /// The client was to say first who it is, and no whole header came of it.
    NoHeader,
    /// The client was to say first who it is, and its bytes begin with no header.
    BadHeader,
    /// The target wasn't reached.
    NoTarget(Cause),
    /// No connection: an accept failed, the first in a row.
    Accept(Reason),
    /// No connection: a target that was up is down.
    TargetDown,
    /// No connection: a target that was down is up.
    TargetUp,
}

impl Ended {
    /// Its place among the counts of connections that ended. A connection that was set up was never
    /// refused as it came, is no failed accept and no target: those would be counted as closed.
    pub fn place(self) -> usize
        ensures { result ≡ end_place self }
    {
        match self {
            Ended::Eof => 0,
            Ended::Idle => 1,
            Ended::Closed | Ended::Denied | Ended::Full | Ended::RuleFull => 2,
            Ended::NoMemory | Ended::Descriptors | Ended::Accept(_) => 2,
            Ended::SourceFull | Ended::SourceRate => 2,
            Ended::NoHeader | Ended::BadHeader => 2,
            Ended::TargetDown | Ended::TargetUp => 2,
            Ended::Drained => 3,
            Ended::Read(_) => 4,
            Ended::Write(_) => 5,
            Ended::NoTarget(_) => 6,
        }
    }

    /// What figures call it.
    pub fn label(self) -> &'static [u8]
        ensures { result.now ≡ end_label self }
    {
        END_LABELS[self.place()]
    }

    /// Puts its words behind what the vector holds. Where memory is refused a part of them may
    /// stand there.
    pub(crate) fn write<A: Allocator>(self, into: &mut Vec<u8, A>) -> Result<(), OutOfMemory>
        ensures { OnOk result (into.new.items ≡ into.old.items ++ ended_text self) }
    {
        match self {
            Ended::Eof => into.extend_from_slice(b"eof"),
            Ended::Idle => into.extend_from_slice(b"idle"),
            Ended::Closed => into.extend_from_slice(b"closed"),
            Ended::Drained => into.extend_from_slice(b"drained"),
            Ended::Read(why) => write_failed(into, b"read ", why),
            Ended::Write(why) => write_failed(into, b"write ", why),
            Ended::Denied => into.extend_from_slice(b"denied"),
            Ended::Full => into.extend_from_slice(b"full"),
            Ended::RuleFull => into.extend_from_slice(b"rule full"),
            Ended::SourceFull => into.extend_from_slice(b"source full"),
            Ended::SourceRate => into.extend_from_slice(b"source rate"),
            Ended::NoMemory => into.extend_from_slice(b"no memory"),
            Ended::Descriptors => into.extend_from_slice(b"descriptors"),
            Ended::NoHeader => into.extend_from_slice(b"no header"),
            Ended::BadHeader => into.extend_from_slice(b"bad header"),
            Ended::NoTarget(cause) => write_both(into, b"no target ", cause.word()),
            Ended::Accept(why) => write_failed(into, b"accept ", why),
            Ended::TargetDown => into.extend_from_slice(b"target down"),
            Ended::TargetUp => into.extend_from_slice(b"target up"),
        }
    }
}

fn write_failed<A: Allocator>(
    into: &mut Vec<u8, A>,
    call: &[u8],
    why: Reason,
) -> Result<(), OutOfMemory>
    ensures { OnOk result (into.new.items ≡ into.old.items ++ (call.now ++ reason_text why)) }
{
    write_both(into, call, why.word())
}

fn write_both<A: Allocator>(
    into: &mut Vec<u8, A>,
    first: &[u8],
    second: &[u8],
) -> Result<(), OutOfMemory>
    ensures { OnOk result (into.new.items ≡ into.old.items ++ (first.now ++ second.now)) }
{
    into.extend_from_slice(first)?;
    into.extend_from_slice(second)
}
