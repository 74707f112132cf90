//! Why a connection isn't set up, whose target may be there.

ghost use Rattle.std.specs.Prelude.{◌≡◌};
ghost use Rattle.relay_conn.specs.Refused as spec;

use crate::trial::Unreached;
use readiness::{HoldFault, NoPlace};
use relay_facts::rule_sources::NoSeat;
use relay_log::ended::Ended as How;

/// Why a client isn't served that was to say first who it is.
#[derive(Clone, Copy, Debug, PartialEq, Eq, Drop)]
pub enum Unheard {
    /// No whole header came in time, or before its stream ended.
    Missing,
    /// Its bytes begin with no header.
    Bad,
    /// There was no memory to go on with it.
    Memory,
}

/// What refused a connection. It can't be dropped, so that it is told.
pub enum Refused {
    /// The loop has as many tasks as it may, or has given its last serial.
    Places,
    /// Memory.
    Memory,
    /// The system's poller, which took one of its sockets no more.
    Poller,
    /// The client, which was to say first who it is.
    Header(Unheard),
    /// Its source, of which there were enough, as the client has said it.
    Source(NoSeat),
    /// The targets, to none of which a connection could be begun: the last one, and why.
    Target(Unreached),
}

// How it is told of a client that said nothing, or no header.
fn how_unheard(why: Unheard) -> How
    ensures { result ≡ spec.how_unheard why }
{
    match why {
        Unheard::Missing => How::NoHeader,
        Unheard::Bad => How::BadHeader,
        Unheard::Memory => How::NoMemory,
    }
}

impl Refused {
    /// What a descriptor's fault refuses.
    pub(crate) fn of_hold(fault: HoldFault) -> Refused
        ensures { result ≡ spec.refused_by fault }
    {
        match fault {
            HoldFault::Device(_) => Refused::Poller,
            _ => Refused::Memory,
        }
    }

    /// What it refuses that a loop has no place more.
    pub fn of_place(refusal: NoPlace) -> Refused
        ensures { result ≡ spec.refused_for refusal }
    {
        match refusal {
            NoPlace::OutOfMemory => Refused::Memory,
            NoPlace::Full | NoPlace::SerialsSpent => Refused::Places,
        }
    }

    /// The place of the target that was dialled last, where targets refused.
    pub fn place(&self) -> Option<usize>
        ensures { result ≡ spec.place_refused self.now }
    {
        match self {
            Refused::Target(last) => Some(last.place),
            _ => None,
        }
    }

    /// How that is told.
    pub fn how(self) -> How
        ensures { result ≡ spec.how_refused self }
    {
        match self {
            Refused::Places => How::Full,
            Refused::Memory => How::NoMemory,
            Refused::Poller => How::Descriptors,
            Refused::Header(why) => how_unheard(why),
            Refused::Source(why) => why.how(),
            Refused::Target(last) => How::NoTarget(last.cause),
        }
    }
}
