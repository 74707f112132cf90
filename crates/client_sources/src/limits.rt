//! How many clients of one source are let in.

ghost use Rattle.std.specs.Prelude.{◌≡◌, ◌*◌};
ghost use Rattle.client_sources.specs.Limits as spec;

use config_values::Rate;

/// Nanoseconds of a second.
const SECOND: u64 = 1_000_000_000;

/// How many clients of one source are let in. Without both all are.
#[derive(Clone, Copy, Debug, PartialEq, Eq, Drop)]
pub struct Limits {
    /// How many connections of it may stand at once.
    pub connections: Option<u32>,
    /// How many of its clients are let in, in which time. The time begins with the first of them, and the
    /// next one with the first that is let in after it.
    pub accepts: Option<Rate>,
}

/// Why a client isn't let in.
#[derive(Clone, Copy, Debug, PartialEq, Eq, Drop)]
pub enum Refusal {
    /// As many connections of its source stand as may.
    Full,
    /// As many of its source were let in as may be in their time.
    Rate,
}

// So many seconds, in nanoseconds.
fn nanoseconds(seconds: u32) -> u64
    ensures { result ≡ seconds * 1000000000 }
{
    u64::from(seconds) * SECOND
}

impl Limits {
    /// All clients are let in.
    pub fn none() -> Limits
        ensures { result ≡ spec.no_limits }
    {
        Limits {
            connections: None,
            accepts: None,
        }
    }

    /// Whether all clients are let in.
    pub fn is_none(&self) -> bool
        ensures { result ≡ spec.are_none self.now }
    {
        self.connections.is_none() && self.accepts.is_none()
    }

    // How many connections of one source may stand; without a limit as many as a number tells.
    pub(crate) fn most_standing(&self) -> u32
        ensures { result ≡ spec.most_standing self.now }
    {
        self.connections.unwrap_or(u32::MAX)
    }

    // How many clients of one source are let in in their time.
    pub(crate) fn most_let_in(&self) -> u32
        ensures { result ≡ spec.most_let_in self.now }
    {
        match self.accepts {
            Some(rate) => rate.count,
            None => u32::MAX,
        }
    }

    // That time, in nanoseconds; without a limit it is over at once.
    pub(crate) fn period(&self) -> u64
        ensures { result ≡ spec.period_of self.now }
    {
        match self.accepts {
            Some(rate) => nanoseconds(rate.seconds),
            None => 0,
        }
    }
}
