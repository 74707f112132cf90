//! The addresses of a host that a connect tries in turn, within one time.

ghost use Rattle.std.specs.Prelude.{◌≡◌, ◌<◌, ◌↔◌, IfNone, IfSome, IsSome, option_map};
ghost use Rattle.std.specs.Duration.{as_nanos};
ghost use Rattle.net.specs.Attempts.{IsNextTry, MayTry, part_of, tried_of, addrs_of, ends_at};

use fd_descriptor::Deadline;
use readiness::Addr;
use std::time::Duration;

/// An address that is tried now, and how long that may take.
#[derive(Clone, Copy, Drop)]
pub(crate) struct Attempt {
    pub(crate) addr: Addr,
    pub(crate) time: Option<Duration>,
}

/// What is left to try: the addresses from a place on, until a moment.
#[derive(Drop)]
pub(crate) struct Attempts {
    addrs: Vec<Addr>,
    tried: usize,
    until: Deadline,
}

// The part that one of so many has of the time until a moment.
fn part(until: Deadline, now: u64, left: usize) -> Option<Duration>
    requires { 0 < left }
    ensures { option_map as_nanos result ≡ part_of until now left }
{
    match until {
        Deadline::At(at) => {
            let nanos = at.saturating_sub(now) / left as u64;
            Some(Duration::from_nanos(nanos))
        }
        Deadline::Never => None,
    }
}

impl Attempts {
    /// All of these, until this moment.
    pub(crate) fn new(addrs: Vec<Addr>, until: Deadline) -> Attempts
        ensures addrs { addrs_of result ≡ addrs.items }
        ensures tried { tried_of result ≡ 0 }
        ensures until { ends_at result ≡ until }
    {
        Attempts {
            addrs,
            tried: 0,
            until,
        }
    }

    /// The address that is tried next, with an equal part of the time that is left for each that is
    /// left. None where each was tried, or the time is over.
    pub(crate) fn next(&mut self, now: u64) -> Option<Attempt>
        ensures next { IfSome result (λ attempt. IsNextTry self.old now attempt self.new) }
        ensures more { IsSome result ↔ MayTry self.old now }
        ensures over { IfNone result (self.new ≡ self.old) }
    {
        match self.until {
            Deadline::At(at) if at <= now => return None,
            _ => {}
        }
        let addr = *self.addrs.get(self.tried)?;
        let time = part(self.until, now, self.addrs.len() - self.tried);
        self.tried += 1;
        Some(Attempt { addr, time })
    }
}
