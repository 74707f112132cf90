//! The moments at which calls give up, from the times that a program gives.

ghost use Rattle.std.specs.Prelude.{◌≡◌, None};
ghost use Rattle.net.specs.Limits.{moment_of, earlier_of, until_of, times_in, times_from};
ghost use Rattle.net.specs.Limits.{with_time_of, with_until_of};

use fd_descriptor::{Deadline, Dir};
use std::time::Duration;

/// What the calls of one direction keep to.
#[derive(Clone, Copy, Drop)]
pub struct Times {
    /// How long each call may wait.
    pub each: Option<Duration>,
    /// When the time of the call that began last ends.
    pub ends: Deadline,
}

/// What a connection's calls keep to, for all that share it.
#[derive(Clone, Copy, Drop)]
pub struct Limits {
    /// Reads.
    pub read: Times,
    /// Writes.
    pub write: Times,
    /// The moment at which all calls give up.
    pub until: Deadline,
}

/// The moment that is so long after `now`, or the last there is; with no time it never comes.
pub(crate) fn moment_in(now: u64, time: Option<Duration>) -> Deadline
    ensures { result ≡ moment_of now time }
{
    match time {
        Some(time) => {
            let nanos = u64::try_from(time.as_nanos()).unwrap_or(u64::MAX);
            Deadline::At(now.saturating_add(nanos))
        }
        None => Deadline::Never,
    }
}

/// The one that comes first.
pub(crate) fn earlier(one: Deadline, other: Deadline) -> Deadline
    ensures { result ≡ earlier_of one other }
{
    match (one, other) {
        (Deadline::At(first), Deadline::At(second)) => Deadline::At(first.min(second)),
        (Deadline::Never, any) | (any, Deadline::Never) => any,
    }
}

impl Limits {
    /// No time, and a moment that never comes.
    pub fn none() -> Limits
        ensures { result ≡ record {
          read = times_from 0 None;
          write = times_from 0 None;
          until = Deadline.Never;
        } }
    {
        let none = Times {
            each: None,
            ends: Deadline::Never,
        };
        Limits {
            read: none,
            write: none,
            until: Deadline::Never,
        }
    }

    /// How long each call of this direction may wait.
    pub fn each(&self, dir: Dir) -> Option<Duration>
        ensures { result ≡ (times_in self.now dir).each }
    {
        match dir {
            Dir::Read => self.read.each,
            Dir::Write => self.write.each,
        }
    }

    /// When the call of this direction gives up that began last.
    pub fn until(&self, dir: Dir) -> Deadline
        ensures { result ≡ until_of self.now dir }
    {
        match dir {
            Dir::Read => earlier(self.read.ends, self.until),
            Dir::Write => earlier(self.write.ends, self.until),
        }
    }

    /// The limits with this time for each call of a direction. The call under way, or the one that
    /// begins now, has all of it.
    pub fn with_time(self, dir: Dir, time: Option<Duration>, now: u64) -> Limits
        ensures { result ≡ with_time_of self dir time now }
    {
        let times = Times {
            each: time,
            ends: moment_in(now, time),
        };
        let Limits { read, write, until } = self;
        match dir {
            Dir::Read => Limits {
                read: times,
                write,
                until,
            },
            Dir::Write => Limits {
                read,
                write: times,
                until,
            },
        }
    }

    /// The limits with a moment for all calls that is so long after now.
    pub fn with_until(self, time: Option<Duration>, now: u64) -> Limits
        ensures { result ≡ with_until_of self time now }
    {
        Limits {
            read: self.read,
            write: self.write,
            until: moment_in(now, time),
        }
    }
}
