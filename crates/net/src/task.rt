//! What a task of a server is: a value that goes on with its connection whenever that may go on, and
//! says what it waits for then. It never waits itself.

ghost use Rattle.std.specs.Prelude.{◌≡◌, false, IfOk};
ghost use Rattle.net.specs.Task.{reads_of, writes_of, time_of, wait_of, turn_after, cause_of};
ghost use Rattle.net.specs.Task.{ready_in, idle_of, within_of};

use crate::runs::Runs;
use crate::stream::Conn;
use fd_descriptor::Deadline;
use readiness::{Side, Turn, Why};
use std::alloc::Global;
use std::io;
use std::time::Duration;

/// For how long a task waits. `Cause::idle` and `Cause::within` give a time that ends the task.
#[derive(Clone, Copy, Debug, PartialEq, Eq, Drop)]
pub enum Waits {
    /// For as long as it takes.
    Forever,
    /// For so long at most: then a step comes by `Cause::TimeOver`, which says what follows.
    AtMost(Duration),
    /// No longer: the task is over.
    NoLonger,
}

/// What a task goes on by, as it says at the end of a step, and for how long it waits for that.
#[derive(Clone, Copy, Debug, PartialEq, Eq, Drop)]
pub enum Next {
    /// A read that may not block.
    Read(Waits),
    /// A write that may not block.
    Write(Waits),
    /// Either of them.
    ReadOrWrite(Waits),
    /// Its time alone.
    After(Duration),
    /// It gave way to others, and goes on in the next turn.
    Again,
    /// It has ended: its connection is closed.
    Over,
}

/// Why a task goes on.
#[derive(Clone, Copy, Debug, PartialEq, Eq, Drop)]
pub enum Cause {
    /// What it waits for may be, or it is its first step, or it gave way, or another closed its
    /// connection or gave it a deadline: the next read or write tells.
    Ready,
    /// As `Ready`, once an end of its service was asked for (`ServiceCloser::shutdown`): all tasks
    /// have a step so then, and their further steps are so too. A task that has nothing under way
    /// does best to be over.
    Ending,
    /// Its time is over.
    TimeOver,
}

impl Cause {
    /// How long a task waits that has nothing under way: so long at most, and no longer where that
    /// time is over or its service is ending.
    pub fn idle(self, time: Duration) -> Waits
        ensures { result ≡ idle_of self time }
    {
        match self {
            Cause::Ready => Waits::AtMost(time),
            Cause::Ending | Cause::TimeOver => Waits::NoLonger,
        }
    }

    /// How long a task waits that has something under way: so long at most, and no longer where
    /// that time is over.
    pub fn within(self, time: Duration) -> Waits
        ensures { result ≡ within_of self time }
    {
        match self {
            Cause::Ready | Cause::Ending => Waits::AtMost(time),
            Cause::TimeOver => Waits::NoLonger,
        }
    }
}

/// What a server does with its connections. A task is served by one thread, among many others.
pub trait Task<R: Runs>: Drop {
    ghost use Rattle.net.specs.declared.task.Cause.{Cause};
    ghost use Rattle.net.specs.declared.task.Next.{Next};

    /// A step takes a task so, for this cause, and says this. Whoever has nothing to say of it
    /// leaves it out.
    ghost steps: { Self → Cause → Next → Self → Type 0 } = { λ _ _ _ _. Unit {0} };

    /// Of this one such a task is begun. Whoever has nothing to say of it leaves it out.
    ghost begins: { Self → Self → Type 0 } = { λ _ _. Unit {0} };

    /// A task like this one for a connection that was just accepted. Where it is refused, the
    /// connection is closed.
    fn begin(&self, alloc: Global) -> io::Result<Self>
        ensures begun { IfOk result (λ made. begins self.now made) };

    /// Goes on with the connection, by reads and writes that don't wait (`Conn::poll_read`,
    /// `Conn::poll_write`, `Lines::poll`), and says when it goes on next. It bounds what it does at
    /// once, so that others have their turn. The runtime is for locks that are held for short.
    fn step(&mut self, rt: &R, conn: &mut Conn<R>, cause: Cause) -> Next
        ensures stepped { steps self.old cause result self.new };
}

/// The directions in which the last try would have blocked, since when nothing was told of them.
#[derive(Clone, Copy, Debug, PartialEq, Eq, Drop)]
pub(crate) struct Blocked {
    pub(crate) read: bool,
    pub(crate) write: bool,
}

impl Blocked {
    /// Neither, before the first try.
    pub(crate) fn none() -> Blocked
        ensures { result ≡ record { read = false; write = false } }
    {
        Blocked {
            read: false,
            write: false,
        }
    }
}

// Why a task goes on whose time isn't over.
fn ready(ending: bool) -> Cause
    ensures { result ≡ ready_in ending }
{
    if ending { Cause::Ending } else { Cause::Ready }
}

impl Next {
    fn reads(self) -> bool
        ensures { result ≡ reads_of self }
    {
        matches!(self, Next::Read(_) | Next::ReadOrWrite(_))
    }

    fn writes(self) -> bool
        ensures { result ≡ writes_of self }
    {
        matches!(self, Next::Write(_) | Next::ReadOrWrite(_))
    }

    /// For how long it waits.
    fn wait(self) -> Waits
        ensures { result ≡ wait_of self }
    {
        match self {
            Next::Read(wait) | Next::Write(wait) | Next::ReadOrWrite(wait) => wait,
            Next::After(time) => Waits::AtMost(time),
            Next::Again => Waits::Forever,
            Next::Over => Waits::NoLonger,
        }
    }

    /// How long it waits at most.
    pub(crate) fn time(self) -> Option<Duration>
        ensures { result ≡ time_of self }
    {
        match self.wait() {
            Waits::AtMost(time) => Some(time),
            Waits::Forever | Waits::NoLonger => None,
        }
    }

    /// What its loop does with it: a task that asks for what isn't known to block comes again at
    /// once, so that it may ask without a try before.
    pub(crate) fn turn(self, blocked: Blocked) -> Turn
        ensures { result ≡ turn_after self blocked }
    {
        let may_go_on = (self.reads() && !blocked.read) || (self.writes() && !blocked.write);
        match self {
            _ if self.wait() == Waits::NoLonger => Turn::Over,
            Next::Again => Turn::Again,
            _ if may_go_on => Turn::Again,
            _ => Turn::Waits,
        }
    }

    /// Why a task goes on that said this, with its time over at that moment, if it does: what its
    /// loop tells of a direction that it doesn't wait for passes it over.
    pub(crate) fn cause(self, until: Deadline, why: Why, ending: bool) -> Option<Cause>
        ensures { result ≡ cause_of self until why ending }
    {
        let ready = ready(ending);
        match why {
            Why::Ready { read, write, .. } => {
                if (self.reads() && read) || (self.writes() && write) {
                    Some(ready)
                } else {
                    None
                }
            }
            Why::Due {
                side: Side::Second,
                now,
                ..
            } => match until {
                Deadline::At(at) if at <= now => Some(Cause::TimeOver),
                _ => None,
            },
            // The loop has no moment of a task.
            Why::Time { .. } => None,
            Why::Due { .. } | Why::Named | Why::Again => Some(ready),
        }
    }
}
