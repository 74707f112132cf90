//! Where the sockets that were accepted wait for their loop, and where it hears of its end.

ghost use Rattle.std.specs.Prelude.{◌≡◌};

use crate::asked::Told;
use crate::phase::Phase;
use crate::runs::Runs;
use fd_descriptor::Deadline;
use readiness::{LoopRemote, Sock};
use std::alloc::Global;
use std::mem;
use std::sync::{Arc, Mutex};

/// What a loop takes at its door: those who wait, and how far its service has come.
#[derive(Drop)]
pub(crate) struct Waiting {
    pub(crate) socks: Vec<Sock>,
    pub(crate) phase: Phase,
}

/// A loop's door: it is open until the loop is told to end, or has ended.
#[derive(Drop)]
pub(crate) struct Door {
    // None once it is shut.
    waiting: Mutex<Option<Waiting>>,
    remote: Arc<LoopRemote>,
}

impl Door {
    /// An open door, at which nobody waits.
    pub(crate) fn new(alloc: Global, remote: Arc<LoopRemote>) -> Door {
        let waiting = Waiting {
            socks: Vec::new(alloc),
            phase: Phase::serving(),
        };
        Door {
            waiting: Mutex::new(Some(waiting)),
            remote,
        }
    }

    /// Hands a socket in. Where the door is shut, or memory is refused, the socket is closed.
    pub(crate) fn hand_in<R: Runs>(&self, rt: &R, sock: Sock) {
        if let Some(waiting) = &mut *self.waiting.lock(rt) {
            let _ = waiting.socks.push(sock);
        }
        self.remote.wake();
    }

    /// Takes what waits, or none where the loop is to end.
    pub(crate) fn take<R: Runs>(&self, rt: &R, alloc: Global) -> Option<Waiting> {
        match &mut *self.waiting.lock(rt) {
            Some(waiting) => Some(Waiting {
                socks: mem::replace(&mut waiting.socks, Vec::new(alloc)),
                phase: waiting.phase,
            }),
            None => None,
        }
    }

    /// Has the loop's tasks end by a moment, by themselves before it.
    pub(crate) fn end_by<R: Runs>(&self, rt: &R, until: Deadline) -> Told
        ensures { result.until ≡ until }
    {
        let told = Told::tell(&mut *self.waiting.lock(rt), until);
        self.remote.wake();
        told
    }

    /// Says that nobody comes any more.
    pub(crate) fn no_more<R: Runs>(&self, rt: &R) {
        if let Some(waiting) = &mut *self.waiting.lock(rt) {
            waiting.phase = waiting.phase.closed();
        }
        self.remote.wake();
    }

    /// Whether the loop goes on to an end that was asked for.
    pub(crate) fn is_ending<R: Runs>(&self, rt: &R) -> bool {
        match &*self.waiting.lock(rt) {
            Some(waiting) => waiting.phase.is_ending(),
            None => false,
        }
    }

    /// Shuts the door, and closes what waits there.
    pub(crate) fn shut<R: Runs>(&self, rt: &R) {
        *self.waiting.lock(rt) = None;
        self.remote.wake();
    }
}
