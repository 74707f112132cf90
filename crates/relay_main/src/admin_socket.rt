//! The admin socket as a task of the main thread's loop: it accepts sessions, which are begun
//! between two turns.

ghost use Rattle.std.specs.Prelude.{◌≡◌, ◌++◌, ◌∷◌, [], ⊤, None, OnSome, IfNone};

use readiness::{Listen, Place, Sock};
use relay_core::{Accepting, PollAcceptGate};
use rwloops::{Fault, accept_now};
use std::alloc::Global;

/// The admin socket. However many accepts in a row fail, it goes on: without it nobody could stop
/// the relay.
#[derive(Drop)]
pub struct AdminTask {
    pub(crate) place: Place,
    pub(crate) door: AdminDoor,
    pub(crate) accepting: Accepting,
    /// The end of its pause, where it pauses.
    pub(crate) paused_until: Option<u64>,
}

/// A socket that was accepted for a session.
#[derive(Drop)]
pub struct Caller {
    pub(crate) sock: Sock,
}

/// Where sessions are accepted, and what was accepted since anybody looked.
#[derive(Drop)]
pub struct AdminDoor {
    pub(crate) listener: Listen,
    pub(crate) callers: Vec<Caller>,
    /// How many sockets were dropped, since memory was refused for them.
    pub(crate) dropped: u64,
}

impl AdminTask {
    /// One that accepts from this socket, at this place. Nobody came yet, and no accept failed.
    pub(crate) fn new(alloc: Global, place: Place, listener: Listen) -> AdminTask
        ensures place { result.place ≡ place }
        ensures listener { result.door.listener ≡ listener }
        ensures nobody { result.door.callers.items ≡ [] }
        ensures goes_on { result.paused_until ≡ None }
    {
        AdminTask {
            place,
            door: AdminDoor {
                listener,
                callers: Vec::new(alloc),
                dropped: 0,
            },
            accepting: Accepting::new(),
            paused_until: None,
        }
    }
}

impl AdminDoor {
    // Keeps one that came; none says that it was dropped, since memory was refused.
    fn keep(&mut self, caller: Caller) -> Option<()>
        ensures kept { OnSome result
            (self.new.callers.items ≡ self.old.callers.items ++ caller ∷ []) }
        ensures dropped { IfNone result (self.new.callers.items ≡ self.old.callers.items) }
        ensures others { self.new ≡ record self.old { callers = self.new.callers } }
    {
        match self.callers.push(caller) {
            Ok(()) => Some(()),
            Err(_) => None,
        }
    }
}

impl PollAcceptGate for AdminDoor {
    type T = Sock;

    // What a listener gave can't be told.
    ghost tells = { λ _ _. ⊥ };

    ghost blocked = { λ _. ⊤ };

    fn poll_accept(&mut self) -> Option<Result<Sock, Fault>> {
        accept_now(&mut self.listener)
    }

    fn deliver(&mut self, taken: Sock) {
        if self.keep(Caller { sock: taken }).is_none() {
            self.dropped = self.dropped.saturating_add(1);
        }
    }
}
