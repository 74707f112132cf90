//! The inbox of a loop: what others leave for it, and what it takes out between two of its turns.

ghost use Rattle.std.specs.Prelude.{◌≡◌, ◌++◌, ◌∷◌, [], IfSome, IfNone, IfOk, OnOk, OnErr, IfErr, OnSome};
ghost use Rattle.std.specs.Arc.{arc_value};
ghost use Rattle.relay_shared.specs.Inbox.{IsLeft, IsTaken, seated, sockets_in, requests_in};

use crate::requests::{Posted, Request};
use readiness::{LoopRemote, Sock};
use relay_core::MAX_SESSIONS;
use relay_facts::connection_facts::Acceptance;
use relay_facts::rule_sources::Seat;
use relay_facts::served_rule::ServedRule;
use std::alloc::{AllocError, Global};
use std::collections::VecDeque;
use std::sync::Arc;
use std::sync::atomic::{AtomicU64, Ordering};

/// One of a loop's connections: it is counted from when this is made until this is let go, whatever
/// comes of it. An accepted socket has one from its delivery, and then its connection.
pub struct Counted {
    connections: Arc<AtomicU64>,
    /// Its rule, which counts it too.
    served: Arc<ServedRule>,
    /// Its source, which counts it too, where its rule limits how many of a source are let in.
    seat: Option<Seat>,
}

impl Counted {
    /// One connection more. It takes no memory; refused is only a count that is held too often.
    pub(crate) fn new(
        connections: &Arc<AtomicU64>,
        served: &Arc<ServedRule>,
        seat: Option<Seat>,
    ) -> Option<Counted>
        ensures own { IfSome result (λ counted. arc_value counted.served
            ≡ arc_value served.now) }
    {
        let connections = Arc::try_clone(connections).ok()?;
        let served = Arc::try_clone(served).ok()?;
        connections.fetch_add(1, Ordering::SeqCst);
        served.enter();
        Some(Counted {
            connections,
            served,
            seat,
        })
    }

    /// From now on its source counts it too, by this seat.
    pub fn sit(&mut self, seat: Option<Seat>)
        ensures { self.new ≡ seated seat self.old }
    {
        self.seat = seat;
    }
}

impl Drop for Counted {
    fn drop(self) {
        self.connections.fetch_sub(1, Ordering::SeqCst);
        self.served.leave();
        let Counted {
            connections: _,
            served: _,
            seat: _,
        } = self;
    }
}

/// A socket that was accepted, which its loop counts.
#[derive(Drop)]
pub struct Accepted {
    pub sock: Sock,
    pub acceptance: Acceptance,
    pub counted: Counted,
}

/// That something was left in an inbox: its loop is to be woken, and finds it there. It can't be
/// dropped, so that nobody leaves anything there and wakes nobody.
pub struct OwedWake {
    by_inbox: (),
}

/// That something was left in an inbox, and its loop was woken for it: the wake alone makes one.
#[derive(Drop)]
pub struct Woken {
    by_wake: (),
}

impl OwedWake {
    /// Ends the loop's wait, or its next one.
    pub fn pay(self, remote: &LoopRemote) -> Woken {
        let OwedWake { by_inbox: () } = self;
        remote.wake();
        Woken { by_wake: () }
    }
}

/// What waits for a loop, in the order in which it came. The inbox and one that the loop has emptied
/// change places, so that a turn takes no memory for a list.
#[derive(Drop)]
pub struct Inbox {
    sockets: VecDeque<Accepted>,
    requests: VecDeque<Posted>,
}

impl Inbox {
    /// An empty one. It takes no memory.
    pub fn empty(alloc: Global) -> Inbox
        ensures sockets { sockets_in result ≡ [] }
        ensures requests { requests_in result ≡ [] }
    {
        Inbox {
            sockets: VecDeque::new(alloc),
            requests: VecDeque::new(alloc),
        }
    }

    /// An empty one with room for a request of each session, so that no session is refused for want
    /// of memory.
    pub fn new(alloc: Global) -> Result<Inbox, AllocError>
        ensures sockets { IfOk result (λ inbox. sockets_in inbox ≡ []) }
        ensures requests { IfOk result (λ inbox. requests_in inbox ≡ []) }
    {
        let mut inbox = Inbox::empty(alloc);
        inbox.requests.reserve(MAX_SESSIONS)?;
        Ok(inbox)
    }

    /// Leaves a socket; or drops it, where there is no memory.
    pub fn leave_socket(&mut self, accepted: Accepted) -> Option<OwedWake>
        ensures left { OnSome result (sockets_in self.new ≡ sockets_in self.old ++ accepted ∷ []) }
        ensures kept { IfNone result (sockets_in self.new ≡ sockets_in self.old) }
        ensures requests { requests_in self.new ≡ requests_in self.old }
    {
        match self.sockets.push_back(accepted) {
            Ok(()) => Some(OwedWake { by_inbox: () }),
            Err(_) => None,
        }
    }

    /// Leaves a request; or gives it back, where there is no memory.
    pub fn leave_request(&mut self, request: Request) -> Result<OwedWake, Request>
        ensures left { OnOk result (IsLeft request (requests_in self.old) (requests_in self.new)) }
        ensures returned { IfErr result (λ other. other ≡ request) }
        ensures kept { OnErr result (requests_in self.new ≡ requests_in self.old) }
        ensures sockets { sockets_in self.new ≡ sockets_in self.old }
    {
        let posted = request.post();
        match self.requests.push_back(posted) {
            Ok(()) => Ok(OwedWake { by_inbox: () }),
            Err(_) => Err(posted.taken()),
        }
    }

    /// Takes the first socket.
    pub fn next_socket(&mut self) -> Option<Accepted>
        ensures first { IfSome result (λ accepted.
            sockets_in self.old ≡ accepted ∷ sockets_in self.new) }
        ensures none { IfNone result (sockets_in self.old ≡ []) }
        ensures kept { IfNone result (sockets_in self.new ≡ []) }
        ensures requests { requests_in self.new ≡ requests_in self.old }
    {
        self.sockets.pop_front()
    }

    /// Takes the first request, which is to be answered.
    pub fn next_request(&mut self) -> Option<Request>
        ensures first { IfSome result (λ request.
            IsTaken request (requests_in self.old) (requests_in self.new)) }
        ensures none { IfNone result (requests_in self.old ≡ []) }
        ensures kept { IfNone result (requests_in self.new ≡ []) }
        ensures sockets { sockets_in self.new ≡ sockets_in self.old }
    {
        Some(self.requests.pop_front()?.taken())
    }
}
