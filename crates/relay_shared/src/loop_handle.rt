//! What others reach a loop by: its remote, and its inbox; and what they know of it.

ghost use Rattle.std.specs.Prelude.{◌≡◌, IfErr, IfOk};

use crate::inbox::{Accepted, Counted, Inbox, Woken};
use crate::requests::Request;
use readiness::{LoopDriver, LoopRemote, Sock};
use relay_facts::counts::Counter;
use relay_facts::seats::Seated;
use relay_facts::totals::{PublishedTotals, Totals};
use std::alloc::{AllocError, Global};
use std::mem;
use std::sync::atomic::{AtomicU64, Ordering};
use std::sync::{Arc, Mutex, Wait};

/// What others reach a loop by.
#[derive(Drop)]
pub struct LoopHandle {
    pub remote: Arc<LoopRemote>,
    inbox: Mutex<Inbox>,
    /// How many connections it has, those in its inbox among them.
    connections: Arc<AtomicU64>,
    /// How many turns its loop has made.
    pub turns: Counter,
    /// What its loop's books were credited.
    pub published: PublishedTotals,
}

impl LoopHandle {
    /// That of a loop without connections, which has made no turn.
    pub fn new(alloc: Global, remote: Arc<LoopRemote>) -> Result<LoopHandle, AllocError>
        ensures remote { IfOk result (λ handle. handle.remote ≡ remote) }
    {
        let connections = Arc::new(alloc, AtomicU64::new(0))?;
        let published = PublishedTotals::new(alloc)?;
        Ok(LoopHandle {
            remote,
            inbox: Mutex::new(Inbox::new(alloc)?),
            connections,
            turns: Counter::new(),
            published,
        })
    }

    /// How many connections it has, those in its inbox among them.
    pub fn connections(&self) -> u64 {
        self.connections.load(Ordering::SeqCst)
    }

    /// Delivers an accepted socket, whose client was let in and has a seat where it needs one, and wakes
    /// the loop. Where there is no memory for it, it is dropped.
    pub fn deliver<R: Wait>(&self, rt: &R, sock: Sock, seated: Seated) -> Option<Woken> {
        let Seated { acceptance, seat } = seated;
        let counted = Counted::new(&self.connections, &acceptance.served, seat)?;
        let accepted = Accepted {
            sock,
            acceptance,
            counted,
        };
        let left = self.inbox.lock(rt).leave_socket(accepted);
        match left {
            Some(owed) => Some(owed.pay(&self.remote)),
            None => None,
        }
    }

    /// Leaves a request, and wakes the loop; or gives it back, where there is no memory.
    pub fn ask<R: Wait>(&self, rt: &R, request: Request) -> Result<Woken, Request>
        ensures returned { IfErr result (λ other. other ≡ request) }
    {
        let left = self.inbox.lock(rt).leave_request(request);
        match left {
            Ok(owed) => Ok(owed.pay(&self.remote)),
            Err(request) => Err(request),
        }
    }

    /// Changes the inbox for this one, which is empty.
    pub fn give_all<R: Wait>(&self, rt: &R, taken: &mut Inbox) {
        mem::swap(&mut *self.inbox.lock(rt), taken);
    }
}

/// What a loop waits by, and where it tells what its books are credited.
#[derive(Drop)]
pub struct LoopParts {
    pub driver: LoopDriver,
    pub published: PublishedTotals,
}

/// What the books of all loops were credited so far: a sum of numbers each of which is read at a
/// moment of its own, so that it is at least what they came to as this began, and at most what they
/// come to as it ends.
pub fn totals_of(loops: &[LoopHandle]) -> Totals {
    let mut all = Totals::none();
    for handle in loops {
        all = all.plus(handle.published.get());
    }
    all
}
