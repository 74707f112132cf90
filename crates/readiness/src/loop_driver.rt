//! What a loop waits by and is reached by, before it has tasks: its poller and its remote. It has
//! no type of a task, so that who opens it needn't know what the loop will have, and the thread
//! that runs the loop can make it.

ghost use Rattle.std.specs.Prelude.{◌≡◌, ◌⊎◌, IfOk, IfErr};
ghost use Rattle.std.specs.Arc.{arc_value};
ghost use Rattle.rwloops.specs.declared.fault.Fault.{Fault};
ghost use Rattle.rwloops.specs.declared.outcome.DevKind.{DevKind};
ghost use Rattle.readiness.specs.EventLoop.{driver_poller, driver_remote, waker_behind};
ghost use Rattle.readiness.specs.Poller.{waker_of};

use crate::loop_remote::LoopRemote;
use crate::named_tasks::MAX_NAMED;
use crate::poller::Poller;
use base_types::OutOfMemory;
use rwloops::Fault;
use std::alloc::{Allocator, Global};
use std::net::Net;
use std::sync::Arc;

/// A loop's poller and its remote, for a loop that is made of them (`EventLoop::on`).
#[derive(Drop)]
pub struct LoopDriver<A: Allocator = Global> {
    pub(crate) alloc: A,
    pub(crate) poller: Poller<A>,
    pub(crate) remote: Arc<LoopRemote<A>, A>,
    // The tokens that were told, for one turn.
    pub(crate) told: Vec<u64, A>,
}

impl<A: Allocator + Copy> LoopDriver<A> {
    /// A poller, and a remote that wakes it.
    pub fn new<R: Net>(rt: &R, alloc: A) -> Result<LoopDriver<A>, Fault>
        ensures waker { IfOk result (λ made.
            waker_behind (driver_remote made) ≡ waker_of (driver_poller made)) }
        ensures faults { IfErr result (λ fault. (fault ≡ Fault.OutOfMemory)
            ⊎ (fault ≡ Fault.Device DevKind.Other)) }
    {
        let poller = Poller::new(rt, alloc)?;
        let Ok(waker) = poller.waker() else {
            return Err(Fault::OutOfMemory);
        };
        let Ok(remote) = LoopRemote::new(alloc, waker) else {
            return Err(Fault::OutOfMemory);
        };
        let Ok(remote) = Arc::new(alloc, remote) else {
            return Err(Fault::OutOfMemory);
        };
        let Ok(told) = Vec::with_capacity(alloc, MAX_NAMED) else {
            return Err(Fault::OutOfMemory);
        };
        Ok(LoopDriver {
            alloc,
            poller,
            remote,
            told,
        })
    }
}

impl<A: Allocator> LoopDriver<A> {
    /// The remote, as `EventLoop::remote` gives it.
    pub fn remote(&self) -> Result<Arc<LoopRemote<A>, A>, OutOfMemory>
        ensures own { IfOk result (λ remote. arc_value remote ≡ driver_remote self.now) }
    {
        match Arc::try_clone(&self.remote) {
            Ok(remote) => Ok(remote),
            Err(_) => Err(OutOfMemory),
        }
    }
}
