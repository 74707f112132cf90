//! What the last poll said, in buffers that are kept from turn to turn.

ghost use Rattle.std.specs.Prelude.{◌≡◌, ◌≤◌, map, length, IfErr, OnOk};
ghost use Rattle.mio.specs.Events.{items, capacity as events_capacity};
ghost use Rattle.rwloops.specs.declared.fault.Fault.{Fault};
ghost use Rattle.rwloops.specs.declared.outcome.DevKind.{DevKind};
ghost use Rattle.readiness.specs.Batch.{ev_of};

use crate::batch::{Ev, MAX_EVENTS};
use arrayvec::ArrayVec;
use mio::{Events, Poll};
use rwloops::{DevKind, Fault};
use std::alloc::{AllocError, Allocator};
use std::time::Duration;

/// The events of the last poll, as the system wrote them and as they are read.
#[derive(Drop)]
pub(crate) struct PolledEvents<A: Allocator> {
    events: Events<A>,
    evs: ArrayVec<Ev, MAX_EVENTS>,
    ghost room: { events_capacity events ≡ 256 },
}

// Writes down what the events say.
fn write_down<A: Allocator>(events: &Events<A>, evs: &mut ArrayVec<Ev, MAX_EVENTS>)
    requires few { length (items events.now) ≤ 256 }
    ensures { evs.new.items ≡ map ev_of (items events.now) }
{
    evs.clear();
    for event in events.iter().as_slice() {
        evs.push(Ev::of(event));
    }
}

impl<A: Allocator> PolledEvents<A> {
    /// Nothing was heard. The memory for all polls is taken here.
    pub(crate) fn new(alloc: A) -> Result<PolledEvents<A>, AllocError>
    where
        A: Copy,
    {
        Ok(PolledEvents {
            events: Events::with_capacity(alloc, MAX_EVENTS)?,
            evs: ArrayVec::new(),
        })
    }

    /// Polls once, for at most so many milliseconds. A signal ends it with nothing heard.
    pub(crate) fn poll(&mut self, poll: &mut Poll, ms: u64) -> Result<(), Fault>
        ensures faults { IfErr result (λ fault. fault ≡ Fault.Device DevKind.Other) }
        ensures all { OnOk result (self.new.evs.items ≡ map ev_of (items self.new.events)) }
    {
        let timeout = Some(Duration::from_millis(ms));
        if poll.poll(&mut self.events, timeout).is_err() {
            return Err(Fault::Device(DevKind::Other));
        }
        write_down(&self.events, &mut self.evs);
        Ok(())
    }

    /// What was heard.
    pub(crate) fn evs(&self) -> &[Ev]
        ensures all { result.now ≡ self.now.evs.items }
        ensures few { length result.now ≤ 256 }
    {
        self.evs.as_slice()
    }
}
