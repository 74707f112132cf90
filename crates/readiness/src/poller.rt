//! The poller: one wait of the system's a turn, and who hears of what it said and of the clock.
//!
//! Locks are taken in the order table, cell; the timers' lock is held for a look or a change of the
//! timers alone, since an alarm takes it with the lock of its cell held.

ghost use Rattle.std.specs.Prelude.{◌≡◌, ◌⊎◌, ◌≤◌, length, IfOk, IfErr};
ghost use Rattle.std.specs.Arc.{arc_value};
ghost use Rattle.rwloops.specs.declared.fault.Fault.{Fault};
ghost use Rattle.rwloops.specs.declared.outcome.DevKind.{DevKind};
ghost use Rattle.readiness.specs.Poller.{waker_of, heard_by};

use crate::batch::Ev;
use crate::loop_token::waker_token;
use crate::poll_timeout::{MAX_WAIT_MS, wait_ms};
use crate::polled_events::PolledEvents;
use crate::registrar::Registrar;
use crate::sock::{Listen, Sock, or_other};
use crate::telling::{CellsThemselves, notify_entries, tick_entries};
use base_types::OutOfMemory;
use conntable::ConnTable;
use deadline_core::Timers;
use fd_descriptor::PollCell;
use mio::{Poll, Token, Waker};
use rwloops::{DevKind, Fault};
use std::alloc::{Allocator, Global};
use std::io;
use std::net::Net;
use std::sync::{Arc, Mutex, Wait};

const DEVICE: Fault = Fault::Device(DevKind::Other);

/// What has a cell that is told of readiness and of the clock.
pub trait HasCell {
    ghost use Rattle.fd_descriptor.specs.declared.poll_cell.PollCell.{PollCell};

    /// The cell.
    ghost cell_in: { Self → PollCell };

    /// The cell of the entry's descriptor.
    fn cell(&self) -> &PollCell
        ensures own { result.now ≡ cell_in self.now };
}

/// A poller with its waker, whose token is the greatest there is and names no entry.
#[derive(Drop)]
pub struct Poller<A: Allocator = Global> {
    poll: Poll,
    polled: PolledEvents<A>,
    waker: Arc<Waker, A>,
}

// Shows the clock to the entries whose timers are due. A key whose entry is gone is passed over.
// The list of 4 KiB is cleared when the frame that it is in is entered, so that frame is not the
// turn's.
#[inline(never)]
fn tick_listed<R: Wait, T: HasCell, B: Allocator, C: Allocator>(
    rt: &R,
    now: u64,
    table: &Mutex<ConnTable<T, B>>,
    timers: &Mutex<Timers<C>>,
) {
    let due = timers.lock(rt).due(now);
    tick_entries(
        &mut CellsThemselves { rt },
        &table.lock(rt),
        now,
        due.as_slice(),
    );
}

// Shows the clock to those whose timers are due, and gives the earliest moment that is left.
fn tick_due<R: Wait, T: HasCell, B: Allocator, C: Allocator>(
    rt: &R,
    now: u64,
    table: &Mutex<ConnTable<T, B>>,
    timers: &Mutex<Timers<C>>,
) -> Option<u64> {
    let next = timers.lock(rt).next();
    if wait_ms(now, next) > 0 {
        return next;
    }
    tick_listed(rt, now, table, timers);
    timers.lock(rt).next()
}

impl<A: Allocator> Poller<A> {
    /// A poller with nothing registered but its waker. Its memory is taken here, and by no turn.
    pub fn new<R: Net>(rt: &R, alloc: A) -> Result<Poller<A>, Fault>
    where
        A: Copy,
        ensures faults { IfErr result (λ fault. (fault ≡ Fault.OutOfMemory)
            ⊎ (fault ≡ Fault.Device DevKind.Other)) }
    {
        let Ok(poll) = Poll::new(rt) else {
            return Err(DEVICE);
        };
        let Ok(polled) = PolledEvents::new(alloc) else {
            return Err(Fault::OutOfMemory);
        };
        let Ok(waker) = Waker::new(poll.registry(), Token(waker_token() as usize)) else {
            return Err(DEVICE);
        };
        let Ok(waker) = Arc::new(alloc, waker) else {
            return Err(Fault::OutOfMemory);
        };
        Ok(Poller {
            poll,
            polled,
            waker,
        })
    }

    /// Has turns tell of a connection under this token, until the connection is dropped.
    pub fn register(&self, sock: &mut Sock, token: u64) -> Result<(), DevKind>
        ensures same { sock.new ≡ sock.old }
        ensures kinds { IfErr result (λ kind. kind ≡ DevKind.Other) }
    {
        or_other(sock.register_at(self.poll.registry(), token))
    }

    /// Has turns tell no more of a connection, which may then be registered anew. What the last wait said
    /// of it stays said.
    pub fn deregister(&self, sock: &mut Sock) -> Result<(), DevKind>
        ensures same { sock.new ≡ sock.old }
        ensures kinds { IfErr result (λ kind. kind ≡ DevKind.Other) }
    {
        or_other(sock.deregister_at(self.poll.registry()))
    }

    /// Has turns tell of a listener under this token, until the listener is dropped.
    pub fn register_listener(&self, listen: &mut Listen, token: u64) -> Result<(), DevKind>
        ensures same { listen.new ≡ listen.old }
        ensures kinds { IfErr result (λ kind. kind ≡ DevKind.Other) }
    {
        or_other(listen.register_at(self.poll.registry(), token))
    }

    /// What registers sockets from any thread, also while a turn waits. It takes one file more.
    pub fn registrar(&self) -> io::Result<Registrar> {
        let registry = self.poll.registry().try_clone()?;
        Ok(Registrar { registry })
    }

    /// What ends a turn early, from any thread. It takes no memory; refused is only a waker that is
    /// held too often.
    pub fn waker(&self) -> Result<Arc<Waker, A>, OutOfMemory>
        ensures own { IfOk result (λ waker. arc_value waker ≡ waker_of self.now) }
    {
        match Arc::try_clone(&self.waker) {
            Ok(waker) => Ok(waker),
            Err(_) => Err(OutOfMemory),
        }
    }

    /// Waits until anything is ready, also the waker, at most [`MAX_WAIT_MS`]: for who has a poller
    /// without a table.
    pub fn wait_any(&mut self) -> Result<(), Fault>
        ensures faults { IfErr result (λ fault. fault ≡ Fault.Device DevKind.Other) }
    {
        self.polled.poll(&mut self.poll, MAX_WAIT_MS)
    }

    /// Waits until anything is ready, also the waker, at most so many milliseconds.
    pub(crate) fn poll_for(&mut self, ms: u64) -> Result<(), Fault>
        ensures faults { IfErr result (λ fault. fault ≡ Fault.Device DevKind.Other) }
    {
        self.polled.poll(&mut self.poll, ms)
    }

    /// What the last wait said.
    pub(crate) fn events(&self) -> &[Ev]
        ensures own { result.now ≡ heard_by self.now }
        ensures few { length result.now ≤ 256 }
    {
        self.polled.evs()
    }

    /// One turn: ticks what is due at `now`, then waits once for the system, at most until the next
    /// moment, and tells the entries what is ready.
    ///
    /// `now` is in nanoseconds of the clock of the deadlines, read just before the call. A deadline
    /// that comes while the turn waits is ticked by the next turn, with a later `now`. The keys of
    /// the timers are the ids of the entries.
    pub fn turn<R: Wait, T: HasCell, B: Allocator, C: Allocator>(
        &mut self,
        rt: &R,
        now: u64,
        table: &Mutex<ConnTable<T, B>>,
        timers: &Mutex<Timers<C>>,
    ) -> Result<(), Fault>
        ensures faults { IfErr result (λ fault. fault ≡ Fault.Device DevKind.Other) }
    {
        let next = tick_due(rt, now, table, timers);
        self.polled.poll(&mut self.poll, wait_ms(now, next))?;
        let evs = self.polled.evs();
        if !evs.is_empty() {
            notify_entries(&mut CellsThemselves { rt }, &table.lock(rt), evs);
        }
        Ok(())
    }
}
