//! A net: the poller with its thread, and all that its connections share.

use crate::errors::told;
use crate::runs::Runs;
use crate::shared::Shared;
use readiness::{ConnTable, Poller, TimerAlarms, Timers};
use std::alloc::Global;
use std::net::Net as Sockets;
use std::sync::atomic::{AtomicBool, Ordering};
use std::sync::{Arc, Mutex};
use std::thread::{JoinHandle, Threads};
use std::time::Instant;
use std::{io, thread};

/// What listeners and connections stand on. One is enough for a program. When it is stopped, or let
/// go, all of them are closed, and every call on them ends.
pub struct Net<R: Runs + Threads> {
    pub(crate) shared: Arc<Shared<R>>,
    thread: JoinHandle<()>,
}

// Turns the poller until the net is stopped. Where the poller fails, all is closed.
fn turn_on<R: Runs>(shared: &Shared<R>, poller: &mut Poller) {
    let rt = shared.rt;
    for _ in rt.forever() {
        if shared.stopped.load(Ordering::SeqCst) {
            return;
        }
        let turned = poller.turn(&rt, shared.now(), &shared.table, &*shared.timers);
        if turned.is_err() {
            shared.end_all();
        }
    }
}

// What the threads share of a net over this poller.
fn shared_over<R: Runs>(rt: R, alloc: Global, poller: &Poller) -> io::Result<Arc<Shared<R>>> {
    let timers = Arc::new(alloc, Mutex::new(Timers::new(alloc)))?;
    let alarmed = Arc::try_clone(&timers)?;
    let waker = poller.waker()?;
    let alarms = TimerAlarms::new(rt, alarmed, Arc::try_clone(&waker)?);
    let shared = Shared {
        rt,
        alloc,
        start: Instant::now(&rt)?,
        table: Mutex::new(ConnTable::new(alloc)),
        timers,
        alarms,
        registrar: poller.registrar()?,
        waker,
        stopped: AtomicBool::new(false),
    };
    Ok(Arc::new(alloc, shared)?)
}

impl<R> Net<R>
where
    R: Runs + Threads + Sockets + Send + Sync + 'static,
{
    /// Starts a net with its thread.
    pub fn start(rt: R, alloc: Global) -> io::Result<Net<R>> {
        let mut poller = told(Poller::new(&rt, alloc), None)?;
        let shared = shared_over(rt, alloc, &poller)?;
        let theirs = Arc::try_clone(&shared)?;
        let thread = thread::spawn(&rt, move || turn_on(&*theirs, &mut poller))?;
        Ok(Net { shared, thread })
    }
}

fn stop_thread<R: Runs + Threads>(shared: &Shared<R>, thread: JoinHandle<()>) {
    shared.end_all();
    let _ = shared.waker.wake();
    thread.join(&shared.rt)
}

impl<R: Runs + Threads> Net<R> {
    /// Closes all listeners and connections, and ends the net's thread.
    pub fn stop(self) {
        drop(self)
    }
}

impl<R: Runs + Threads> Drop for Net<R> {
    fn drop(self) {
        let Net { shared, thread } = self;
        stop_thread(&*shared, thread);
    }
}
