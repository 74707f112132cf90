//! A server of figures: one thread with an event loop, whose tasks are the listener and the clients.
//!
//! A fault of the poller and want of memory end no more than the client that they hit: the relay
//! goes on without its figures, and they come back with the next turn.

ghost use Rattle.std.specs.Prelude.{◌≡◌, ◌<◌, ◌≤◌, ◌∷◌, [], ℕ, List, None, length, IfOk, IfErr};
ghost use Rattle.readiness.specs.EventLoop.{tasks_of};
ghost use Rattle.readiness.specs.Tasks.{task_in};
ghost use Rattle.metrics_server.specs.declared.TheConstants.{MOST_CLIENTS};
ghost use Rattle.readiness.specs.Sockets.{is_tcp_addr, is_tcp_listener};
ghost use Rattle.rwloops.specs.declared.fault.Fault.{Fault};
ghost use Rattle.rwloops.specs.declared.outcome.DevKind.{DevKind};
ghost use Rattle.metrics_server.specs.Server.{HasOwnAlarms, IsOpenFault, IsPortOf};
ghost use Rattle.metrics_server.specs.Server.{limit_of, metered_of, port_of};

use crate::client::Client;
use crate::desk::{Desk, Task};
use crate::service::MetricsService;
use fd_descriptor::{DevKind, Fault, TaskReader};
use readiness::{Addr, EventLoop, Host, Listen, Poller, RemoteAlarms, Sock, listen};
use relay_metrics::Metered;
use std::alloc::Global;
use std::fs::{self, Files};
use std::hash::RandomState;
use std::mem;
use std::net::Net;
use std::random::RandomSource;
use std::sync::Wait;
use std::sync::atomic::{AtomicBool, Ordering};
use std::thread::{Threads, sleep};
use std::time::{Clock, Duration, Instant};

/// How long the thread rests where its poller fails, so that it doesn't take a processor from the
/// relay: a tenth of a second.
const REST_MS: u64 = 100;

const DEVICE: Fault = Fault::Device(DevKind::Other);

/// A server that listens. Nobody is served before it is started.
#[derive(Drop)]
pub struct MetricsServer<R: Wait + Clock + Copy + Drop, M: Metered + Drop> {
    pub(crate) alloc: Global,
    pub(crate) tasks: EventLoop<Task<R>>,
    pub(crate) desk: Desk<R, M>,
    port: Option<u16>,
}

// Removes the path that a listener at this address has bound just now.
fn unlink<R: Files>(rt: &R, addr: &Addr) {
    if let Addr::Unix(path) = addr {
        let _ = fs::remove_file(rt, path.as_str());
    }
}

// A listener at this address.
fn bound<R: Net + Files>(rt: &R, addr: &Addr) -> Result<Listen, Fault>
    ensures family { IfOk result (λ listener. is_tcp_listener listener ≡ is_tcp_addr addr.now) }
    ensures faults { IfErr result (λ fault. fault ≡ Fault.Device DevKind.Other) }
{
    match listen(rt, addr) {
        Ok(listener) => Ok(listener),
        Err(_) => Err(DEVICE),
    }
}

// The task of a listener at this address, of which turns tell under this token, and its port. One
// that is refused leaves no path.
fn listening<R: Wait + Net + Files + Copy + Drop>(
    rt: R,
    alloc: Global,
    poller: &Poller,
    addr: &Addr,
    token: u64,
) -> Result<(Task<R>, Option<u16>), Fault>
    ensures port { IfOk result (λ made. IsPortOf addr.now made.1) }
    ensures faults { IfErr result (λ fault. fault ≡ Fault.Device DevKind.Other) }
{
    let listener = bound(&rt, addr)?;
    let port = listener.port();
    match poller.open_listener(alloc, listener, token) {
        Ok(handle) => Ok((Task::Listener(TaskReader::new(rt, handle)), port)),
        Err(_) => {
            unlink(&rt, addr);
            Err(DEVICE)
        }
    }
}

impl<R, M> MetricsServer<R, M>
where
    R: Wait + Clock + Copy + Drop,
    M: Metered + Drop,
{
    /// Listens at this address, and gives each client so many nanoseconds. The path of a Unix
    /// address stays when the server ends: who opens it removes it. A refused one leaves no path.
    pub fn open(
        rt: R,
        alloc: Global,
        addr: &Addr,
        limit_ns: u64,
        metered: M,
    ) -> Result<MetricsServer<R, M>, Fault>
    where
        R: Net + Files,
        ensures port { IfOk result (λ server. IsPortOf addr.now (port_of server)) }
        ensures limit { IfOk result (λ server. limit_of server ≡ limit_ns) }
        ensures metered { IfOk result (λ server. metered_of server ≡ metered) }
        ensures alarms { IfOk result HasOwnAlarms }
        ensures faults { IfErr result IsOpenFault }
    {
        let mut tasks = EventLoop::new(&rt, alloc)?;
        let Ok(start) = Instant::now(&rt) else {
            return Err(DEVICE);
        };
        let Ok(place) = tasks.vacant() else {
            return Err(Fault::OutOfMemory);
        };
        let (task, port) = listening(rt, alloc, tasks.poller(), addr, place.first)?;
        let (Ok(_), Ok(remote)) = (tasks.put(task), tasks.remote()) else {
            unlink(&rt, addr);
            return Err(Fault::OutOfMemory);
        };
        let alarms = RemoteAlarms::new(rt, remote);
        let service = MetricsService::new(alloc, metered);
        let desk = Desk::new(rt, alloc, start, alarms, place.first, limit_ns, service);
        Ok(MetricsServer {
            alloc,
            tasks,
            desk,
            port,
        })
    }

    /// The port of a TCP address, as where it was opened at port 0. A Unix one has none.
    pub fn port(&self) -> Option<u16>
        ensures { result ≡ port_of self.now }
    {
        self.port
    }

    // Ends the client that came first, where as many stand as may.
    fn make_room(&mut self)
        ensures room { length self.old.desk.standing.items < MOST_CLIENTS → self.new ≡ self.old }
        ensures first { (first : ℕ) (others : List ℕ)
            → MOST_CLIENTS ≤ length self.old.desk.standing.items
            → self.old.desk.standing.items ≡ first ∷ others
            → task_in (tasks_of self.new.tasks) first ≡ None }
        ensures accepted { self.new.desk.accepted ≡ self.old.desk.accepted }
    {
        if let Some(first) = self.desk.gives_way() {
            if let Some(task) = self.tasks.take(first) {
                self.desk.over(task);
            }
        }
    }
}

impl<R, M> MetricsServer<R, M>
where
    R: Wait + Threads + Clock + RandomSource + Copy + Drop,
    M: Metered + Drop,
{
    // Takes a connection in. Where anything is refused it is closed.
    fn take_in(&mut self, sock: Sock) -> Option<()>
        ensures { self.new.desk.accepted ≡ self.old.desk.accepted }
    {
        self.make_room();
        let rt = self.desk.rt;
        let keys = RandomState::new(&rt).ok()?;
        let token = self.tasks.vacant().ok()?.first;
        let handle = self.tasks.poller().open(self.alloc, sock, token).ok()?;
        let mut client = Client::new(rt, self.alloc, keys, handle, token)?;
        if !self.desk.begin(&mut client) {
            return None;
        }
        if let Err(task) = self.tasks.put(Task::Client(client)) {
            self.desk.over(task);
        }
        Some(())
    }

    // Has its tasks go on, and takes in who was accepted.
    fn turn(&mut self)
        ensures { self.new.desk.accepted.items ≡ [] }
    {
        let (rt, now) = (self.desk.rt, self.desk.now());
        if self.tasks.turn(&rt, now, &mut self.desk).is_err() {
            sleep(&rt, Duration::from_millis(REST_MS));
        }
        let accepted = mem::replace(&mut self.desk.accepted, Vec::new(self.alloc));
        for sock in accepted {
            let _ = self.take_in(sock);
        }
    }

    /// Serves until it is stopped, and then closes all clients.
    pub(crate) fn run(&mut self, stopped: &AtomicBool) {
        let rt = self.desk.rt;
        for _ in rt.forever() {
            self.turn();
            if stopped.load(Ordering::SeqCst) {
                return self.tasks.end_all(&mut self.desk);
            }
        }
        unreachable!()
    }
}
