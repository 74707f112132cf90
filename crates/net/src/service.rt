//! A service: a listener whose connections are tasks of loops, many on each thread.

ghost use Rattle.std.specs.Prelude.{◌≡◌, None, IfOk, OnOk, IsSomeAnd, max, vec_len};
ghost use Rattle.net.specs.Asked.{IsAskedOf};
ghost use Rattle.net.specs.Failures.{FailsForMemory};
ghost use Rattle.net.specs.Listener.{HasStopped, listens_at};
ghost use Rattle.net.specs.Over.{IsOver, over_asked};
ghost use Rattle.net.specs.Service.{serves_at, loops_of, ends_of, closer_of, is_last_accept};

use crate::accepting::Listener;
use crate::closer::{Ends, ServiceCloser};
use crate::door::Door;
use crate::open_loops::{Opened, doors_of, open_loops, start_loops};
use crate::over::{Ended, LoopEnd, LoopsEnded};
use crate::running::Net;
use crate::runs::Runs;
use crate::task::Task;
use readiness::Addr;
use std::io::ErrorKind;
use std::net::Net as Sockets;
use std::sync::Arc;
use std::thread::{JoinHandle, Threads};
use std::time::Duration;
use std::{io, mem, thread};

/// How long an accept rests that the system refuses, as where no file can be opened any more.
const REST_MS: u64 = 5;

/// How many of those who wait each loop takes in at most, once the last call came: as many as the
/// sockets of a net.
const LAST_ROUNDS: u32 = 4_096;

/// A service that runs by itself: a thread accepts, and each connection is a task of one of the
/// loops, in turn. When it is stopped, or let go, its listener and all its connections are closed.
pub struct Service<R: Runs + Threads> {
    listener: Listener<R>,
    closer: ServiceCloser<R>,
    accepting: Option<JoinHandle<()>>,
    loops: Vec<JoinHandle<LoopEnd>>,
}

// Whether an accept that fails so may be the last: the listener is closed, or its last call came.
fn ends_accepts(kind: ErrorKind) -> bool
    ensures { result ≡ is_last_accept kind }
{
    matches!(kind, ErrorKind::NotConnected | ErrorKind::TimedOut)
}

// Accepts until the listener is closed or its last call comes, and hands each connection to the next
// loop. What the system refuses is tried again after a rest, so that a want of files or memory ends
// no service; and so is an accept that was late by a time which others have set for theirs.
fn hand_out<R: Runs>(rt: &R, listener: &mut Listener<R>, doors: &[Arc<Door>]) {
    for _ in rt.forever() {
        for door in doors {
            match listener.accept_sock() {
                Ok(sock) => door.hand_in(rt, sock),
                Err(error) if ends_accepts(error.kind()) && !listener.lift_late() => return,
                Err(_) => thread::sleep(rt, Duration::from_millis(REST_MS)),
            }
        }
    }
}

// Hands out those who wait at a listener whose last call came, a bounded number, so that a flood of
// clients can't keep it open.
fn hand_out_last<R: Runs>(rt: &R, listener: &mut Listener<R>, doors: &[Arc<Door>]) {
    if listener.lift().is_err() {
        return;
    }
    for _ in 0..LAST_ROUNDS {
        for door in doors {
            let Some(sock) = listener.poll_sock() else {
                return;
            };
            door.hand_in(rt, sock);
        }
    }
}

// What the thread does that accepts.
fn accept_on<R: Runs>(rt: R, listener: Listener<R>, ends: Arc<Ends<R>>) {
    let mut listener = listener;
    hand_out(&rt, &mut listener, ends.doors.as_slice());
    hand_out_last(&rt, &mut listener, ends.doors.as_slice());
    let _ = listener.close();
    ends.no_more();
}

impl<R> Service<R>
where
    R: Runs + Threads + Sockets + Send + Sync + 'static,
{
    fn start_accepting(&mut self) -> io::Result<()>
        ensures at { serves_at self.new ≡ serves_at self.old }
        ensures loops { loops_of self.new ≡ loops_of self.old }
    {
        let ends = Arc::try_clone(&self.closer.ends)?;
        let listener = self.listener.try_clone()?;
        let rt = ends.shared.rt;
        let accepting = thread::spawn(&rt, move || accept_on(rt, listener, ends))?;
        self.accepting = Some(accepting);
        Ok(())
    }
}

impl<R> Net<R>
where
    R: Runs + Threads + Sockets + Send + Sync + 'static,
{
    /// Serves the connections of a listener by so many loops, each a thread, at least one: a task
    /// for each connection, begun of this one. Where anything is refused the listener is closed.
    pub fn serve<T>(&self, listener: Listener<R>, loops: usize, task: T) -> io::Result<Service<R>>
    where
        T: Task<R> + Send + 'static,
        ensures at { IfOk result (λ service. serves_at service ≡ listens_at listener) }
        ensures loops { IfOk result (λ service. loops_of service ≡ max loops 1) }
    {
        let (rt, alloc) = (self.shared.rt, self.shared.alloc);
        let opened = open_loops(&rt, alloc, loops.max(1))?;
        let closer = self.closer_of(listener.id(), opened.as_slice())?;
        let mut service = Service {
            listener,
            closer,
            accepting: None,
            loops: Vec::new(alloc),
        };
        start_loops(&mut service.loops, &service.closer, opened, &task)?;
        service.start_accepting()?;
        Ok(service)
    }

    // What ends the service of this listener and these loops.
    fn closer_of(&self, listener: u64, opened: &[Opened]) -> io::Result<ServiceCloser<R>> {
        let shared = Arc::try_clone(&self.shared)?;
        let alloc = shared.alloc;
        let doors = doors_of(alloc, opened)?;
        let ends = Ends {
            shared,
            listener,
            doors,
        };
        Ok(ServiceCloser {
            ends: Arc::new(alloc, ends)?,
        })
    }
}

// Waits for all loops.
fn join_all<R: Threads>(rt: &R, loops: Vec<JoinHandle<LoopEnd>>) -> LoopsEnded
    ensures all { result.loops ≡ vec_len loops }
{
    let mut loops = loops;
    let mut ended = LoopsEnded::none();
    while let Some(one) = loops.pop() {
        ended = ended.and(one.join(rt));
    }
    ended
}

// Ends what a service has: first who accepts, then each loop with its connections.
fn end_service<R: Runs + Threads>(
    listener: Listener<R>,
    closer: &ServiceCloser<R>,
    accepting: Option<JoinHandle<()>>,
    loops: Vec<JoinHandle<LoopEnd>>,
) -> (io::Result<()>, Listener<R>)
    ensures stopped { OnOk result.0 (HasStopped result.1) }
    ensures own { listens_at result.1 ≡ listens_at listener }
{
    let rt = closer.ends.shared.rt;
    let mut listener = listener;
    let closed = listener.close();
    if let Some(accepting) = accepting {
        accepting.join(&rt);
    }
    closer.ends.shut();
    let _ = join_all(&rt, loops);
    (closed, listener)
}

impl<R: Runs + Threads> Service<R> {
    /// Where its listener listens.
    pub fn local_addr(&self) -> Option<Addr>
        ensures { result ≡ serves_at self.now }
    {
        self.listener.local_addr()
    }

    /// A handle that ends it, for other threads.
    pub fn closer(&self) -> io::Result<ServiceCloser<R>>
        ensures own { IfOk result (λ closer. ends_of closer ≡ ends_of (closer_of self.now)) }
        ensures fails { FailsForMemory result }
    {
        self.closer.try_clone()
    }

    /// Waits until it is over: until it listens no more and, where `ServiceCloser::shutdown` asked
    /// for that, its tasks have ended, or their time has. Where the listener was closed otherwise, by
    /// a clone or with its net, it then stops. At the end it has no connection and no listener.
    pub fn wait(self) -> Ended
        ensures over { IsOver self result }
        ensures asked { over_asked result ≡ None }
    {
        let mut service = self;
        let rt = service.closer.ends.shared.rt;
        if let Some(accepting) = service.accepting.take() {
            accepting.join(&rt);
        }
        if !service.closer.ends.is_ending() {
            service.closer.ends.shut();
        }
        let alloc = service.closer.ends.shared.alloc;
        let loops = mem::replace(&mut service.loops, Vec::new(alloc));
        let ended = join_all(&rt, loops);
        Ended::new(ended, service.listener.end())
    }

    /// Ends it as `ServiceCloser::shutdown` asks for, and waits until it is over.
    pub fn shutdown(self, within: Duration) -> Ended
        ensures over { IsOver self result }
        ensures asked { IsSomeAnd (over_asked result)
            (IsAskedOf (ends_of (closer_of self)) within) }
    {
        let asked = self.closer.shutdown(within);
        self.wait().by(asked)
    }

    /// Closes the listener and all connections at once, and ends the threads.
    pub fn stop(self) {
        drop(self)
    }
}

impl<R: Runs + Threads> Drop for Service<R> {
    fn drop(self) {
        let Service {
            listener,
            closer,
            accepting,
            loops,
        } = self;
        let _ = end_service(listener, &closer, accepting, loops);
    }
}
