//! A listener, which gives connections.

ghost use Rattle.std.specs.Prelude.{◌≡◌, true, false, None, IfOk, OnOk};
ghost use Rattle.fd_descriptor.specs.FdHandle.{KeepsHandle, descriptor_of, marks_of};
ghost use Rattle.fd_descriptor.specs.HandleCalls.{Accepts, Closes, SetsDeadline};
ghost use Rattle.net.specs.Conn.{IsNotConnected, has_task, is_closed, untold_of};
ghost use Rattle.net.specs.Failures.{FailsAs, FailsForMemory, FailsToAccept};
ghost use Rattle.net.specs.Gone.{gone_id};
ghost use Rattle.net.specs.SocketCloser.{closes};
ghost use Rattle.net.specs.Listener.{HasStopped, IsOfFamily, is_shut, listening_handle};
ghost use Rattle.net.specs.Listener.{listens_at, common_of};
ghost use Rattle.readiness.specs.Sockets.{is_tcp_addr, is_tcp_listener};

use crate::accept_times::{accept_timed, lift_late, set_accept_time};
use crate::errors::{error_with, told};
use crate::gone::Gone;
use crate::guard::Guard;
use crate::home::Home;
use crate::running::Net;
use crate::runs::Runs;
use crate::shared::Shared;
use crate::socket_closer::SocketCloser;
use crate::stream::Conn;
use fd_descriptor::{Deadline, Dir, Fault, FdHandle, TaskReader};
use readiness::{Addr, LastCodes, Listen, NotedListenRes, Sock, listen_io};
use std::fs::Files;
use std::io;
use std::net::Net as Sockets;
use std::sync::Arc;
use std::thread::Threads;
use std::time::Duration;

/// A listener. Any number of threads may accept, each by a clone of its own; when the last clone is
/// let go, it is closed.
#[derive(Drop)]
pub struct Listener<R: Runs> {
    handle: FdHandle<NotedListenRes>,
    guard: Arc<Guard<R>>,
}

impl<R: Runs + Threads + Sockets + Files> Listener<R> {
    /// Listens at an address; at port 0 the system chooses one, which `local_addr` tells. At `[::]`
    /// it takes clients of IPv6 alone, as at each IPv6 address. The file at the path of a Unix one
    /// goes when the listener closes.
    pub fn bind(net: &Net<R>, addr: &Addr) -> io::Result<Listener<R>>
        ensures open { IfOk result (λ listener. is_shut listener ≡ false) }
        ensures family { IfOk result (IsOfFamily addr.now) }
    {
        let listen = listen_io(&net.shared.rt, addr)?;
        let held = Listener::hold(&net.shared, listen, addr);
        if held.is_err() {
            unlink_at(&net.shared.rt, addr);
        }
        held
    }
}

// Removes what a listener made at this address that nobody holds.
fn unlink_at<R: Runs>(rt: &R, addr: &Addr) {
    if let Addr::Unix(path) = addr {
        rt.unlink(path.as_str());
    }
}

impl<R: Runs> Listener<R> {
    // A listener of a socket, with the address that it was given.
    fn hold(shared: &Arc<Shared<R>>, listen: Listen, addr: &Addr) -> io::Result<Listener<R>>
        ensures open { IfOk result (λ listener. is_shut listener ≡ false) }
        ensures family { is_tcp_listener listen ≡ is_tcp_addr addr.now
            → IfOk result (IsOfFamily addr.now) }
    {
        let local = listen.local();
        let path = match addr {
            Addr::Unix(path) => Some(*path),
            Addr::Tcp(_, _) | Addr::Tcp6(_, _, _) => None,
        };
        let shared = Arc::try_clone(shared)?;
        let alloc = shared.alloc;
        let codes = Arc::new(alloc, LastCodes::new())?;
        let (id, handle) = shared.hold_listener(listen, &codes, path)?;
        let guard = Arc::new(alloc, Guard::new(shared, id, codes, local, None, None))?;
        Ok(Listener { handle, guard })
    }

    /// Its id in the table of its net.
    pub(crate) fn id(&self) -> u64
        ensures { result ≡ (common_of self.now).id }
    {
        self.guard.id
    }

    /// Waits for a connection, however long accepts may, as a socket that no poller knows yet.
    pub(crate) fn accept_sock(&mut self) -> io::Result<Sock>
        ensures keeps { KeepsHandle (listening_handle self.old) (listening_handle self.new) }
        ensures closed { is_shut self.old ≡ true → IsNotConnected result }
        ensures fails { FailsAs Accepts result }
        ensures guard { self.new.guard ≡ self.old.guard }
    {
        let guard = &*self.guard;
        let accepted = self.handle.accept(&guard.shared.rt);
        told(accepted, guard.code(Dir::Read))
    }

    // The same, for as long as accepts may.
    fn accept_in_time(&mut self) -> io::Result<Sock>
        ensures keeps { KeepsHandle (listening_handle self.old) (listening_handle self.new) }
        ensures closed { is_shut self.old ≡ true → IsNotConnected result }
        ensures fails { FailsToAccept result }
        ensures guard { self.new.guard ≡ self.old.guard }
    {
        let guard = &*self.guard;
        if self.handle.look().closed {
            return Err(error_with(Fault::Closed, None));
        }
        let own = told(self.handle.share(), None)?;
        told(accept_timed(guard, own), guard.code(Dir::Read))
    }

    /// Has accepts go on that were late by a time of others' accepts. `false` says that the listener
    /// was closed, or that its last call came.
    pub(crate) fn lift_late(&mut self) -> bool
        ensures keeps { KeepsHandle (listening_handle self.old) (listening_handle self.new) }
        ensures guard { self.new.guard ≡ self.old.guard }
    {
        lift_late(&self.guard, &mut self.handle)
    }

    /// Lifts the deadline by which a last call ended its accepts.
    pub(crate) fn lift(&mut self) -> io::Result<()>
        ensures keeps { KeepsHandle (listening_handle self.old) (listening_handle self.new) }
        ensures closed { is_shut self.old ≡ true → IsNotConnected result }
        ensures fails { FailsAs SetsDeadline result }
        ensures guard { self.new.guard ≡ self.old.guard }
    {
        let guard = &*self.guard;
        let rt = guard.shared.rt;
        let now = guard.shared.now();
        let lifted = self
            .handle
            .set_read_deadline(&rt, Deadline::Never, now, guard);
        told(lifted, None)
    }

    fn poll_once(&mut self) -> Option<Result<Sock, Fault>>
        ensures guard { self.new.guard ≡ self.old.guard }
    {
        let rt = self.guard.shared.rt;
        let handle = self.handle.share().ok()?;
        let mut half = TaskReader::new(rt, handle);
        half.poll_accept()
    }

    /// Who waits at it, if anybody does, as a socket that no poller knows yet. The deadline of its
    /// last call, which may come once more after it was lifted, is passed over.
    pub(crate) fn poll_sock(&mut self) -> Option<Sock>
        ensures guard { self.new.guard ≡ self.old.guard }
    {
        match self.poll_once()? {
            Err(Fault::DeadlineExceeded) => {
                self.lift().ok()?;
                self.poll_once()?.ok()
            }
            answer => answer.ok(),
        }
    }

    /// Has each accept give up after so long, as `TimedOut`, for all who share the listener. One that
    /// waits now has so long from now; with `None` none gives up. The accepts of a service know no
    /// time. Once the listener is closed, or its service's shutdown was asked for, it is
    /// `NotConnected`.
    pub fn set_accept_timeout(&mut self, time: Option<Duration>) -> io::Result<()>
        ensures keeps { KeepsHandle (listening_handle self.old) (listening_handle self.new) }
        ensures closed { is_shut self.old ≡ true → IsNotConnected result }
        ensures fails { FailsAs SetsDeadline result }
        ensures common { common_of self.new ≡ common_of self.old }
    {
        let set = set_accept_time(&self.guard, &mut self.handle, time);
        told(set, None)
    }

    /// Waits for a connection, for as long as `set_accept_timeout` says. It fails as a handle's accept
    /// does, by want of memory, or with the system's error where the poller refuses the socket.
    pub fn accept(&mut self) -> io::Result<Conn<R>>
        ensures open { IfOk result (λ conn. is_closed conn ≡ false) }
        ensures untold { IfOk result (λ conn. untold_of conn ≡ None) }
        ensures taskless { IfOk result (λ conn. has_task conn ≡ false) }
        ensures keeps { KeepsHandle (listening_handle self.old) (listening_handle self.new) }
        ensures closed { is_shut self.old ≡ true → IsNotConnected result }
        ensures local { listens_at self.new ≡ listens_at self.old }
    {
        let sock = self.accept_in_time()?;
        let peer = sock.peer();
        Conn::hold(&self.guard.shared, sock, peer, &Home::Net)
    }

    /// Another owner of this listener, for another thread.
    pub fn try_clone(&mut self) -> io::Result<Listener<R>>
        ensures kept { marks_of (listening_handle self.new)
            ≡ marks_of (listening_handle self.old) }
        ensures same { IfOk result (λ other. descriptor_of (listening_handle other)
            ≡ descriptor_of (listening_handle self.old)) }
        ensures seen { IfOk result (λ other. marks_of (listening_handle other)
            ≡ marks_of (listening_handle self.old)) }
        ensures shared { IfOk result (λ other. common_of other ≡ common_of self.old) }
        ensures local { listens_at self.new ≡ listens_at self.old }
        ensures fails { FailsForMemory result }
    {
        let handle = told(self.handle.share(), None)?;
        let guard = Arc::try_clone(&self.guard)?;
        Ok(Listener { handle, guard })
    }

    /// Closes the listener for all who share it: their accepts end as `NotConnected`.
    pub fn close(&mut self) -> io::Result<()>
        ensures keeps { KeepsHandle (listening_handle self.old) (listening_handle self.new) }
        ensures closed { is_shut self.old ≡ true → IsNotConnected result }
        ensures ended { OnOk result (HasStopped self.new) }
        ensures local { listens_at self.new ≡ listens_at self.old }
        ensures fails { FailsAs Closes result }
    {
        let shared = &*self.guard.shared;
        let _ = shared.take(self.guard.id);
        told(self.handle.close(&shared.rt), None)
    }

    /// Closes it by its net's table, for all who share it.
    pub(crate) fn end(&self) -> Gone
        ensures own { gone_id result ≡ (common_of self.now).id }
    {
        self.guard.shared.end(self.guard.id)
    }

    /// A handle that closes it, for other threads, which may do so while it accepts.
    pub fn closer(&self) -> io::Result<SocketCloser<R>>
        ensures own { IfOk result (λ closer. closes closer ≡ (common_of self.now).id) }
        ensures fails { FailsForMemory result }
    {
        SocketCloser::of(&self.guard.shared, self.guard.id)
    }

    /// Where it listens.
    pub fn local_addr(&self) -> Option<Addr>
        ensures { result ≡ listens_at self.now }
    {
        self.guard.local
    }
}
