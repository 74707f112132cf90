//! How a connection comes about: by a connect, or of a socket that was accepted.

ghost use Rattle.std.specs.Prelude.{◌≡◌, true, false, None, Some, IfOk, OnOk};
ghost use Rattle.fd_descriptor.specs.HandleCalls.{Connects};
ghost use Rattle.net.specs.Conn.{IsNotConnected, guard_of, has_task, is_closed, untold_of};
ghost use Rattle.net.specs.Failures.{FailsAs, FailsToConnect};
ghost use Rattle.net.specs.Home.{is_loop};

use crate::errors::{error_with, told};
use crate::guard::Guard;
use crate::home::Home;
use crate::running::Net;
use crate::runs::Runs;
use crate::shared::Shared;
use crate::stream::Conn;
use crate::task::Blocked;
use fd_descriptor::{Dir, Fault};
use readiness::{Addr, LastCodes, Sock, connect_io};
use std::io;
use std::net::Net as Sockets;
use std::sync::Arc;
use std::thread::Threads;
use std::time::Duration;

impl<R: Runs + Threads + Sockets> Conn<R> {
    /// Connects to an address, and waits until the connection is made, for so long at most. One
    /// that is refused, late, or closed meanwhile with its net is let go: the system's error says
    /// why, or `TimedOut` or `NotConnected`. The connection is given without a time or a deadline.
    pub fn connect(net: &Net<R>, addr: &Addr, timeout: Option<Duration>) -> io::Result<Conn<R>>
        ensures open { IfOk result (λ conn. is_closed conn ≡ false) }
        ensures untold { IfOk result (λ conn. untold_of conn ≡ None) }
        ensures taskless { IfOk result (λ conn. has_task conn ≡ false) }
        ensures peer { IfOk result (λ conn. (guard_of conn).peer ≡ Some addr.now) }
    {
        let sock = connect_io(&net.shared.rt, addr)?;
        let mut conn = Conn::hold(&net.shared, sock, Some(*addr), &Home::Net)?;
        conn.wait_made(timeout)?;
        Ok(conn)
    }
}

impl<R: Runs> Conn<R> {
    /// A connection of a socket, with the address that it is connected to.
    pub(crate) fn hold(
        shared: &Arc<Shared<R>>,
        sock: Sock,
        peer: Option<Addr>,
        home: &Home<'_, R>,
    ) -> io::Result<Conn<R>>
        ensures open { IfOk result (λ conn. is_closed conn ≡ false) }
        ensures untold { IfOk result (λ conn. untold_of conn ≡ None) }
        ensures task { IfOk result (λ conn. has_task conn ≡ is_loop home.now) }
        ensures peer { IfOk result (λ conn. (guard_of conn).peer ≡ peer) }
    {
        let local = sock.local();
        let shared = Arc::try_clone(shared)?;
        let alloc = shared.alloc;
        let codes = Arc::new(alloc, LastCodes::new())?;
        let link = home.link(shared.rt)?;
        let (id, handle) = shared.hold(sock, &codes, home)?;
        let guard = Guard::new(shared, id, codes, local, peer, link);
        let guard = Arc::new(alloc, guard)?;
        Ok(Conn {
            handle,
            untold: None,
            blocked: Blocked::none(),
            guard,
        })
    }

    fn wait_connected(&mut self) -> io::Result<()>
        ensures fails { FailsAs Connects result }
        ensures untold { untold_of self.new ≡ untold_of self.old }
        ensures guard { guard_of self.new ≡ guard_of self.old }
    {
        let guard = &*self.guard;
        let connected = self.handle.connected(&guard.shared.rt);
        told(connected, guard.code(Dir::Write))
    }

    // Tells it where the connection is closed.
    fn look_open(&mut self) -> io::Result<()>
        ensures open { OnOk result (is_closed self.new ≡ false) }
        ensures closed { is_closed self.old ≡ true → IsNotConnected result }
        ensures fails { FailsAs Connects result }
        ensures untold { untold_of self.new ≡ untold_of self.old }
        ensures guard { guard_of self.new ≡ guard_of self.old }
    {
        if self.handle.look().closed {
            Err(error_with(Fault::Closed, None))
        } else {
            Ok(())
        }
    }

    // Waits until the connection is made, for so long at most, and leaves it without a deadline.
    fn wait_made(&mut self, timeout: Option<Duration>) -> io::Result<()>
        ensures open { OnOk result (is_closed self.new ≡ false) }
        ensures fails { FailsToConnect result }
        ensures untold { untold_of self.new ≡ untold_of self.old }
        ensures guard { guard_of self.new ≡ guard_of self.old }
    {
        self.set_deadline(timeout)?;
        self.wait_connected()?;
        self.set_deadline(None)?;
        self.look_open()
    }
}
