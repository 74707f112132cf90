//! How a connection comes about by the name of a host.

ghost use Rattle.std.specs.Prelude.{◌≡◌, false, None, Contains, IfOk, IsErrAnd, IsSomeAnd};
ghost use Rattle.std.specs.IoError.{error_kind};
ghost use Rattle.std.specs.declared.io.ErrorKind.{ErrorKind};
ghost use Rattle.net.specs.Address.{NamesNothing};
ghost use Rattle.net.specs.Attempts.{addrs_of};
ghost use Rattle.net.specs.Conn.{guard_of, has_task, is_closed, untold_of};
ghost use Rattle.net.specs.Host.{IsPeerAt, NamesNoHost};

use crate::address::address_of;
use crate::attempts::Attempts;
use crate::host::{host_and_port, look_up};
use crate::limits::moment_in;
use crate::running::Net;
use crate::runs::Runs;
use crate::stream::Conn;
use std::io;
use std::io::ErrorKind;
use std::net::Net as Sockets;
use std::thread::Threads;
use std::time::Duration;

impl<R: Runs + Threads + Sockets> Conn<R> {
    /// Connects to where a text names: an address as `address_of` takes it, or a host's name and a
    /// port, as `example.org:80`. The system's resolver looks the name up, and its addresses, 32 at
    /// most, are tried in turn, each for an equal part of the time that is left then: the first that
    /// is connected is given, and else the error is that of the last which was tried, the
    /// resolver's, or `TimedOut` where the time is over before. The time counts from the call, but
    /// a look-up isn't cut off: it takes as long as the resolver waits. Any other text is
    /// `InvalidInput`.
    pub fn dial(net: &Net<R>, target: &str, timeout: Option<Duration>) -> io::Result<Conn<R>>
        ensures open { IfOk result (λ conn. is_closed conn ≡ false) }
        ensures untold { IfOk result (λ conn. untold_of conn ≡ None) }
        ensures taskless { IfOk result (λ conn. has_task conn ≡ false) }
        ensures peer { IfOk result (λ conn. IsSomeAnd (guard_of conn).peer (IsPeerAt target.now)) }
        ensures refused { NamesNothing target.now → NamesNoHost target.now
            → IsErrAnd result (λ error. error_kind error ≡ ErrorKind.InvalidInput) }
    {
        if let Ok(addr) = address_of(target) {
            return Conn::connect(net, &addr, timeout);
        }
        let Some((host, port)) = host_and_port(target) else {
            return Err(ErrorKind::InvalidInput.into());
        };
        let shared = &*net.shared;
        let until = moment_in(shared.now(), timeout);
        let addrs = look_up(&shared.rt, shared.alloc, host, port)?;
        dial_in_turn(net, Attempts::new(addrs, until))
    }
}

// Connects to the first of these that takes it.
fn dial_in_turn<R: Runs + Threads + Sockets>(
    net: &Net<R>,
    attempts: Attempts,
) -> io::Result<Conn<R>>
    ensures open { IfOk result (λ conn. is_closed conn ≡ false) }
    ensures untold { IfOk result (λ conn. untold_of conn ≡ None) }
    ensures taskless { IfOk result (λ conn. has_task conn ≡ false) }
    ensures peer { IfOk result (λ conn.
        IsSomeAnd (guard_of conn).peer (Contains (addrs_of attempts))) }
{
    let mut attempts = attempts;
    let mut failed = io::Error::from(ErrorKind::TimedOut);
    while let Some(attempt) = attempts.next(net.shared.now()) {
        match Conn::connect(net, &attempt.addr, attempt.time) {
            Ok(conn) => return Ok(conn),
            Err(error) => failed = error,
        }
    }
    Err(failed)
}
