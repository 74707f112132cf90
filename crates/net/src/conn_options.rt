//! What a connection asks the system for of its socket. No call here waits for a read or a write that
//! is under way, and over a Unix socket nothing is asked for.

ghost use Rattle.std.specs.Prelude.{◌≡◌, true, false, None, Some, OnOk, IfOk};
ghost use Rattle.fd_descriptor.specs.FdHandle.{KeepsHandle};
ghost use Rattle.fd_descriptor.specs.HandleCalls.{Controls};
ghost use Rattle.net.specs.Conn.{IsNotConnected, guard_of, handle_of, is_closed, is_tcp_conn, untold_of};
ghost use Rattle.net.specs.ConnOptions.{IsSecondsUp};
ghost use Rattle.net.specs.Failures.{FailsAs};

use crate::errors::told;
use crate::runs::Runs;
use crate::stream::Conn;
use std::io;
use std::time::Duration;

const NANOS_OF_A_SECOND: u64 = 1_000_000_000;

// The whole seconds of a time, rounded up, at least one.
fn seconds_up(time: Duration) -> u32
    ensures { IsSecondsUp time result }
{
    let nanos = u64::try_from(time.as_nanos()).unwrap_or(u64::MAX);
    let whole = nanos / NANOS_OF_A_SECOND;
    let seconds = if nanos % NANOS_OF_A_SECOND > 0 {
        whole + 1
    } else {
        whole
    };
    u32::try_from(seconds.max(1)).unwrap_or(u32::MAX)
}

impl<R: Runs> Conn<R> {
    /// Has small writes sent at once (`TCP_NODELAY`), as they are from the start, or held back until
    /// those before them are acknowledged. A Unix socket holds nothing back.
    pub fn set_nodelay(&mut self, at_once: bool) -> io::Result<()>
        ensures keeps { KeepsHandle (handle_of self.old) (handle_of self.new) }
        ensures closed { is_closed self.old ≡ true → IsNotConnected result }
        ensures unix { is_tcp_conn self.old ≡ false → FailsAs Controls result }
        ensures untold { untold_of self.new ≡ untold_of self.old }
        ensures guard { guard_of self.new ≡ guard_of self.old }
    {
        let rt = self.guard.shared.rt;
        let asked = self.handle.control(&rt, |sock| sock.set_nodelay(at_once));
        told(asked, None)?
    }

    /// Whether small writes are sent at once, as over a Unix socket they always are.
    pub fn nodelay(&mut self) -> io::Result<bool>
        ensures keeps { KeepsHandle (handle_of self.old) (handle_of self.new) }
        ensures closed { is_closed self.old ≡ true → IsNotConnected result }
        ensures unix { is_tcp_conn self.old ≡ false → FailsAs Controls result }
        ensures told { is_tcp_conn self.old ≡ false → IfOk result (λ at_once. at_once ≡ true) }
        ensures untold { untold_of self.new ≡ untold_of self.old }
        ensures guard { guard_of self.new ≡ guard_of self.old }
    {
        let rt = self.guard.shared.rt;
        let asked = self.handle.control(&rt, |sock| sock.nodelay());
        told(asked, None)?
    }

    /// Has the system ask a peer that was silent for so long whether it is there, and again after as
    /// long; one that doesn't answer is lost, and reads and writes fail. Of the time whole seconds
    /// count, rounded up, 1 to 32,767: more is the system's `InvalidInput`. With `None` no peer is
    /// asked, as at the start. Nor is one at a Unix socket.
    pub fn set_keepalive(&mut self, every: Option<Duration>) -> io::Result<()>
        ensures keeps { KeepsHandle (handle_of self.old) (handle_of self.new) }
        ensures closed { is_closed self.old ≡ true → IsNotConnected result }
        ensures unix { is_tcp_conn self.old ≡ false → FailsAs Controls result }
        ensures untold { untold_of self.new ≡ untold_of self.old }
        ensures guard { guard_of self.new ≡ guard_of self.old }
    {
        let rt = self.guard.shared.rt;
        let seconds = match every {
            Some(time) => Some(seconds_up(time)),
            None => None,
        };
        let asked = self.handle.control(&rt, |sock| sock.set_keepalive(seconds));
        told(asked, None)?
    }

    /// After how long a silent peer is asked whether it is there, or `None` where it isn't.
    pub fn keepalive(&mut self) -> io::Result<Option<Duration>>
        ensures keeps { KeepsHandle (handle_of self.old) (handle_of self.new) }
        ensures closed { is_closed self.old ≡ true → IsNotConnected result }
        ensures unix { is_tcp_conn self.old ≡ false → FailsAs Controls result }
        ensures none { is_tcp_conn self.old ≡ false → IfOk result (λ every. every ≡ None) }
        ensures untold { untold_of self.new ≡ untold_of self.old }
        ensures guard { guard_of self.new ≡ guard_of self.old }
    {
        let rt = self.guard.shared.rt;
        let asked = self.handle.control(&rt, |sock| sock.keepalive());
        match told(asked, None)?? {
            Some(seconds) => Ok(Some(Duration::from_secs(u64::from(seconds)))),
            None => Ok(None),
        }
    }
}
