//! What waits at a connection over TCP, looked at without being read: who awaits a header judges it first,
//! and then reads exactly its bytes. Sockets record nothing, so that no clause says which bytes wait.

ghost use Rattle.std.specs.Prelude.{◌≡◌, length, false};
ghost use Rattle.readiness.specs.Sockets.{is_tcp};
ghost use Rattle.rwloops.specs.Outcome.{IsCountWithin};
ghost use Rattle.rwloops.specs.declared.outcome.DevKind.{DevKind};
ghost use Rattle.rwloops.specs.declared.outcome.Outcome.{Outcome};

use crate::sock::Sock;
use crate::system_error::outcome_of;
use rwloops::{DevKind, Outcome};
use std::io::Read;

/// No call of the system's looks at what waits at a Unix socket.
const UNASKED: Outcome = Outcome::Broken(DevKind::Other);

impl Sock {
    /// Copies the first bytes that wait here, which stay for later reads. A count of 0 says that the
    /// stream's end is here. It is of connections over TCP.
    pub fn peek(&self, buf: &mut [u8]) -> Outcome
        ensures within { IsCountWithin (length buf.old) result }
        ensures same { length buf.new ≡ length buf.old }
        ensures unix { is_tcp self.now ≡ false → result ≡ Outcome.Broken DevKind.Other }
    {
        match self {
            Sock::Tcp(tcp) => outcome_of(tcp.stream.peek(buf)),
            Sock::Unix(_) => UNASKED,
        }
    }

    /// Reads the first bytes that wait here, which are gone then, as many as there is room for at most.
    /// It is of connections over TCP.
    pub fn read_now(&self, buf: &mut [u8]) -> Outcome
        ensures within { IsCountWithin (length buf.old) result }
        ensures same { length buf.new ≡ length buf.old }
        ensures unix { is_tcp self.now ≡ false → result ≡ Outcome.Broken DevKind.Other }
    {
        match self {
            Sock::Tcp(tcp) => {
                let mut reader = &tcp.stream;
                outcome_of(reader.read(buf))
            }
            Sock::Unix(_) => UNASKED,
        }
    }
}
