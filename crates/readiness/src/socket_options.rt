//! What the system is asked for of a socket beside its address. Sockets record nothing, so that no
//! clause says what the system then has.

ghost use Rattle.std.specs.Prelude.{◌≡◌, false, None, IsOk};
ghost use Rattle.readiness.specs.Sockets.{is_tcp};

use crate::raw_socket::checked;
use crate::sock::{Listen, Sock};
use crate::sock_control::SockControl;
use libc::net as c;
use std::io;
use std::os::fd::AsRawFd;

/// What a connection over TCP is asked for. What isn't said stays as the system has it.
#[derive(Clone, Copy, Debug, PartialEq, Eq, Drop)]
pub struct TcpOptions {
    /// A peer that was silent for so many seconds is asked whether it is there, and again after as
    /// many, as often as the system does that before it gives up.
    pub keepalive_s: Option<u32>,
    /// A peer that left sent bytes unacknowledged for so many milliseconds is given up.
    pub user_timeout_ms: Option<u32>,
}

impl Sock {
    /// Asks for these of its connection, made or being made; over a Unix socket for nothing.
    pub fn set_options(&self, options: &TcpOptions) -> io::Result<()>
        ensures unix { is_tcp self.now ≡ false → IsOk result }
        ensures none { options.now.keepalive_s ≡ None → options.now.user_timeout_ms ≡ None
            → IsOk result }
    {
        SockControl::of(self).set_options(options)
    }
}

impl Listen {
    /// Lets so many clients wait for an accept, or about as many; the system may have a lower limit. One
    /// that listens already may be told so too.
    pub fn set_backlog(&self, clients: u32) -> io::Result<()> {
        let backlog = i32::try_from(clients).unwrap_or(i32::MAX);
        let fd = match self {
            Listen::Tcp(listener) => listener.as_raw_fd(),
            Listen::Unix(listener) => listener.as_raw_fd(),
        };
        checked(c::listen(fd, backlog))
    }
}
