//! What a descriptor asks the system by about its connection's socket. As sockets record nothing, no
//! clause says what the system then has.

ghost use Rattle.std.specs.Prelude.{◌≡◌, true, false, None, Ok, IsOk};
ghost use Rattle.readiness.specs.Sockets.{is_tcp, socket_number};
ghost use Rattle.readiness.specs.SockControl.{asked_number, asks_tcp};

use crate::raw_socket::{get_option, set_option};
use crate::sock::Sock;
use crate::socket_options::TcpOptions;
use libc::net as c;
use std::io;
use std::os::fd::AsRawFd;

/// The system's number of a connection's socket, which is the socket's for as long as the socket is
/// there. So a descriptor lends it to those alone who hold a reference, and nobody can copy it.
#[derive(Drop)]
pub struct SockControl {
    number: i32,
    tcp: bool,
}

fn keep_alive(fd: i32, seconds: u32) -> io::Result<()> {
    set_option(fd, c::SOL_SOCKET, c::SO_KEEPALIVE, 1)?;
    set_option(fd, c::IPPROTO_TCP, c::TCP_KEEPIDLE, seconds)?;
    set_option(fd, c::IPPROTO_TCP, c::TCP_KEEPINTVL, seconds)
}

// Asks for these of the TCP socket with this number.
fn set_tcp(fd: i32, options: &TcpOptions) -> io::Result<()>
    ensures none { options.now.keepalive_s ≡ None → options.now.user_timeout_ms ≡ None
        → IsOk result }
{
    if let Some(seconds) = options.keepalive_s {
        keep_alive(fd, seconds)?;
    }
    match options.user_timeout_ms {
        Some(ms) => set_option(fd, c::IPPROTO_TCP, c::TCP_USER_TIMEOUT, ms),
        None => Ok(()),
    }
}

impl SockControl {
    pub(crate) fn of(sock: &Sock) -> SockControl
        ensures number { asked_number result ≡ socket_number sock.now }
        ensures tcp { asks_tcp result ≡ is_tcp sock.now }
    {
        match sock {
            Sock::Tcp(tcp) => SockControl {
                number: tcp.stream.as_raw_fd(),
                tcp: true,
            },
            Sock::Unix(unix) => SockControl {
                number: unix.stream.as_raw_fd(),
                tcp: false,
            },
        }
    }

    /// Asks for these of the connection, made or being made; over a Unix socket for nothing.
    pub fn set_options(&self, options: &TcpOptions) -> io::Result<()>
        ensures unix { asks_tcp self.now ≡ false → IsOk result }
        ensures none { options.now.keepalive_s ≡ None → options.now.user_timeout_ms ≡ None
            → IsOk result }
    {
        if self.tcp {
            set_tcp(self.number, options)
        } else {
            Ok(())
        }
    }

    /// Has small writes sent at once (`TCP_NODELAY`), or held back until those before them are
    /// acknowledged. A Unix socket holds nothing back, and is asked for nothing. It is Go's
    /// `SetNoDelay`.
    pub fn set_nodelay(&self, at_once: bool) -> io::Result<()>
        ensures unix { asks_tcp self.now ≡ false → IsOk result }
    {
        if self.tcp {
            set_option(
                self.number,
                c::IPPROTO_TCP,
                c::TCP_NODELAY,
                u32::from(at_once),
            )
        } else {
            Ok(())
        }
    }

    /// Whether small writes are sent at once. Over a Unix socket they always are.
    pub fn nodelay(&self) -> io::Result<bool>
        ensures unix { asks_tcp self.now ≡ false → result ≡ Ok true }
    {
        if self.tcp {
            Ok(get_option(self.number, c::IPPROTO_TCP, c::TCP_NODELAY)? != 0)
        } else {
            Ok(true)
        }
    }

    /// Has a peer that was silent for so many seconds asked whether it is there, and again after as
    /// many; with `None` it isn't asked any more. The system takes 1 to 32,767 seconds, and refuses
    /// others as `InvalidInput`; then a peer is asked by the times that the socket had. A Unix
    /// socket is asked for nothing. It is Go's `SetKeepAlive` and `SetKeepAlivePeriod` in one.
    pub fn set_keepalive(&self, seconds: Option<u32>) -> io::Result<()>
        ensures unix { asks_tcp self.now ≡ false → IsOk result }
    {
        match seconds {
            _ if !self.tcp => Ok(()),
            Some(seconds) => keep_alive(self.number, seconds),
            None => set_option(self.number, c::SOL_SOCKET, c::SO_KEEPALIVE, 0),
        }
    }

    /// After how many silent seconds a peer is asked whether it is there, or `None` where it isn't,
    /// as over a Unix socket.
    pub fn keepalive(&self) -> io::Result<Option<u32>>
        ensures unix { asks_tcp self.now ≡ false → result ≡ Ok None }
    {
        if !self.tcp || get_option(self.number, c::SOL_SOCKET, c::SO_KEEPALIVE)? == 0 {
            return Ok(None);
        }
        let seconds = get_option(self.number, c::IPPROTO_TCP, c::TCP_KEEPIDLE)?;
        Ok(Some(seconds))
    }
}
