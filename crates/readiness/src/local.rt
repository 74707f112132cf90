//! This end's address of a socket, as the system has it.

ghost use Rattle.std.specs.Prelude.{◌≡◌, IfOk, IfSome, OnErr, Some, None, true, false};
ghost use Rattle.readiness.specs.Peers.{tcp_addr};
ghost use Rattle.readiness.specs.Sockets.{is_tcp, is_tcp_listener, is_tcp_addr};

use crate::addr::Addr;
use crate::peer::path_of;
use crate::sock::{Listen, Sock};
use std::io;
use std::net::SocketAddr;
use std::os::unix::net;

// What is kept of an address of TCP that the system told.
fn tcp_local(told: io::Result<SocketAddr>) -> Option<Addr>
    ensures kept { IfOk told (λ at. result ≡ Some (tcp_addr at)) }
    ensures unknown { OnErr told (result ≡ None) }
    ensures family { IfSome result (λ addr. is_tcp_addr addr ≡ true) }
{
    match told {
        Ok(at) => Some(Addr::of(at)),
        Err(_) => None,
    }
}

// What is kept of an address of a Unix socket that the system told.
fn unix_local(told: io::Result<net::SocketAddr>) -> Option<Addr>
    ensures unknown { OnErr told (result ≡ None) }
    ensures family { IfSome result (λ addr. is_tcp_addr addr ≡ false) }
{
    match told {
        Ok(addr) => match path_of(addr.as_pathname()) {
            Some(path) => Some(Addr::Unix(path)),
            None => None,
        },
        Err(_) => None,
    }
}

impl Sock {
    /// This end's address. A Unix socket that `connect` made has none, nor has one with a path of
    /// more than 100 bytes.
    pub fn local(&self) -> Option<Addr>
        ensures family { IfSome result (λ addr. is_tcp_addr addr ≡ is_tcp self.now) }
    {
        match self {
            Sock::Tcp(tcp) => tcp_local(tcp.local_addr()),
            Sock::Unix(unix) => unix_local(unix.local_addr()),
        }
    }
}

impl Listen {
    /// Where it listens: of a TCP listener with the port that was taken.
    pub fn local(&self) -> Option<Addr>
        ensures family { IfSome result (λ addr. is_tcp_addr addr ≡ is_tcp_listener self.now) }
    {
        match self {
            Listen::Tcp(listener) => tcp_local(listener.local_addr()),
            Listen::Unix(listener) => unix_local(listener.local_addr()),
        }
    }
}
