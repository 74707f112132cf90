//! How the sockets of a rule are set up: what it says of them, in the terms of sockets.

ghost use Rattle.std.specs.Prelude.{◌≡◌, IfOk, None};
ghost use Rattle.readiness.specs.Sockets.{is_tcp, is_tcp_addr, peer_of};
ghost use Rattle.relay_shared.specs.Addr.{socket_address};
ghost use Rattle.relay_shared.specs.SocketOptions.{option_number, tcp_options};

use crate::address::socket_address;
use readiness::{Listen, Sock, TcpOptions, connect_from};
use relay_admin::Addr;
pub use relay_settings::Sockets;
use std::io;
use std::net::{IpAddr, Net};

// A number that a rule says, as sockets take it; a larger one is the largest.
fn option_number(number: u64) -> u32
    ensures { result ≡ option_number number }
{
    number.min(0xffff_ffff) as u32
}

// What is asked of its connections over TCP.
fn tcp_options(sockets: &Sockets) -> TcpOptions
    ensures { result ≡ tcp_options sockets.now.keepalive_ms sockets.now.user_timeout_ms }
{
    TcpOptions {
        keepalive_s: sockets.keepalive_ms.map(|ms| option_number(ms / 1_000)),
        user_timeout_ms: sockets.user_timeout_ms.map(|ms| option_number(ms)),
    }
}

/// Has a connection be as its rule says. What the system refuses stays as it was.
pub fn set_options(sock: &Sock, sockets: &Sockets) {
    let _ = sock.set_options(&tcp_options(sockets));
}

/// Has a listener let as many clients wait as its rule says. Where the system refuses that, or nothing is
/// said, it stays as it was.
pub fn limit_queue(listener: &Listen, backlog: Option<u32>) {
    if let Some(clients) = backlog {
        let _ = listener.set_backlog(clients);
    }
}

/// Begins a connection to a target from where its rule says.
pub fn connect_out<R: Net>(rt: &R, target: &Addr, source: Option<IpAddr>) -> io::Result<Sock>
    ensures family { IfOk result (λ sock.
        is_tcp sock ≡ is_tcp_addr (socket_address target.now)) }
    ensures no_peer { IfOk result (λ sock. peer_of sock ≡ None) }
{
    connect_from(rt, &socket_address(target), source)
}
