//! Where a socket listens or connects to.

ghost use Rattle.std.specs.Prelude.{◌≡◌, true};
ghost use Rattle.readiness.specs.Peers.{tcp_addr};
ghost use Rattle.readiness.specs.Sockets.{is_tcp_addr};

use arrayvec::ArrayString;
use std::net::{Ipv6Addr, SocketAddr};

/// The most bytes of a path that an address keeps.
pub const MAX_PATH_BYTES: usize = 100;

/// An IPv4 or IPv6 address with a port, or the path of a Unix socket in at most 100 bytes.
#[derive(Clone, Copy, Debug, PartialEq, Eq, Drop)]
pub enum Addr {
    /// The four bytes of an IPv4 address in the order in which they are written, and the port. To
    /// listen at port 0 takes any port that is free.
    Tcp([u8; 4], u16),
    /// An IPv6 address, the number of its scope, 0 for none, and the port. A listener takes clients
    /// of IPv6 alone, also at `::`.
    Tcp6(Ipv6Addr, u32, u16),
    /// The path of a file, which a listener makes and nobody removes.
    Unix(ArrayString<MAX_PATH_BYTES>),
}

impl Addr {
    /// The address of TCP that the system's is. An IPv4-mapped one, as a socket of both families has
    /// of an IPv4 client, is the IPv4 address in it.
    pub fn of(at: SocketAddr) -> Addr
        ensures same { result ≡ tcp_addr at }
        ensures family { is_tcp_addr result ≡ true }
    {
        match at {
            SocketAddr::V4(at) => Addr::Tcp(at.ip().octets(), at.port()),
            SocketAddr::V6(at) => match at.ip().to_ipv4_mapped() {
                Some(ip) => Addr::Tcp(ip.octets(), at.port()),
                None => Addr::Tcp6(*at.ip(), at.scope_id(), at.port()),
            },
        }
    }
}
