//! Addresses of IPv4 and IPv6 as C has them, which calls of the system take.

ghost use Rattle.std.specs.Prelude.{◌≡◌, ◌+◌, ◌≤◌, length};
ghost use Rattle.mio.specs.SockAddr as spec;

use libc::net as c;
use std::net::{SocketAddr, SocketAddrV4, SocketAddrV6};

// The bytes of C's `sockaddr_in` and `sockaddr_in6`.
const V4_BYTES: u32 = 16;

const V6_BYTES: u32 = 28;

fn put(raw: &mut [u8; c::_SS_SIZE], at: usize, bytes: &[u8])
    requires { at + length bytes.now ≤ 128 }
    ensures { raw.new ≡ spec.put raw.old at bytes.now }
{
    raw[at..at + bytes.len()].copy_from_slice(bytes);
}

// The family is in the machine's order, and the port in the network's.
fn family_and_port(family: u16, port: u16) -> [u8; c::_SS_SIZE]
    ensures { result ≡ spec.family_and_port family port }
{
    let mut raw = [0u8; c::_SS_SIZE];
    put(&mut raw, 0, &family.to_ne_bytes());
    put(&mut raw, 2, &port.to_be_bytes());
    raw
}

// The address as C's `sockaddr_in`.
fn raw_v4(addr: SocketAddrV4) -> [u8; c::_SS_SIZE]
    ensures { result ≡ spec.sockaddr_in addr }
{
    let mut raw = family_and_port(c::AF_INET as u16, addr.port());
    put(&mut raw, 4, &addr.ip().octets());
    raw
}

// The address as C's `sockaddr_in6`, whose numbers are in the machine's order.
fn raw_v6(addr: SocketAddrV6) -> [u8; c::_SS_SIZE]
    ensures { result ≡ spec.sockaddr_in6 addr }
{
    let mut raw = family_and_port(c::AF_INET6 as u16, addr.port());
    put(&mut raw, 4, &addr.flowinfo().to_ne_bytes());
    put(&mut raw, 8, &addr.ip().octets());
    put(&mut raw, 24, &addr.scope_id().to_ne_bytes());
    raw
}

/// An address as C has it, and how many bytes of it count.
pub(crate) fn raw_address(addr: SocketAddr) -> ([u8; c::_SS_SIZE], u32)
    ensures bytes { result ≡ spec.sockaddr addr }
    ensures within { result.1 ≤ 128 }
{
    match addr {
        SocketAddr::V4(addr) => (raw_v4(addr), V4_BYTES),
        SocketAddr::V6(addr) => (raw_v6(addr), V6_BYTES),
    }
}
