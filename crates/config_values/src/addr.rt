//! Where a rule listens, and where it connects to.

ghost use Rattle.std.specs.Prelude.{◌≡◌, ◌≤◌, true, length};
ghost use Rattle.std.specs.List.{list_all};
ghost use Rattle.config_values.specs.Addr.{address_at, address_of, host_at, is_path, is_visible};
ghost use Rattle.config_values.specs.Addr.{ipv6_at_port, path_at, port_at, same_address};
ghost use Rattle.config_values.specs.Addr.{scoped_at, scoped_of, tcp_at};
ghost use Rattle.text_reading.specs.Reading.{Views};

use crate::host_name::{MAX_NAME_BYTES, is_host_name};
use crate::ip::{ipv4_of, ipv6_of, is_mapped};
use arrayvec::ArrayString;
use std::net::{Ipv4Addr, Ipv6Addr};
use std::str;
use text_reading::{number_between, split_once};

/// The most bytes of a path: those of `sockaddr_un`, and a zero byte behind them.
pub const MAX_PATH_BYTES: usize = 107;

/// An address. A port is 1 to 65,535.
#[derive(Clone, Copy, Debug, PartialEq, Eq, Drop)]
pub enum Addr {
    /// An IPv4 address and a port.
    V4(Ipv4Addr, u16),
    /// An IPv6 address, which isn't IPv4-mapped, its scope, 0 for none, and a port.
    V6(Ipv6Addr, u32, u16),
    /// The path of a socket.
    Unix(ArrayString<MAX_PATH_BYTES>),
    /// The name of a host, which has to be looked up, and a port.
    Name(ArrayString<MAX_NAME_BYTES>, u16),
}

/// The address that a text spells: `tcp:10.0.0.1:443`, `tcp:[::1]:443`, `tcp:[fe80::1%2]:443` with
/// the number of a scope, `unix:/run/x.sock`, or `tcp:app.internal:8443`, a name. `None` where it
/// spells none. An IPv4-mapped address is none: it is written as the IPv4 address in it.
#[tactic(auto, unfolding(crate::specs::Addr::address_at))]
pub fn addr_of(text: &[u8]) -> Option<Addr>
    ensures { Views address_of result (address_at text.now) }
{
    let (kind, rest) = split_once(text, b':')?;
    if kind == b"tcp".as_slice() {
        tcp_of(rest)
    } else if kind == b"unix".as_slice() {
        path_of(rest)
    } else {
        None
    }
}

/// Whether both are one address.
pub fn is_same_addr(one: &Addr, other: &Addr) -> bool
    ensures { result ≡ same_address (address_of one.now) (address_of other.now) }
{
    match (one, other) {
        (Addr::V4(ip, port), Addr::V4(other_ip, other_port)) => {
            ip.octets() == other_ip.octets() && *port == *other_port
        }
        (Addr::V6(ip, scope, port), Addr::V6(other_ip, other_scope, other_port)) => {
            ip.segments() == other_ip.segments() && *scope == *other_scope && *port == *other_port
        }
        (Addr::Unix(path), Addr::Unix(other_path)) => path.as_str() == other_path.as_str(),
        (Addr::Name(name, port), Addr::Name(other_name, other_port)) => {
            name.as_str() == other_name.as_str() && *port == *other_port
        }
        _ => false,
    }
}

#[tactic(auto, unfolding(crate::specs::Addr::tcp_at))]
fn tcp_of(text: &[u8]) -> Option<Addr>
    ensures { Views address_of result (tcp_at text.now) }
{
    match text {
        [b'[', inside @ ..] => ipv6_and_port(inside),
        _ => host_and_port(text),
    }
}

#[tactic(auto, unfolding(crate::specs::Addr::host_at))]
fn host_and_port(text: &[u8]) -> Option<Addr>
    ensures { Views address_of result (host_at text.now) }
{
    let (host, port) = split_once(text, b':')?;
    let port = port_of(port)?;
    match ipv4_of(host) {
        Some(address) => Some(Addr::V4(address, port)),
        None if is_host_name(host) => Some(Addr::Name(held(host), port)),
        None => None,
    }
}

/// What stands behind `[`: an address, its scope if it has one, `]:` and a port.
#[tactic(auto, unfolding(crate::specs::Addr::ipv6_at_port))]
fn ipv6_and_port(text: &[u8]) -> Option<Addr>
    ensures { Views address_of result (ipv6_at_port text.now) }
{
    let (inside, behind) = split_once(text, b']')?;
    let (nothing, port) = split_once(behind, b':')?;
    let port = port_of(port)?;
    let (address, scope) = scoped(inside)?;
    if !nothing.is_empty() || is_mapped(address) {
        return None;
    }
    Some(Addr::V6(address, scope, port))
}

/// An IPv6 address and its scope: a number behind `%`, or 0 without it.
#[tactic(auto, unfolding(crate::specs::Addr::scoped_at))]
fn scoped(text: &[u8]) -> Option<(Ipv6Addr, u32)>
    ensures { Views scoped_of result (scoped_at text.now) }
{
    let Some((address, scope)) = split_once(text, b'%') else {
        let address = ipv6_of(text)?;
        return Some((address, 0));
    };
    let address = ipv6_of(address)?;
    let scope = number_between(1, 0xffff_ffff, scope)?;
    Some((address, scope as u32))
}

#[tactic(auto, unfolding(crate::specs::Addr::port_at))]
fn port_of(text: &[u8]) -> Option<u16>
    ensures { result ≡ port_at text.now }
{
    let port = number_between(1, 65_535, text)?;
    Some(port as u16)
}

#[tactic(auto, unfolding(crate::specs::Addr::path_at))]
fn path_of(text: &[u8]) -> Option<Addr>
    ensures { Views address_of result (path_at text.now) }
{
    if is_path_text(text) {
        Some(Addr::Unix(held(text)))
    } else {
        None
    }
}

fn is_path_text(text: &[u8]) -> bool
    ensures { result ≡ is_path text.now }
{
    if text.is_empty() || text[0] != b'/' {
        return false;
    }
    are_visible(text) && text.len() <= MAX_PATH_BYTES
}

fn are_visible(text: &[u8]) -> bool
    ensures { result ≡ list_all is_visible text.now }
{
    for byte in text {
        if *byte < 0x21 || 0x7e < *byte {
            return false;
        }
    }
    true
}

/// The text in a value of its own, in which it fits.
fn held<const N: usize>(text: &[u8]) -> ArrayString<N>
    requires visible { list_all is_visible text.now ≡ true }
    requires short { length text.now ≤ N }
    ensures { result.bytes ≡ text.now }
{
    match str::from_utf8(text) {
        Ok(text) => match ArrayString::from(text) {
            Ok(held) => held,
            Err(_) => unreachable!(),
        },
        Err(_) => unreachable!(),
    }
}
