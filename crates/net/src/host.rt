//! The name of a host with a port, and the addresses that the system's resolver has for it.

ghost use Rattle.std.specs.Prelude.{◌≡◌, All, IfNone, IfOk, IfSome};
ghost use Rattle.std.specs.Fmt.{decimal};
ghost use Rattle.net.specs.Host.{HasColon, HasPort, NamesHost, NamesNoHost, SpellsNoPort};
ghost use Rattle.net.specs.Host.{host_in, port_in};

use readiness::Addr;
use std::alloc::Global;
use std::io;
use std::io::ErrorKind;
use std::net::{Ipv4Addr, Net as Sockets, SocketAddr};
use stream_base::decimal::parse_decimal;

/// The most addresses of a host that are taken.
const MOST_ADDRS: usize = 32;

// What stands before the first colon, and what stands behind it.
fn cut(text: &str) -> Option<(&str, &str)>
    ensures colon { IfSome result (λ parts. HasColon text.now) }
    ensures host { IfSome result (λ parts. parts.0.now ≡ host_in text.now) }
    ensures port { IfSome result (λ parts. parts.1.now ≡ port_in text.now) }
    ensures none { IfNone result (HasColon text.now → ⊥) }
{
    text.split_once(':')
}

// The port that digits spell.
#[tactic(auto, using(crate::proofs::Hosts::too_great))]
fn port_of(digits: &str) -> Option<u16>
    ensures spelled { IfSome result (λ port. digits.now ≡ decimal port) }
    ensures none { IfNone result (SpellsNoPort digits.now) }
{
    let number = parse_decimal(digits.as_bytes())?;
    if number > u64::from(u16::MAX) {
        return None;
    }
    Some(number as u16)
}

/// The host and the port that a text names, where it names any.
pub(crate) fn host_and_port(text: &str) -> Option<(&str, u16)>
    ensures names { IfSome result (λ named. NamesHost text.now named.0.now named.1) }
    ensures none { IfNone result (NamesNoHost text.now) }
{
    let (host, digits) = cut(text)?;
    if host.is_empty() {
        return None;
    }
    Some((host, port_of(digits)?))
}

// An address that the resolver gave, with this port.
fn at_port(found: SocketAddr, port: u16) -> Addr
    ensures port { HasPort port result }
{
    let mut found = found;
    found.set_port(port);
    Addr::of(found)
}

/// The addresses of a host, with this port, each once, in the order in which the system's resolver
/// gives them. It waits for as long as the resolver does, and fails as that does, or as `NotFound`
/// where the resolver has none.
pub(crate) fn look_up<R: Sockets>(
    rt: &R,
    alloc: Global,
    host: &str,
    port: u16,
) -> io::Result<Vec<Addr>>
    ensures port { IfOk result (λ addrs. All (HasPort port) addrs.items) }
{
    let none = SocketAddr::from((Ipv4Addr::UNSPECIFIED, port));
    let mut found = [none; MOST_ADDRS];
    let count = rt.lookup_host(host, port, &mut found)?;
    let mut addrs = Vec::new(alloc);
    for one in &found[..count] {
        let addr = at_port(*one, port);
        if !addrs.contains(&addr) {
            addrs.push(addr)?;
        }
    }
    if addrs.is_empty() {
        return Err(ErrorKind::NotFound.into());
    }
    Ok(addrs)
}
