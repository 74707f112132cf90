//! Who is let in.

ghost use Rattle.std.specs.Prelude.{◌↔◌, IsTrue};
ghost use Rattle.client_nets.specs.Net.{IsAdmitted, IsListed, IsLookedUpAs};
ghost use Rattle.std.specs.declared.net.ip_addr.IpAddr.{IpAddr};

use crate::net::Net;
use std::net::IpAddr;

/// Whether a client with this address is let in: none that `deny` has, and, where `allow` has any
/// networks, only those that it has. An IPv4-mapped address is looked up as the IPv4 address in it.
pub fn admits(allow: &[Net], deny: &[Net], address: IpAddr) -> bool
    ensures { (found : IpAddr) → IsLookedUpAs address found
        → (IsTrue result ↔ IsAdmitted allow.now deny.now found) }
{
    let found = address.to_canonical();
    admits_found(allow, deny, found)
}

fn admits_found(allow: &[Net], deny: &[Net], found: IpAddr) -> bool
    ensures { IsTrue result ↔ IsAdmitted allow.now deny.now found }
{
    if lists(deny, found) {
        return false;
    }
    allow.is_empty() || lists(allow, found)
}

/// Whether one of the networks has the address. An IPv4-mapped one is looked up as the IPv4 address in it.
pub fn lists_client(nets: &[Net], address: IpAddr) -> bool
    ensures { (found : IpAddr) → IsLookedUpAs address found
        → (IsTrue result ↔ IsListed nets.now found) }
{
    let found = address.to_canonical();
    lists(nets, found)
}

/// Whether one of the networks has the address.
pub fn lists(nets: &[Net], address: IpAddr) -> bool
    ensures { IsTrue result ↔ IsListed nets.now address }
{
    for net in nets {
        if net.contains(address) {
            return true;
        }
    }
    false
}
