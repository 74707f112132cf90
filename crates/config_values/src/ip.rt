//! IP addresses as functions of their texts.

ghost use Rattle.std.specs.Prelude.{◌≡◌, IfNone, IfSome};
ghost use Rattle.std.specs.Net.Addr.{ipv4_octets, ipv6_segments};
ghost use Rattle.std.specs.Net.Grammar.{IsIpText};
ghost use Rattle.std.specs.declared.net.ip_addr.IpAddr.{IpAddr};
ghost use Rattle.config_values.specs.Ip.{ip_at, ip_view, ipv4_at, ipv6_at, is_mapped};
ghost use Rattle.text_reading.specs.Reading.{Views};

use std::net::{IpAddr, Ipv4Addr, Ipv6Addr};

/// The IP address that a text spells, as `10.0.0.1` or `2001:db8::1`, without a scope. `None` where
/// it spells none.
pub fn ip_of(text: &[u8]) -> Option<IpAddr>
    ensures spelled { IfSome result (λ address. IsIpText text.now address) }
    ensures none { IfNone result ((address : IpAddr) → IsIpText text.now address → ⊥) }
    // The same as a function of the text.
    ensures value { Views ip_view result (ip_at text.now) }
{
    match IpAddr::parse_ascii(text) {
        Ok(address) => Some(address),
        Err(_) => None,
    }
}

/// The IPv4 address that a text spells.
pub(crate) fn ipv4_of(text: &[u8]) -> Option<Ipv4Addr>
    ensures { Views ipv4_octets result (ipv4_at text.now) }
{
    match Ipv4Addr::parse_ascii(text) {
        Ok(address) => Some(address),
        Err(_) => None,
    }
}

/// The IPv6 address that a text spells.
pub(crate) fn ipv6_of(text: &[u8]) -> Option<Ipv6Addr>
    ensures { Views ipv6_segments result (ipv6_at text.now) }
{
    match Ipv6Addr::parse_ascii(text) {
        Ok(address) => Some(address),
        Err(_) => None,
    }
}

/// Whether an IPv6 address has an IPv4 address in it, as `::ffff:10.0.0.1`.
pub fn is_mapped(address: Ipv6Addr) -> bool
    ensures { result ≡ is_mapped (ipv6_segments address) }
{
    address.to_ipv4_mapped().is_some()
}
