//! A network: all addresses that begin as one does.

ghost use Rattle.std.specs.Prelude.{◌↔◌, IsTrue, MatchOption};
ghost use Rattle.text_reading.specs.Reading.{Views};
ghost use Rattle.client_nets.specs.Net.{IsIn, IsInV4, IsInV6, SpellsAlone, SpellsNet, SpellsParts};
ghost use Rattle.client_nets.specs.Net.{alone_at, net_at, network_of, parts_at};
ghost use Rattle.client_nets.specs.declared.net.Net.{Net};

use config_values::ip_of;
use std::net::{IpAddr, Ipv4Addr, Ipv6Addr};
use text_reading::{number_between, split_once};

/// The addresses whose first bits are those of this one: so many bits, at most 32 or 128. The
/// others of the address aren't looked at.
#[derive(Clone, Copy, Debug, PartialEq, Eq, Drop)]
pub enum Net {
    V4(Ipv4Addr, u8),
    V6(Ipv6Addr, u8),
}

impl Net {
    /// The network that a text spells, as `10.0.0.0/8` or `2001:db8::/32`; an address alone is the
    /// network of this address. `None` where the text spells none.
    #[tactic(auto, unfolding(crate::specs::Net::net_at))]
    pub fn parse(text: &[u8]) -> Option<Net>
        ensures spelled { MatchOption result ((net : Net) → SpellsNet text.now net → ⊥)
            (λ net. SpellsNet text.now net) }
        // The same as a function of the text.
        ensures value { Views network_of result (net_at text.now) }
    {
        match split_once(text, b'/') {
            Some(parts) => with_bits(parts.0, parts.1),
            None => alone(text),
        }
    }

    /// Whether the network has the address. An address of the other family it hasn't.
    pub fn contains(&self, address: IpAddr) -> bool
        ensures { IsTrue result ↔ IsIn self.now address }
    {
        match (self, address) {
            (Net::V4(first, bits), IpAddr::V4(address)) => begins_v4(*first, *bits, address),
            (Net::V6(first, bits), IpAddr::V6(address)) => begins_v6(*first, *bits, address),
            _ => false,
        }
    }
}

/// The network of an address and a number of bits.
#[tactic(auto, using(crate::proofs::Nets::no_bits_v4, crate::proofs::Nets::no_bits_v6, crate::proofs::Nets::no_parts), unfolding(crate::specs::Net::parts_at))]
fn with_bits(address: &[u8], bits: &[u8]) -> Option<Net>
    ensures spelled { MatchOption result ((net : Net) → SpellsParts address.now bits.now net → ⊥)
        (λ net. SpellsParts address.now bits.now net) }
    ensures value { Views network_of result (parts_at address.now bits.now) }
{
    match ip_of(address) {
        Some(IpAddr::V4(first)) => match number_between(0, 32, bits) {
            Some(bits) => Some(Net::V4(first, bits as u8)),
            None => None,
        },
        Some(IpAddr::V6(first)) => match number_between(0, 128, bits) {
            Some(bits) => Some(Net::V6(first, bits as u8)),
            None => None,
        },
        None => None,
    }
}

/// The network of an address alone.
#[tactic(auto, using(crate::proofs::Nets::no_alone), unfolding(crate::specs::Net::alone_at))]
fn alone(text: &[u8]) -> Option<Net>
    ensures spelled { MatchOption result ((net : Net) → SpellsAlone text.now net → ⊥)
        (λ net. SpellsAlone text.now net) }
    ensures value { Views network_of result (alone_at text.now) }
{
    match ip_of(text) {
        Some(IpAddr::V4(first)) => Some(Net::V4(first, 32)),
        Some(IpAddr::V6(first)) => Some(Net::V6(first, 128)),
        None => None,
    }
}

fn begins_v4(first: Ipv4Addr, bits: u8, address: Ipv4Addr) -> bool
    ensures { IsTrue result ↔ IsInV4 first bits address }
{
    let others = 32u32.saturating_sub(u32::from(bits));
    u64::from(address.to_bits()) >> others == u64::from(first.to_bits()) >> others
}

fn begins_v6(first: Ipv6Addr, bits: u8, address: Ipv6Addr) -> bool
    ensures { IsTrue result ↔ IsInV6 first bits address }
{
    let here = address.to_bits();
    let net = first.to_bits();
    // A shift by all 128 bits isn't one.
    if bits == 0 {
        return true;
    }
    let others = 128u32.saturating_sub(u32::from(bits));
    here >> others == net >> others
}
