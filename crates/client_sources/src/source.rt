//! Of whom a client is, and at which places of a table its source may stand.
//!
//! A table has its places in groups of 16. A source may stand in one group alone, so that a client costs
//! a look at 16 places, however many sources there are. Addresses that follow each other are in groups
//! far from each other.

ghost use Rattle.std.specs.Prelude.{◌≡◌, ◌<◌, ◌≤◌, ◌+◌, ◌*◌};
ghost use Rattle.client_nets.specs.Net.{IsLookedUpAs};
ghost use Rattle.client_sources.specs.Source as spec;
ghost use Rattle.std.specs.declared.net.ip_addr.IpAddr.{IpAddr};

use std::net::IpAddr;

/// The places of a group.
pub const GROUP_PLACES: usize = 16;

/// How many groups a table has: as many as ten bits tell.
pub const GROUPS: usize = 1 << GROUP_BITS;

const GROUP_BITS: u32 = 10;

/// 2 to the power of 64, divided by the golden ratio, made odd.
const SPREAD: u64 = 11_400_714_819_323_198_485;

/// Of whom clients are.
#[derive(Clone, Copy, Debug, PartialEq, Eq, Drop)]
pub enum Source {
    /// An IPv4 address, as a number.
    V4(u32),
    /// The first 64 bits of IPv6 addresses, as a number. Who has one of these addresses mostly has all.
    V6(u64),
}

impl Source {
    /// Of whom a client with this address is. An IPv4-mapped address is the IPv4 address in it.
    pub fn of(address: IpAddr) -> Source
        ensures { (found : IpAddr) → IsLookedUpAs address found → result ≡ spec.client_source found }
    {
        let found = address.to_canonical();
        Source::of_found(found)
    }

    fn of_found(found: IpAddr) -> Source
        ensures { result ≡ spec.client_source found }
    {
        match found {
            IpAddr::V4(address) => Source::V4(address.to_bits()),
            IpAddr::V6(address) => Source::V6((address.to_bits() >> 64) as u64),
        }
    }

    // Its number. Two sources may have one.
    fn number(self) -> u64
        ensures { result ≡ spec.source_bits self }
    {
        match self {
            Source::V4(bits) => u64::from(bits),
            Source::V6(bits) => bits,
        }
    }

    // The group in which it may stand.
    fn group(self) -> usize
        ensures value { result ≡ spec.source_group self }
        ensures there { result < 1024 }
    {
        (self.number().wrapping_mul(SPREAD) >> (u64::BITS - GROUP_BITS)) as usize
    }

    /// The first of the places at which it may stand; the others of its group follow.
    pub fn first_place(self) -> usize
        ensures value { result ≡ 16 * spec.source_group self }
        ensures there { result + 16 ≤ 16384 }
    {
        self.group() * GROUP_PLACES
    }
}

/// Whether both are one source.
pub(crate) fn is_same(one: Source, other: Source) -> bool
    ensures { result ≡ spec.same_source one other }
{
    match (one, other) {
        (Source::V4(one), Source::V4(other)) => one == other,
        (Source::V6(one), Source::V6(other)) => one == other,
        _ => false,
    }
}
