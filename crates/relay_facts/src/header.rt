//! The header of the PROXY protocol with which a connection to a target begins: it tells the target
//! who the client is, and where it was accepted.

ghost use Rattle.std.specs.Prelude.{◌≡◌};
ghost use Rattle.proxy_header.specs.declared.header.Header.TheVariants.{Local};
ghost use Rattle.relay_facts.specs.Header.{first_bytes, header_bytes, header_of, ipv4_of};

use crate::connection_facts::Acceptance;
use arrayvec::ArrayVec;
use proxy_header::{EndsV4, EndsV6, Header, MAX_VERSION2_BYTES, version1, version2};
use relay_admin::Addr;
use relay_settings::Version;
use std::net::{Ipv4Addr, Ipv6Addr};

/// An address with a port at which a client was accepted. An IPv4-mapped one is told as the IPv4
/// address in it. The scope of one of IPv6 isn't kept: a header has no place for it.
#[derive(Clone, Copy, Debug, PartialEq, Eq, Drop)]
pub enum AcceptedAt {
    Tcp([u8; 4], u16),
    Tcp6(Ipv6Addr, u16),
}

/// The bytes of a header of either version.
pub type HeaderBytes = ArrayVec<u8, MAX_VERSION2_BYTES>;

// The address with these bytes.
fn ipv4_of(bytes: [u8; 4]) -> Ipv4Addr
    ensures { result ≡ ipv4_of bytes }
{
    Ipv4Addr::from_octets(bytes)
}

// The header of a client with this address that was accepted there. A client of a Unix socket has no
// address that a target could take: nginx and HAProxy end a connection with a header of that family. So
// its header says, as that of HAProxy, that the relay speaks for itself. So it says where the two
// addresses are of two families, which one header can't have.
fn header_of(client: &Option<Addr>, accepted_at: Option<AcceptedAt>) -> Header
    ensures { result ≡ header_of client.now accepted_at }
{
    match (client, accepted_at) {
        (Some(Addr::Tcp(bytes, port)), Some(AcceptedAt::Tcp(own, own_port))) => {
            Header::V4(EndsV4 {
                source: ipv4_of(*bytes),
                source_port: *port,
                destination: ipv4_of(own),
                destination_port: own_port,
            })
        }
        (Some(Addr::Tcp6(ip, _, port)), Some(AcceptedAt::Tcp6(own, own_port))) => {
            Header::V6(EndsV6 {
                source: *ip,
                source_port: *port,
                destination: own,
                destination_port: own_port,
            })
        }
        _ => Header::Local,
    }
}

// A header in this version.
fn header_bytes(version: Version, header: &Header) -> HeaderBytes
    ensures { result.items ≡ header_bytes version header.now }
{
    match version {
        Version::V1 => {
            let mut bytes = ArrayVec::new();
            if bytes
                .try_extend_from_slice(version1(header).as_slice())
                .is_err()
            {
                unreachable!();
            }
            bytes
        }
        Version::V2 => version2(header),
    }
}

/// The header of a connection in which the relay speaks for itself, as in a check.
pub fn own_header(version: Version) -> HeaderBytes
    ensures { result.items ≡ header_bytes version Local }
{
    header_bytes(version, &Header::Local)
}

impl Acceptance {
    /// What its target gets before any byte of the client's: a header, if its rule has one.
    pub fn first_bytes(&self) -> HeaderBytes
        ensures { result.items ≡ first_bytes self.now }
    {
        match self.said.header {
            Some(version) => header_bytes(version, &header_of(&self.client, self.accepted_at)),
            None => ArrayVec::new(),
        }
    }
}
