//! Which clients begin with a header of the PROXY protocol: those of the networks that their rule lists.

ghost use Rattle.std.specs.Prelude.{◌≡◌, ◌↔◌, IsTrue, IfOk, option_map};
ghost use Rattle.std.specs.Arc.{arc_value};
ghost use Rattle.relay_facts.specs.Senders.{IsAwaited, IsSender, ListsBytes, ListsV6, nets_with};

use crate::connection_facts::Acceptance;
use base_types::OutOfMemory;
use client_nets::{Net, lists_client};
use relay_admin::Addr;
use relay_settings::SaidRule;
use std::alloc::Global;
use std::net::{IpAddr, Ipv4Addr, Ipv6Addr};
use std::sync::Arc;

/// The networks whose clients begin with a header, in the order of the configuration.
#[derive(Drop)]
pub struct Senders {
    pub all: Vec<Net>,
}

/// Those of a rule, in memory of their own, where it has any.
pub(crate) fn senders_of(
    alloc: Global,
    said: &SaidRule,
) -> Result<Option<Arc<Senders>>, OutOfMemory>
    ensures { IfOk result (λ senders.
        nets_with (option_map arc_value senders) ≡ said.now.senders.items) }
{
    if said.has_no_senders() {
        return Ok(None);
    }
    let all = Vec::from_slice(alloc, said.senders.as_slice())?;
    let senders = Arc::new(alloc, Senders { all })?;
    Ok(Some(senders))
}

// Whether one of these has the IPv4 address with these bytes.
fn list_bytes(nets: &[Net], bytes: [u8; 4]) -> bool
    ensures { IsTrue result ↔ ListsBytes nets.now bytes }
{
    let address = Ipv4Addr::from_octets(bytes);
    lists_client(nets, IpAddr::V4(address))
}

// Whether one of these has an IPv6 address.
fn list_v6(nets: &[Net], address: Ipv6Addr) -> bool
    ensures { IsTrue result ↔ ListsV6 nets.now address }
{
    // (`lists_client` looks it up as this; it is named here for the clause)
    let _found = address.to_canonical();
    lists_client(nets, IpAddr::V6(address))
}

// Whether a client of these networks is to begin with a header.
fn is_sender(nets: &[Net], client: &Option<Addr>) -> bool
    ensures { IsTrue result ↔ IsSender nets.now client.now }
{
    match client {
        Some(Addr::Tcp(bytes, _)) => list_bytes(nets, *bytes),
        Some(Addr::Tcp6(ip, _, _)) => list_v6(nets, *ip),
        _ => false,
    }
}

impl Acceptance {
    /// Whether the client is to say first who it is.
    pub fn is_awaited(&self) -> bool
        ensures { IsTrue result ↔ IsAwaited self.now }
    {
        match &self.said.senders {
            Some(senders) => is_sender(senders.all.as_slice(), &self.client),
            None => false,
        }
    }
}
