//! Clients and the seats of their sources: one that is accepted needs a seat, where its rule limits how many
//! of a source are let in. One that is to say first who it is needs it by what it says.

ghost use Rattle.std.specs.Prelude.{◌≡◌, true, false, None, Ok, IfOk};
ghost use Rattle.relay_facts.specs.Acceptance.{said_then};
ghost use Rattle.relay_facts.specs.Admission.{IsLetIn};
ghost use Rattle.relay_facts.specs.Seats.{IsSourceOf, IsSourceOfBytes, IsSourceOfV6};
ghost use Rattle.relay_facts.specs.Seats as spec;

use crate::admission::Admitted;
use crate::connection_facts::Acceptance;
use crate::rule_sources::{NoSeat, Seat};
use client_sources::Source;
use relay_admin::Addr;
use relay_log::ended::Ended;
use std::net::{IpAddr, Ipv4Addr, Ipv6Addr};
use std::sync::Wait;

// Of whom a client is with these bytes of an IPv4 address.
fn source_of_bytes(bytes: [u8; 4]) -> Source
    ensures { IsSourceOfBytes bytes result }
{
    let address = Ipv4Addr::from_octets(bytes);
    Source::of(IpAddr::V4(address))
}

// Of whom a client is with this IPv6 address.
fn source_of_v6(address: Ipv6Addr) -> Source
    ensures { IsSourceOfV6 address result }
{
    // (`Source::of` looks it up as this; it is named here for the clause)
    let _found = address.to_canonical();
    Source::of(IpAddr::V6(address))
}

// Of whom a client is; one of a Unix socket is of nobody.
fn source_of(client: &Option<Addr>) -> Option<Source>
    ensures { IsSourceOf client.now result }
{
    match client {
        Some(Addr::Tcp(bytes, _)) => Some(source_of_bytes(*bytes)),
        Some(Addr::Tcp6(ip, _, _)) => Some(source_of_v6(*ip)),
        _ => None,
    }
}

// Whether it was for their source that clients weren't let in who are told so.
fn is_for_source(how: Ended) -> bool
    ensures { result ≡ spec.is_for_source how }
{
    match how {
        Ended::SourceFull | Ended::SourceRate => true,
        _ => false,
    }
}

impl Acceptance {
    /// A seat for the client, at this moment, by who it is as far as it is known; or why there is none for it.
    /// Without a table, and for a client of a Unix socket, none is needed.
    pub fn seat<R: Wait>(&self, rt: &R, now: u64) -> Result<Option<Seat>, NoSeat>
        ensures unlimited { (said_then self.now).sources ≡ None → result ≡ Ok None }
        ensures nobody { IsSourceOf self.now.client None → result ≡ Ok None }
    {
        let Some(sources) = &self.said.sources else {
            return Ok(None);
        };
        match source_of(&self.client) {
            Some(source) => Seat::new(rt, sources, source, &self.said.source_limits, now),
            None => Ok(None),
        }
    }

    /// Whether the log is to be told at this moment that the client was refused so: of those that were for
    /// their source one a second is told, and of others each.
    pub fn is_to_be_told<R: Wait>(&self, rt: &R, now: u64, how: Ended) -> bool
        ensures unlimited { (said_then self.now).sources ≡ None → result ≡ true }
        ensures others { spec.is_for_source how ≡ false → result ≡ true }
    {
        match &self.said.sources {
            Some(sources) if is_for_source(how) => sources.may_tell(rt, now),
            _ => true,
        }
    }
}

/// A client that the lists of its rule let in, and which has the seat that it needs. One that is to say
/// first who it is has none yet.
#[derive(Drop)]
pub struct Seated {
    pub acceptance: Acceptance,
    pub seat: Option<Seat>,
    ghost let_in: { ∥ IsLetIn acceptance ∥₁ },
}

impl Admitted {
    /// The client with its seat, by its accept; or why there is none for it.
    pub fn seated<R: Wait>(self, rt: &R) -> Result<Seated, NoSeat>
        ensures { IfOk result (λ seated. seated.acceptance ≡ self.acceptance) }
    {
        let Admitted { acceptance } = self;
        let seat = if acceptance.is_awaited() {
            None
        } else {
            acceptance.seat(rt, acceptance.at)?
        };
        Ok(Seated { acceptance, seat })
    }
}
