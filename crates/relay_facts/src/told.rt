//! A client that has said by a header of the PROXY protocol who it is, and where it was accepted. From
//! then on it is the one that it named: to the balance, to the log and to shows, and in the header that its
//! target gets.

ghost use Rattle.std.specs.Prelude.{◌≡◌};
ghost use Rattle.relay_facts.specs.Told.{IsAcceptedTold, IsAtV6, IsClientTold, IsToldBy};
ghost use Rattle.relay_facts.specs.Told.{accepted_by, client_by};

use crate::connection_facts::Acceptance;
use crate::header::AcceptedAt;
use proxy_header::Header;
use relay_admin::Addr;
use std::net::{IpAddr, Ipv6Addr};

// A client's address by these.
fn client_by(ip: IpAddr, port: u16) -> Addr
    ensures { result ≡ client_by ip port }
{
    match ip {
        IpAddr::V4(ip) => Addr::Tcp(ip.octets(), port),
        IpAddr::V6(ip) => Addr::Tcp6(ip, 0, port),
    }
}

// Where a client was accepted, by these.
fn accepted_by(ip: IpAddr, port: u16) -> AcceptedAt
    ensures { result ≡ accepted_by ip port }
{
    match ip {
        IpAddr::V4(ip) => AcceptedAt::Tcp(ip.octets(), port),
        IpAddr::V6(ip) => AcceptedAt::Tcp6(ip, port),
    }
}

// The client's address of IPv6. An IPv4-mapped one is the IPv4 address in it.
fn client_by_v6(ip: Ipv6Addr, port: u16) -> Addr
    ensures { IsAtV6 client_by ip port result }
{
    let canonical = ip.to_canonical();
    client_by(canonical, port)
}

// The same of where it was accepted.
fn accepted_by_v6(ip: Ipv6Addr, port: u16) -> AcceptedAt
    ensures { IsAtV6 accepted_by ip port result }
{
    let canonical = ip.to_canonical();
    accepted_by(canonical, port)
}

// The client that a header tells, of whose socket this is known.
fn client_told(header: &Header, own: Option<Addr>) -> Option<Addr>
    ensures { IsClientTold header.now own result }
{
    match header {
        Header::V4(ends) => Some(client_by(IpAddr::V4(ends.source), ends.source_port)),
        Header::V6(ends) => Some(client_by_v6(ends.source, ends.source_port)),
        Header::Local | Header::Unknown | Header::Unix(_) => own,
    }
}

// Where it was accepted by the header.
fn accepted_told(header: &Header, own: Option<AcceptedAt>) -> Option<AcceptedAt>
    ensures { IsAcceptedTold header.now own result }
{
    match header {
        Header::V4(ends) => {
            let at = IpAddr::V4(ends.destination);
            Some(accepted_by(at, ends.destination_port))
        }
        Header::V6(ends) => Some(accepted_by_v6(ends.destination, ends.destination_port)),
        Header::Local | Header::Unknown | Header::Unix(_) => own,
    }
}

impl Acceptance {
    /// From now on it is the client that this header tells.
    pub fn tell(&mut self, header: &Header)
        ensures { IsToldBy header.now self.old self.new }
    {
        self.client = client_told(header, self.client);
        self.accepted_at = accepted_told(header, self.accepted_at);
    }
}
