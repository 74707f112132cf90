//! Which clients the lists of a rule let in.

ghost use Rattle.std.specs.Prelude.{◌≡◌, ◌↔◌, IsTrue, IfOk, IfErr};
ghost use Rattle.client_nets.specs.Net.{IsAdmitted, IsLookedUpAs};
ghost use Rattle.relay_facts.specs.Admission.{AdmitBytes, AdmitV6, IsLetIn, LetIn};

use crate::connection_facts::Acceptance;
use client_nets::admits;
use relay_admin::Addr;
use relay_settings::Access;
use std::net::{IpAddr, Ipv4Addr, Ipv6Addr};

// Whether these lists admit what an address is looked up as.
fn admit(access: &Access, address: IpAddr) -> bool
    ensures { (found : IpAddr) → IsLookedUpAs address found → (IsTrue result
        ↔ IsAdmitted access.now.allow.items access.now.deny.items found) }
{
    admits(access.allow.as_slice(), access.deny.as_slice(), address)
}

// Whether these lists admit the IPv4 address with these bytes.
fn admit_bytes(access: &Access, bytes: [u8; 4]) -> bool
    ensures { IsTrue result
        ↔ AdmitBytes access.now.allow.items access.now.deny.items bytes }
{
    let address = Ipv4Addr::from_octets(bytes);
    admit(access, IpAddr::V4(address))
}

// Whether these lists admit an IPv6 address.
fn admit_v6(access: &Access, address: Ipv6Addr) -> bool
    ensures { IsTrue result
        ↔ AdmitV6 access.now.allow.items access.now.deny.items address }
{
    // (`admits` looks it up as this; it is named here for the clause)
    let _found = address.to_canonical();
    admit(access, IpAddr::V6(address))
}

// Whether these lists let a client in.
fn let_in(access: &Access, client: &Option<Addr>) -> bool
    ensures { IsTrue result
        ↔ LetIn access.now.allow.items access.now.deny.items client.now }
{
    match client {
        Some(Addr::Tcp(bytes, _)) => admit_bytes(access, *bytes),
        Some(Addr::Tcp6(ip, _, _)) => admit_v6(access, *ip),
        _ => true,
    }
}

impl Acceptance {
    // Whether the lists of its rule let the client in.
    fn is_let_in(&self) -> bool
        ensures { IsTrue result ↔ IsLetIn self.now }
    {
        match &self.said.access {
            Some(access) => let_in(access, &self.client),
            None => true,
        }
    }

    /// The client, where the lists of its rule let it in; else it comes back.
    pub fn admitted(self) -> Result<Admitted, Acceptance>
        ensures admitted { IfOk result (λ admitted. admitted.acceptance ≡ self) }
        ensures let_in { IfOk result (λ _. IsLetIn self) }
        ensures same { IfErr result (λ back. back ≡ self) }
        ensures denied { IfErr result (λ _. IsLetIn self → ⊥) }
    {
        if self.is_let_in() {
            Ok(Admitted { acceptance: self })
        } else {
            Err(self)
        }
    }
}

/// A client that the lists of its rule let in. The lists that were asked are those of its accept.
#[derive(Drop)]
pub struct Admitted {
    pub acceptance: Acceptance,
    ghost let_in: { ∥ IsLetIn acceptance ∥₁ },
}
