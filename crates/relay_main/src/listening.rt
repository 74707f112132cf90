//! How a relay comes to its listeners: it was started with some, as systemd does it, and binds the
//! others.

ghost use Rattle.std.specs.Prelude.{◌≡◌, IfSome, IfNone, IfOk, Ok};
ghost use Rattle.std.specs.List.{position_or_len};
ghost use Rattle.relay_main.specs.Listening.{IsBoundAt, given_at, is_at, left_by};
ghost use Rattle.relay_main.specs.declared.listening.Opened.{Opened};

use readiness::Listen;
use relay_admin::{Addr, is_same_addr};
use relay_shared::bound_path::{BoundPath, bind};
use relay_shared::stale_path::StalePath;
use rwloops::DevKind;
use std::fs::Files;
use std::net::Net;

/// A listener that the program was started with. Who started it has it too, and its path.
#[derive(Drop)]
pub struct GivenListener {
    pub addr: Addr,
    pub listener: Listen,
}

/// A listener, and whose its path is.
pub(crate) enum Opened {
    /// It was given, and its path stays.
    Given(Listen),
    /// It was bound just now, and its path is the relay's to remove.
    Bound(Listen, BoundPath),
}

/// The listeners that were given and that nobody has taken, and whether a Unix socket at which
/// nobody listens any more gives way to one that is bound.
#[derive(Drop)]
pub struct Listeners {
    pub given: Vec<GivenListener>,
    pub replaces_stale: bool,
}

// The place of the first that is given at this address; how many there are, where none is.
fn place_at(given: &[GivenListener], addr: &Addr) -> usize
    ensures { result ≡ position_or_len (is_at addr.now) given.now }
{
    for place in 0..given.len() {
        if is_same_addr(&given[place].addr, addr) {
            return place;
        }
    }
    given.len()
}

// Removes what gives way at an address.
fn remove_stale<R: Net + Files>(rt: &R, addr: &Addr) {
    if let Some(stale) = StalePath::at(rt, addr) {
        stale.remove(rt);
    }
}

impl Listeners {
    // Takes the one that is given at this address.
    fn take(&mut self, addr: &Addr) -> Option<Listen>
        ensures taken { result ≡ given_at addr.now self.old.given.items }
        ensures left { self.new.given.items ≡ left_by addr.now self.old.given.items }
    {
        let place = place_at(self.given.as_slice(), addr);
        if place >= self.given.len() {
            return None;
        }
        let GivenListener { addr: _, listener } = self.given.remove(place);
        Some(listener)
    }

    /// Listens at an address: by the listener that was given there, if one was, with the mode that it
    /// has; else one is bound, with this mode, and a Unix socket that was left there gives way first,
    /// where it is to.
    pub(crate) fn open<R: Net + Files>(
        &mut self,
        rt: &R,
        addr: &Addr,
        mode: Option<u16>,
    ) -> Result<Opened, DevKind>
        ensures given { IfSome (given_at addr.now self.old.given.items)
            (λ listener. result ≡ Ok (Opened.Given listener)) }
        ensures bound { IfNone (given_at addr.now self.old.given.items)
            (IfOk result (IsBoundAt addr.now)) }
        ensures left { self.new.given.items ≡ left_by addr.now self.old.given.items }
    {
        if let Some(listener) = self.take(addr) {
            return Ok(Opened::Given(listener));
        }
        if self.replaces_stale {
            remove_stale(rt, addr);
        }
        match bind(rt, addr, mode) {
            Ok((listener, path)) => Ok(Opened::Bound(listener, path)),
            Err(kind) => Err(kind),
        }
    }
}
