//! Addresses as a program writes them.

ghost use Rattle.std.specs.Prelude.{◌≡◌, ◌∷◌, [], IfOk, IfErr, IfSome, IfNone, OnErr};
ghost use Rattle.std.specs.IoError.{error_kind};
ghost use Rattle.std.specs.declared.io.ErrorKind.{ErrorKind};
ghost use Rattle.net.specs.Address.{Names, NamesNoPath, NamesNoPort, NamesNothing};

use arrayvec::ArrayString;
use readiness::Addr;
use std::io;
use std::io::ErrorKind;
use std::net::SocketAddr;

/// What stands before a path.
pub const UNIX: &str = "unix:";

// The address of a path, where the text names one of 1 to 100 bytes.
fn unix(text: &str) -> Option<Addr>
    ensures names { IfSome result (Names text.now) }
    ensures none { IfNone result (NamesNoPath text.now) }
{
    let path = text.strip_prefix(UNIX)?;
    if path.is_empty() {
        return None;
    }
    Some(Addr::Unix(ArrayString::from(path).ok()?))
}

// The address of an IPv4 or IPv6 address with a port.
#[tactic(auto, using(crate::proofs::Addresses::names_port))]
fn ip_and_port(text: &str) -> Option<Addr>
    ensures names { IfSome result (Names text.now) }
    ensures none { IfNone result (NamesNoPort text.now) }
{
    let Ok(at) = text.parse::<SocketAddr>() else {
        return None;
    };
    Some(Addr::of(at))
}

/// The address that a text names: `127.0.0.1:8080`; `[::1]:8080`, with the number of a scope as
/// `[fe80::1%2]:8080`; or `unix:` and a path of 1 to 100 bytes. An IPv4-mapped address is the IPv4
/// address in it. No names are looked up. Any other text is `InvalidInput`.
#[tactic(auto, using(crate::proofs::Addresses::names_nothing))]
pub fn address_of(text: &str) -> io::Result<Addr>
    ensures names { IfOk result (Names text.now) }
    ensures refused { IfErr result (λ error. error_kind error ≡ ErrorKind.InvalidInput) }
    ensures nameless { OnErr result (NamesNothing text.now) }
{
    match (unix(text), ip_and_port(text)) {
        (Some(addr), _) | (None, Some(addr)) => Ok(addr),
        (None, None) => Err(ErrorKind::InvalidInput.into()),
    }
}

/// A port of IPv4's loopback; 0 is any that is free, for a listener.
pub fn tcp(port: u16) -> Addr
    ensures own { result ≡ Addr.Tcp (127 ∷ 0 ∷ 0 ∷ 1 ∷ []) port }
{
    let loopback = [127, 0, 0, 1];
    Addr::Tcp(loopback, port)
}
