//! Addresses in the terms of rules and of sockets.

ghost use Rattle.std.specs.Prelude.{◌≡◌};
ghost use Rattle.relay_shared.specs.Addr as spec;

use readiness::Addr;

/// A rule's address in the terms of sockets.
pub fn socket_address(addr: &relay_admin::Addr) -> Addr
    ensures { result ≡ spec.socket_address addr.now }
{
    match addr {
        relay_admin::Addr::Tcp(bytes, port) => Addr::Tcp(*bytes, *port),
        relay_admin::Addr::Tcp6(ip, scope, port) => Addr::Tcp6(*ip, *scope, *port),
        relay_admin::Addr::Unix(path) => Addr::Unix(*path),
    }
}

/// A socket's address in the terms of rules.
pub fn rule_address(addr: &Addr) -> relay_admin::Addr
    ensures { result ≡ spec.rule_address addr.now }
{
    match addr {
        Addr::Tcp(bytes, port) => relay_admin::Addr::Tcp(*bytes, *port),
        Addr::Tcp6(ip, scope, port) => relay_admin::Addr::Tcp6(*ip, *scope, *port),
        Addr::Unix(path) => relay_admin::Addr::Unix(*path),
    }
}
