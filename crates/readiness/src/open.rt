//! How sockets are opened.

ghost use Rattle.std.specs.Prelude.{◌≡◌, IfOk, IfErr, None, true};
ghost use Rattle.std.specs.Net.Socket.{v6_flowinfo, v6_ip, v6_port, v6_scope_id};
ghost use Rattle.readiness.specs.Peers.{tcp_addr};
ghost use Rattle.readiness.specs.Sockets.{is_tcp, is_tcp_listener, is_tcp_addr, peer_of, source_for};
ghost use Rattle.readiness.specs.SystemErrors.{IsConnectKind};
ghost use Rattle.rwloops.specs.declared.outcome.DevKind.{DevKind};

use crate::addr::Addr;
use crate::from_source::connect_tcp_from;
use crate::peer::PeerStream;
use crate::sock::{Listen, Sock};
use crate::system_error::connect_kind_of;
use crate::unix_listener::listen_unix;
use crate::v6_listener::listen_v6;
use mio::net::{TcpListener, TcpStream, UnixListener, UnixStream};
use rwloops::DevKind;
use std::fs::Files;
use std::io;
use std::net::{IpAddr, Ipv4Addr, Ipv6Addr, Net, SocketAddr, SocketAddrV4, SocketAddrV6};

fn v4_address(bytes: [u8; 4], port: u16) -> SocketAddr
    ensures { tcp_addr result ≡ Addr.Tcp bytes port }
{
    SocketAddr::V4(SocketAddrV4::new(Ipv4Addr::from_octets(bytes), port))
}

fn v6_address(ip: Ipv6Addr, scope: u32, port: u16) -> SocketAddrV6
    ensures ip { v6_ip result ≡ ip }
    ensures scope { v6_scope_id result ≡ scope }
    ensures port { v6_port result ≡ port }
    ensures plain { v6_flowinfo result ≡ 0 }
{
    SocketAddrV6::new(ip, port, 0, scope)
}

fn stream_to<R: Net>(rt: &R, at: SocketAddr, source: Option<IpAddr>) -> io::Result<TcpStream> {
    match source {
        Some(source) => connect_tcp_from(rt, source, at),
        None => TcpStream::connect(rt, at),
    }
}

fn connect_tcp<R: Net>(rt: &R, at: SocketAddr, source: Option<IpAddr>) -> io::Result<Sock>
    ensures family { IfOk result (λ sock. is_tcp sock ≡ true) }
    ensures no_peer { IfOk result (λ sock. peer_of sock ≡ None) }
{
    let stream = stream_to(rt, at, source)?;
    let _ = stream.set_nodelay(true);
    Ok(Sock::Tcp(PeerStream { stream, peer: None }))
}

// From where a connection to this address is begun, where that is said.
fn source_for(addr: &Addr, source: Option<IpAddr>) -> Option<IpAddr>
    ensures { result ≡ source_for addr.now source }
{
    match (addr, source) {
        (Addr::Tcp(_, _), Some(IpAddr::V4(own))) => Some(IpAddr::V4(own)),
        (Addr::Tcp6(_, _, _), Some(IpAddr::V6(own))) => Some(IpAddr::V6(own)),
        _ => None,
    }
}

/// Begins a connection as `connect` does, with the system's own error.
pub fn connect_io<R: Net>(rt: &R, addr: &Addr) -> io::Result<Sock>
    ensures family { IfOk result (λ sock. is_tcp sock ≡ is_tcp_addr addr.now) }
    ensures no_peer { IfOk result (λ sock. peer_of sock ≡ None) }
{
    connect_from(rt, addr, None)
}

/// The same, from an address of this machine's own, where one is said that is of the same family. Where
/// it isn't the machine's, or no port is left for it, that is the error.
pub fn connect_from<R: Net>(rt: &R, addr: &Addr, source: Option<IpAddr>) -> io::Result<Sock>
    ensures family { IfOk result (λ sock. is_tcp sock ≡ is_tcp_addr addr.now) }
    ensures no_peer { IfOk result (λ sock. peer_of sock ≡ None) }
{
    let source = source_for(addr, source);
    match addr {
        Addr::Tcp(bytes, port) => connect_tcp(rt, v4_address(*bytes, *port), source),
        Addr::Tcp6(ip, scope, port) => {
            connect_tcp(rt, SocketAddr::V6(v6_address(*ip, *scope, *port)), source)
        }
        Addr::Unix(path) => {
            let stream = UnixStream::connect(rt, path.as_str())?;
            Ok(Sock::Unix(PeerStream { stream, peer: None }))
        }
    }
}

/// Begins a connection, and returns at once.
///
/// A TCP one is made later: until then its tries would block, and where nobody listens the first
/// try after that is `Refused`. A Unix one is made at once, or answered `Refused` where nobody
/// listens at the path any more, and `Other` where there is no such path or the listener's queue is
/// full.
pub fn connect<R: Net>(rt: &R, addr: &Addr) -> Result<Sock, DevKind>
    ensures family { IfOk result (λ sock. is_tcp sock ≡ is_tcp_addr addr.now) }
    ensures no_peer { IfOk result (λ sock. peer_of sock ≡ None) }
    ensures kinds { IfErr result IsConnectKind }
{
    match connect_io(rt, addr) {
        Ok(sock) => Ok(sock),
        Err(error) => Err(connect_kind_of(&error)),
    }
}

/// Opens a listener as `listen` does, with the system's own error.
pub fn listen_io<R: Files + Net>(rt: &R, addr: &Addr) -> io::Result<Listen>
    ensures family { IfOk result (λ listen. is_tcp_listener listen ≡ is_tcp_addr addr.now) }
{
    match addr {
        Addr::Tcp(bytes, port) => {
            Ok(Listen::Tcp(TcpListener::bind(rt, v4_address(*bytes, *port))?))
        }
        Addr::Tcp6(ip, scope, port) => {
            Ok(Listen::Tcp(listen_v6(rt, v6_address(*ip, *scope, *port))?))
        }
        Addr::Unix(path) => Ok(Listen::Unix(UnixListener::bind(rt, path.as_str())?)),
    }
}

/// Opens a listener. A port that is taken is `Other`, and so is a path that is there already, also
/// one that a listener which is gone left behind.
pub fn listen<R: Files + Net>(rt: &R, addr: &Addr) -> Result<Listen, DevKind>
    ensures family { IfOk result (λ listen. is_tcp_listener listen ≡ is_tcp_addr addr.now) }
    ensures kinds { IfErr result (λ kind. kind ≡ DevKind.Other) }
{
    match listen_io(rt, addr) {
        Ok(listen) => Ok(listen),
        Err(_) => Err(DevKind::Other),
    }
}

fn listen_with_io<R: Files + Net>(rt: &R, addr: &Addr, mode: Option<u32>) -> io::Result<Listen>
    ensures family { IfOk result (λ listen. is_tcp_listener listen ≡ is_tcp_addr addr.now) }
{
    match (addr, mode) {
        (Addr::Unix(path), Some(mode)) => {
            Ok(Listen::Unix(listen_unix(rt, path.as_str(), mode)?))
        }
        _ => listen_io(rt, addr),
    }
}

/// Opens a listener as `listen` does. A Unix socket has this mode, as chmod(2) takes it, before anybody
/// can connect, where one is said; else what the umask leaves of all, and a port has none. After a
/// fault there is no path that this call made.
pub fn listen_with<R: Files + Net>(
    rt: &R,
    addr: &Addr,
    mode: Option<u32>,
) -> Result<Listen, DevKind>
    ensures family { IfOk result (λ listen. is_tcp_listener listen ≡ is_tcp_addr addr.now) }
    ensures kinds { IfErr result (λ kind. kind ≡ DevKind.Other) }
{
    match listen_with_io(rt, addr, mode) {
        Ok(listen) => Ok(listen),
        Err(_) => Err(DevKind::Other),
    }
}
