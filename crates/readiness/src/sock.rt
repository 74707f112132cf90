//! Sockets that never wait: a connection and a listener, each of TCP or of Unix. Both are closed on
//! exec.

ghost use Rattle.std.specs.Prelude.{◌≡◌, IfErr, IfSome, IfOk, true};
ghost use Rattle.std.specs.Option.{option_map};
ghost use Rattle.std.specs.Path.{path_bytes};
ghost use Rattle.mio.specs.Interest.{is_readable, is_writable, is_priority};
ghost use Rattle.readiness.specs.Peers.{path_kept};
ghost use Rattle.readiness.specs.Sockets.{is_tcp, is_tcp_listener, is_tcp_addr, peer_of};
ghost use Rattle.readiness.specs.Sockets.{tcp_sock, unix_stream_in, path_in};
ghost use Rattle.rwloops.specs.declared.outcome.DevKind.{DevKind};

use crate::addr::{Addr, MAX_PATH_BYTES};
use crate::peer::{PeerStream, path_of};
use arrayvec::ArrayString;
use mio::net::{TcpListener, TcpStream, UnixListener, UnixStream};
use mio::{Interest, Registry, Token};
use rwloops::DevKind;
use std::io;
use std::net::SocketAddr;
use std::path::Path;

/// A connection, made or being made. A TCP one that comes from `connect` or from a listener sends
/// small writes at once (`TCP_NODELAY`), as Go's do.
#[derive(Drop)]
pub enum Sock {
    /// Over TCP.
    Tcp(PeerStream<TcpStream, SocketAddr>),
    /// Over a Unix socket.
    Unix(PeerStream<UnixStream, ArrayString<MAX_PATH_BYTES>>),
}

/// What connections are accepted from.
#[derive(Drop)]
pub enum Listen {
    /// At a TCP port.
    Tcp(TcpListener),
    /// At a path.
    Unix(UnixListener),
}

/// What is told of a call whose errors have no name of their own.
pub(crate) fn or_other(done: io::Result<()>) -> Result<(), DevKind>
    ensures { IfErr result (λ kind. kind ≡ DevKind.Other) }
{
    match done {
        Ok(()) => Ok(()),
        Err(_) => Err(DevKind::Other),
    }
}

// What a connection is watched for: what can be read and written, and urgent data, at which a read
// over TCP stops.
fn watched() -> Interest
    ensures reads { is_readable result ≡ true }
    ensures writes { is_writable result ≡ true }
    ensures urgent { is_priority result ≡ true }
{
    Interest::READABLE | Interest::WRITABLE | Interest::PRIORITY
}

impl Sock {
    pub(crate) fn register_at(&mut self, registry: &Registry, token: u64) -> io::Result<()>
        ensures same { self.new ≡ self.old }
    {
        let token = Token(token as usize);
        match self {
            Sock::Tcp(tcp) => registry.register(&mut tcp.stream, token, watched()),
            Sock::Unix(unix) => registry.register(&mut unix.stream, token, watched()),
        }
    }

    pub(crate) fn deregister_at(&mut self, registry: &Registry) -> io::Result<()>
        ensures same { self.new ≡ self.old }
    {
        match self {
            Sock::Tcp(tcp) => registry.deregister(&mut tcp.stream),
            Sock::Unix(unix) => registry.deregister(&mut unix.stream),
        }
    }

    /// The peer's address, as the system's accept gave it. A socket that comes from `connect` has
    /// none, nor has a Unix one whose peer has no path, or one of more than 100 bytes.
    pub fn peer(&self) -> Option<Addr>
        ensures own { result ≡ peer_of self.now }
        ensures family { IfSome result (λ addr. is_tcp_addr addr ≡ is_tcp self.now) }
    {
        match self {
            Sock::Tcp(tcp) => match &tcp.peer {
                Some(at) => Some(Addr::of(*at)),
                None => None,
            },
            Sock::Unix(unix) => match &unix.peer {
                Some(path) => Some(Addr::Unix(*path)),
                None => None,
            },
        }
    }

    /// Whether it is over TCP. Then a read that comes short has read all that was there, unless the
    /// poller told of a stop ahead; over a Unix socket a read also stops behind bytes that carry a
    /// descriptor.
    pub fn is_tcp(&self) -> bool
        ensures { result ≡ is_tcp self.now }
    {
        matches!(self, Sock::Tcp(_))
    }

    /// Whether the connection is made, also where it has ended in one direction since.
    pub(crate) fn is_connected(&self) -> bool {
        match self {
            Sock::Tcp(tcp) => tcp.stream.peer_addr().is_ok(),
            Sock::Unix(_) => true,
        }
    }
}

// A connection of what TCP's accept gave: the stream, and the peer's address.
fn accepted_tcp(accepted: (TcpStream, SocketAddr)) -> Sock
    ensures { result ≡ tcp_sock accepted.0 accepted.1 }
{
    let (stream, addr) = accepted;
    let _ = stream.set_nodelay(true);
    Sock::Tcp(PeerStream {
        stream,
        peer: Some(addr),
    })
}

// A connection of what the accept of a Unix listener gave: the stream, and the peer's path.
fn accepted_unix(stream: UnixStream, path: Option<Path<'_>>) -> Sock
    ensures stream { unix_stream_in result ≡ Some stream }
    ensures path { path_in result ≡ path_kept (option_map path_bytes path.entry) }
{
    Sock::Unix(PeerStream {
        stream,
        peer: path_of(path),
    })
}

impl Listen {
    pub(crate) fn register_at(&mut self, registry: &Registry, token: u64) -> io::Result<()>
        ensures same { self.new ≡ self.old }
    {
        let token = Token(token as usize);
        match self {
            Listen::Tcp(listener) => registry.register(listener, token, Interest::READABLE),
            Listen::Unix(listener) => registry.register(listener, token, Interest::READABLE),
        }
    }

    /// The port of a TCP listener, as for one that was opened at port 0. A Unix one has none.
    pub fn port(&self) -> Option<u16>
        ensures { IfSome result (λ port. is_tcp_listener self.now ≡ true) }
    {
        match self {
            Listen::Tcp(listener) => match listener.local_addr() {
                Ok(addr) => Some(addr.port()),
                Err(_) => None,
            },
            Listen::Unix(_) => None,
        }
    }

    pub(crate) fn accept(&self) -> io::Result<Sock>
        ensures family { IfOk result (λ sock. is_tcp sock ≡ is_tcp_listener self.now) }
    {
        match self {
            Listen::Tcp(listener) => Ok(accepted_tcp(listener.accept()?)),
            Listen::Unix(listener) => {
                let (stream, addr) = listener.accept()?;
                Ok(accepted_unix(stream, addr.as_pathname()))
            }
        }
    }
}
