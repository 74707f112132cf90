//! What a header says of a connection, and how many bytes it may have.

use std::net::{Ipv4Addr, Ipv6Addr};

/// The most bytes of a header of version 1, its CR LF among them, as the public text has it.
pub const MAX_LINE_BYTES: usize = 107;

/// The bytes of a header of version 2 before its block of addresses.
pub const HEAD_BYTES: usize = 16;

/// The most bytes of a header of version 2 that are read: those that every path of IPv4 carries in
/// one segment. The public text has a header come in one segment, so that it is read at once.
pub const MAX_BYTES: usize = 536;

/// The bytes of a Unix socket's name in a header, as in `sockaddr_un`.
pub const NAME_BYTES: usize = 108;

/// The most bytes of a header of version 2 that are written: two names of Unix sockets.
pub const MAX_VERSION2_BYTES: usize = HEAD_BYTES + 2 * NAME_BYTES;

/// The most bytes of addresses in version 2.
pub const MAX_BLOCK_BYTES: usize = 2 * NAME_BYTES;

/// Both ends of a connection over IPv4, as the sender saw them: the client, and what it connected
/// to.
#[derive(Clone, Copy, Debug, PartialEq, Eq, Drop)]
pub struct EndsV4 {
    pub source: Ipv4Addr,
    pub source_port: u16,
    pub destination: Ipv4Addr,
    pub destination_port: u16,
}

/// Both ends of a connection over IPv6, likewise.
#[derive(Clone, Copy, Debug, PartialEq, Eq, Drop)]
pub struct EndsV6 {
    pub source: Ipv6Addr,
    pub source_port: u16,
    pub destination: Ipv6Addr,
    pub destination_port: u16,
}

/// Both names of a connection over Unix sockets, each as `sockaddr_un` has it: a path with zeros
/// behind it.
#[derive(Clone, Copy, Debug, PartialEq, Eq, Drop)]
pub struct Names {
    pub source: [u8; NAME_BYTES],
    pub destination: [u8; NAME_BYTES],
}

/// What a header says.
#[derive(Clone, Copy, Debug, PartialEq, Eq, Drop)]
pub enum Header {
    /// The sender speaks for itself, as in a health check: the addresses are the connection's own.
    Local,
    /// The sender can't tell, or tells of what isn't known here, as datagrams: the addresses are
    /// the connection's own.
    Unknown,
    /// A connection over IPv4.
    V4(EndsV4),
    /// A connection over IPv6.
    V6(EndsV6),
    /// A connection over Unix sockets.
    Unix(Names),
}
