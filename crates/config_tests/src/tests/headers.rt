//! Headers of the PROXY protocol, as HAProxy 2.6.12 wrote them and as the public text has them.

use proxy_header::HeaderFault::{BadLine, Command, Family, NoEnd, NoHeader, TooLong, TooShort};
use proxy_header::{
    Decoded, EndsV4, EndsV6, Header, HeaderFault, Names, decode, version1, version2,
};
use std::net::{Ipv4Addr, Ipv6Addr};

/// What a header says, as a literal: addresses as octets or segments, and their ports.
enum Says {
    Local,
    Unknown,
    V4([u8; 4], u16, [u8; 4], u16),
    V6([u16; 8], u16, [u16; 8], u16),
    Unix(&'static [u8], &'static [u8]),
}

impl Says {
    fn header(&self) -> Header {
        match self {
            Says::Local => Header::Local,
            Says::Unknown => Header::Unknown,
            Says::V4(source, port, destination, other) => Header::V4(EndsV4 {
                source: Ipv4Addr::from_octets(*source),
                source_port: *port,
                destination: Ipv4Addr::from_octets(*destination),
                destination_port: *other,
            }),
            Says::V6(source, port, destination, other) => Header::V6(EndsV6 {
                source: Ipv6Addr::from_segments(*source),
                source_port: *port,
                destination: Ipv6Addr::from_segments(*destination),
                destination_port: *other,
            }),
            Says::Unix(source, destination) => Header::Unix(Names {
                source: name(source),
                destination: name(destination),
            }),
        }
    }
}

/// A path as `sockaddr_un` has it.
fn name(path: &[u8]) -> [u8; 108] {
    let mut bytes = [0; 108];
    for (to, from) in bytes.iter_mut().zip(path) {
        *to = *from;
    }
    bytes
}

const LOCALHOST: [u16; 8] = [0, 0, 0, 0, 0, 0, 0, 1];

// Each line as HAProxy's `send-proxy` wrote it, but for the last three, of the public text.
const LINES: &[(&[u8], Says)] = &[
    (
        b"PROXY TCP4 127.0.0.2 127.0.0.1 40961 39010\r\n",
        Says::V4([127, 0, 0, 2], 40_961, [127, 0, 0, 1], 39_010),
    ),
    (
        b"PROXY TCP6 ::1 ::1 40962 39010\r\n",
        Says::V6(LOCALHOST, 40_962, LOCALHOST, 39_010),
    ),
    (
        b"PROXY TCP4 255.255.255.255 255.255.255.255 65535 65535\r\n",
        Says::V4([255; 4], 65_535, [255; 4], 65_535),
    ),
    (
        b"PROXY TCP6 ffff:ffff:ffff:ffff:ffff:ffff:ffff:ffff ffff:ffff:ffff:ffff:ffff:ffff:ffff:ffff \
        65535 65535\r\n",
        Says::V6([0xffff; 8], 65_535, [0xffff; 8], 65_535),
    ),
    (b"PROXY UNKNOWN\r\n", Says::Unknown),
];

// As HAProxy's `send-proxy-v2` wrote them, but for the last, of the public text's layout.
const BLOCKS: &[(&[u8], Says)] = &[
    (
        b"\r\n\r\n\0\r\nQUIT\n!\x11\0\x0c\x7f\0\0\x02\x7f\0\0\x01\xa0\x03\x98c",
        Says::V4([127, 0, 0, 2], 40_963, [127, 0, 0, 1], 39_011),
    ),
    (
        b"\r\n\r\n\0\r\nQUIT\n!!\0$\0\0\0\0\0\0\0\0\0\0\0\0\0\0\0\x01\
        \0\0\0\0\0\0\0\0\0\0\0\0\0\0\0\x01\xa0\x04\x98c",
        Says::V6(LOCALHOST, 40_964, LOCALHOST, 39_011),
    ),
    (b"\r\n\r\n\0\r\nQUIT\n \0\0\0", Says::Local),
    (b"\r\n\r\n\0\r\nQUIT\n!\0\0\0", Says::Unknown),
];

/// Whether a whole header is read of these bytes with others behind it, and of every shorter part
/// of them that more are needed.
fn is_read(bytes: &[u8], behind: &[u8], said: &Header) -> bool {
    let mut stream = [0u8; 600];
    let all = bytes.len() + behind.len();
    if all > stream.len() {
        return false;
    }
    stream[..bytes.len()].copy_from_slice(bytes);
    stream[bytes.len()..all].copy_from_slice(behind);
    for size in 0..bytes.len() {
        if decode(&stream[..size]) != Decoded::More {
            return false;
        }
    }
    decode(&stream[..all]) == Decoded::Whole(*said, bytes.len())
}

#[test]
fn a_line_is_written_and_read_as_others_do(rt: HostRuntime) {
    for (bytes, says) in LINES {
        let header = says.header();
        let written = version1(&header);
        assert!(rt; written.as_slice() == *bytes, "{bytes:?}");
        assert!(rt; is_read(bytes, b"GET / HTTP/1.1\r\n", &header), "{bytes:?}");
    }
}

#[test]
fn a_block_is_written_and_read_as_others_do(rt: HostRuntime) {
    for (bytes, says) in BLOCKS {
        let header = says.header();
        let written = version2(&header);
        assert!(rt; written.as_slice() == *bytes, "{bytes:?}");
        assert!(rt; is_read(bytes, b"hello", &header), "{bytes:?}");
    }
}

#[test]
fn unix_sockets_have_their_names(rt: HostRuntime) {
    let header = Says::Unix(b"/run/client.sock", b"/run/web.sock").header();
    let written = version2(&header);
    assert_eq!(rt; written.len(), 232);
    assert_eq!(rt;
        &written.as_slice()[..32],
        b"\r\n\r\n\0\r\nQUIT\n!1\0\xd8/run/client.sock".as_slice()
    );
    assert_eq!(rt;
        &written.as_slice()[124..138],
        b"/run/web.sock\0".as_slice()
    );
    assert!(rt; is_read(written.as_slice(), b"hello", &header));
    assert!(rt; version1(&header).as_slice() == b"PROXY UNKNOWN\r\n".as_slice());
}

// Headers that others write in another way than we do, and of how many bytes each is.
const OTHERS: &[(&[u8], Says, usize)] = &[
    // A header of version 2 with a field behind the addresses.
    (
        b"\r\n\r\n\0\r\nQUIT\n!\x11\0\x10\x0a\0\0\x07\x0a\0\0\x01\x13\x88\0P\x04\0\x01Xrest",
        Says::V4([10, 0, 0, 7], 5_000, [10, 0, 0, 1], 80),
        32,
    ),
    // LOCAL with a block, which isn't looked at, nor its family.
    (b"\r\n\r\n\0\r\nQUIT\n \xff\0\x03abcrest", Says::Local, 19),
    // A datagram's.
    (
        b"\r\n\r\n\0\r\nQUIT\n!\x12\0\x0c\x0a\0\0\x07\x0a\0\0\x01\x13\x88\0P",
        Says::Unknown,
        28,
    ),
    (b"PROXY UNKNOWN \r\nrest", Says::Unknown, 16),
    (b"PROXY UNKNOWN ::1 a\nb 1 2\r\nrest", Says::Unknown, 27),
    (
        b"PROXY TCP6 2001:DB8:0:0::1 ::ffff:1.2.3.4 0 1\r\n\r\n",
        Says::V6(
            [0x2001, 0xdb8, 0, 0, 0, 0, 0, 1],
            0,
            [0, 0, 0, 0, 0, 0xffff, 0x102, 0x304],
            1,
        ),
        47,
    ),
];

#[test]
fn headers_of_other_forms_are_read(rt: HostRuntime) {
    for (bytes, says, size) in OTHERS {
        assert!(rt;
            decode(bytes) == Decoded::Whole(says.header(), *size),
            "{bytes:?}"
        );
    }
}

const FAULTS: &[(&[u8], HeaderFault)] = &[
    (b"GET / HTTP/1.1\r\n", NoHeader),
    (b"PROXX", NoHeader),
    (b"\r\n\r\n\0\r\nQUIX", NoHeader),
    (b"\r\n\r\n\0\r\nQUIT\n\x11\x11\0\0", Command),
    (b"\r\n\r\n\0\r\nQUIT\n\x22\x11\0\0", Command),
    (b"\r\n\r\n\0\r\nQUIT\n!\x41\0\x0c", Family),
    (b"\r\n\r\n\0\r\nQUIT\n!\x13\0\x0c", Family),
    (b"\r\n\r\n\0\r\nQUIT\n!\x11\x02\x09", TooLong),
    (b"\r\n\r\n\0\r\nQUIT\n \x11\x02\x09", TooLong),
    (b"\r\n\r\n\0\r\nQUIT\n!\x11\0\x0b", TooShort),
    (b"\r\n\r\n\0\r\nQUIT\n!\x21\0\x23", TooShort),
    (b"\r\n\r\n\0\r\nQUIT\n!\x31\0\xd7", TooShort),
    (b"PROXY \r\n", BadLine),
    (b"PROXY TCP5 1.2.3.4 1.2.3.4 1 1\r\n", BadLine),
    (b"PROXY TCP4 1.2.3.4 1.2.3.4 1 1 \r\n", BadLine),
    (b"PROXY TCP4 01.2.3.4 1.2.3.4 1 1\r\n", BadLine),
    (b"PROXY TCP4 1.2.3.4  1.2.3.4 1 1\r\n", BadLine),
    (b"PROXY TCP4 1.2.3.4 1.2.3.4 01 1\r\n", BadLine),
    (b"PROXY TCP4 1.2.3.4 1.2.3.4 1 65536\r\n", BadLine),
    (b"PROXY TCP4 ::1 ::1 1 1\r\n", BadLine),
    (b"PROXY TCP6 1.2.3.4 1.2.3.4 1 1\r\n", BadLine),
    (b"PROXY UNKNOWNs\r\n", BadLine),
    (
        b"PROXY UNKNOWN 1234567890123456789012345678901234567890123456789012345678901234567890\
        12345678901234567890123",
        NoEnd,
    ),
];

#[test]
fn what_is_no_header_has_its_fault(rt: HostRuntime) {
    for (bytes, fault) in FAULTS {
        assert!(rt; decode(bytes) == Decoded::Fault(*fault), "{bytes:?}");
    }
}
