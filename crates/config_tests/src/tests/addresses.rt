//! The texts of IP addresses: those of RFC 5952, and what a text's parts are.

use ip_text::{dotted, hex_groups, ipv6_text};
use std::net::{Ipv4Addr, Ipv6Addr};
use text_reading::{number_between, split_once};

// The examples of RFC 5952, chapters 4 and 5, and their neighbours.
const ROWS: &[([u16; 8], &str, &str)] = &[
    ([0; 8], "::", "::"),
    ([0, 0, 0, 0, 0, 0, 0, 1], "::1", "::1"),
    (
        [0x2001, 0xdb8, 0, 0, 0, 0, 2, 1],
        "2001:db8::2:1",
        "2001:db8::2:1",
    ),
    (
        [0x2001, 0xdb8, 0, 1, 1, 1, 1, 1],
        "2001:db8:0:1:1:1:1:1",
        "2001:db8:0:1:1:1:1:1",
    ),
    (
        [0x2001, 0, 0, 1, 0, 0, 0, 1],
        "2001:0:0:1::1",
        "2001:0:0:1::1",
    ),
    (
        [0x2001, 0xdb8, 0, 0, 1, 0, 0, 1],
        "2001:db8::1:0:0:1",
        "2001:db8::1:0:0:1",
    ),
    ([1, 0, 0, 0, 0, 0, 0, 0], "1::", "1::"),
    (
        [0, 0, 0, 0, 0, 0xffff, 0xc000, 0x0201],
        "::ffff:192.0.2.1",
        "::ffff:c000:201",
    ),
    (
        [0xffff; 8],
        "ffff:ffff:ffff:ffff:ffff:ffff:ffff:ffff",
        "ffff:ffff:ffff:ffff:ffff:ffff:ffff:ffff",
    ),
];

#[test]
fn an_address_has_the_text_of_rfc_5952(rt: HostRuntime) {
    for (segments, text, groups) in ROWS {
        let address = Ipv6Addr::from_segments(*segments);
        assert!(rt; ipv6_text(address).as_slice() == text.as_bytes(), "{text}");
        assert!(rt;
            hex_groups(address).as_slice() == groups.as_bytes(),
            "{groups}"
        );
        assert!(rt;
            Ipv6Addr::parse_ascii(text.as_bytes()) == Ok(address),
            "{text}"
        );
    }
}

#[test]
fn an_ipv4_address_has_four_numbers(rt: HostRuntime) {
    let address = Ipv4Addr::from_octets([1, 22, 203, 0]);
    assert!(rt; dotted(address).as_slice() == b"1.22.203.0".as_slice());
    assert!(rt;
        dotted(Ipv4Addr::from_octets([255; 4])).as_slice() == b"255.255.255.255".as_slice()
    );
}

const NUMBERS: &[(&[u8], Option<u64>)] = &[
    (b"7", Some(7)),
    (b"10", Some(10)),
    (b"11", None),
    (b"3", Some(3)),
    (b"2", None),
    (b"07", None),
    (b"+7", None),
    (b"", None),
    (b" 7", None),
    (b"18446744073709551623", None),
];

#[test]
fn a_number_has_one_spelling_and_bounds(rt: HostRuntime) {
    for (text, want) in NUMBERS {
        assert!(rt; number_between(3, 10, text) == *want, "{text:?}");
    }
}

#[test]
fn a_text_is_parted_at_the_first_such_byte(rt: HostRuntime) {
    let parts = split_once(b"a=b=c", b'=');
    assert!(rt;
        parts.is_some_and(|parts| parts.0 == b"a".as_slice() && parts.1 == b"b=c".as_slice())
    );
    assert!(rt; split_once(b"abc", b'=').is_none());
}
