//! Networks, which addresses they have, and who is let in.

use client_nets::{Net, admits, lists_client};
use std::net::IpAddr;

const ROWS: &[(&[u8], &[u8], bool)] = &[
    (b"10.0.0.0/8", b"10.255.0.1", true),
    (b"10.0.0.0/8", b"11.0.0.1", false),
    (b"10.9.8.7/8", b"10.0.0.1", true),
    (b"192.168.4.0/22", b"192.168.7.255", true),
    (b"192.168.4.0/22", b"192.168.8.0", false),
    (b"0.0.0.0/0", b"255.255.255.255", true),
    (b"1.2.3.4/32", b"1.2.3.4", true),
    (b"1.2.3.4/32", b"1.2.3.5", false),
    (b"1.2.3.4", b"1.2.3.4", true),
    (b"2001:db8::/32", b"2001:db8:ffff::1", true),
    (b"2001:db8::/32", b"2001:db9::1", false),
    (b"::/0", b"ffff::", true),
    (b"::1", b"::1", true),
    (b"::1/127", b"::", true),
    (b"::1/128", b"::", false),
    (b"0.0.0.0/0", b"::1", false),
    (b"::/0", b"1.2.3.4", false),
];

/// Whether the network that this text spells has the address of that one.
fn has(net: &[u8], address: &[u8]) -> Option<bool> {
    let address = IpAddr::parse_ascii(address).ok()?;
    let net = Net::parse(net)?;
    Some(net.contains(address))
}

#[test]
fn a_network_has_the_addresses_that_begin_as_it_does(rt: HostRuntime) {
    for (net, address, want) in ROWS {
        assert!(rt; has(net, address) == Some(*want), "{net:?} {address:?}");
    }
}

const BAD: &[&[u8]] = &[
    b"",
    b"/8",
    b"10.0.0.0/",
    b"10.0.0.0/33",
    b"10.0.0.0/08",
    b"10.0.0/8",
    b"::/129",
    b"10.0.0.0/8/8",
    b"10.0.0.0 /8",
    b"localhost",
];

#[test]
fn what_is_no_network_is_refused(rt: HostRuntime) {
    for text in BAD {
        assert!(rt; Net::parse(text).is_none(), "{text:?}");
    }
}

/// Whether a client is let in by these lists of two networks each.
fn is_let_in(allow: &[u8], deny: &[u8], address: &[u8]) -> Option<bool> {
    let allow = [Net::parse(allow)?];
    let deny = [Net::parse(deny)?];
    let address = IpAddr::parse_ascii(address).ok()?;
    Some(admits(&allow, &deny, address))
}

const CLIENTS: &[(&[u8], bool)] = &[
    (b"10.1.2.3", true),
    (b"10.9.2.3", false),
    (b"11.1.2.3", false),
    (b"::ffff:10.1.2.3", true),
    (b"::ffff:10.9.2.3", false),
    (b"::1", false),
];

#[test]
fn deny_comes_first(rt: HostRuntime) {
    for (address, want) in CLIENTS {
        let is = is_let_in(b"10.0.0.0/8", b"10.9.0.0/16", address);
        assert!(rt; is == Some(*want), "{address:?}");
    }
}

#[test]
fn without_lists_all_are_let_in(rt: HostRuntime) {
    let address = IpAddr::parse_ascii(b"::1").ok();
    assert!(rt; address.is_some_and(|address| admits(&[], &[], address)));
}

/// Whether a client is listed by one network.
fn is_listed(net: &[u8], address: &[u8]) -> Option<bool> {
    let net = [Net::parse(net)?];
    let address = IpAddr::parse_ascii(address).ok()?;
    Some(lists_client(&net, address))
}

const SENDERS: &[(&[u8], &[u8], bool)] = &[
    (b"10.0.0.1", b"10.0.0.1", true),
    (b"10.0.0.1", b"10.0.0.2", false),
    (b"10.0.0.1", b"::ffff:10.0.0.1", true),
    (b"::ffff:0:0/96", b"::ffff:10.0.0.1", false),
    (b"2001:db8::/32", b"2001:db8::1", true),
];

#[test]
fn a_mapped_client_is_listed_as_one_of_ipv4(rt: HostRuntime) {
    for (net, address, want) in SENDERS {
        assert!(rt;
            is_listed(net, address) == Some(*want),
            "{net:?} {address:?}"
        );
    }
}
