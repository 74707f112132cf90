//! Keys of a rule that it may leave out, and what it says with them.

use client_nets::Net;
use config_values::Rate;
use relay_config::{Checks, Clients, Config, Fault, Proxy, Rule, Sockets, Version};
use std::alloc::Global;
use std::net::IpAddr;

const HEAD: &str = "[[rule]]\nname = \"web\"\nlisten = [\"unix:/a\"]\n";

const TARGET: &str = "target = [{ at = \"unix:/b\" }]\n";

/// A configuration of one rule with these keys, or `None` where memory is refused.
fn text_of(alloc: Global, keys: &str) -> Option<String> {
    let mut text = String::from_str(alloc, HEAD).ok()?;
    text.push_str(keys).ok()?;
    text.push_str(TARGET).ok()?;
    Some(text)
}

/// The rule with these keys, or why there is none.
fn rule_of(alloc: Global, keys: &str) -> Result<Rule, Fault> {
    let Some(text) = text_of(alloc, keys) else {
        return Err(Fault::Memory);
    };
    let mut config = Config::parse(alloc, text.as_bytes())?;
    match config.rules.pop() {
        Some(rule) => Ok(rule),
        None => Err(Fault::TooLong),
    }
}

// The keys, and how many connections there may be, of them of one source, and how many of one
// source are let in, in how many seconds.
const CLIENTS: &[(&str, Option<u32>, Option<u32>, Option<Rate>)] = &[
    ("", None, None, None),
    ("connections = 1\n", Some(1), None, None),
    ("connections_per_source = 50000\n", None, Some(50_000), None),
    (
        "accepts_per_source = \"1000000/s\"\n",
        None,
        None,
        Some(Rate {
            count: 1_000_000,
            seconds: 1,
        }),
    ),
    (
        "connections = 500\nconnections_per_source = 20\naccepts_per_source = \"30/m\"\n",
        Some(500),
        Some(20),
        Some(Rate {
            count: 30,
            seconds: 60,
        }),
    ),
];

/// Whether the rule with these keys says this of its clients, or memory was refused.
fn has_clients(alloc: Global, keys: &str, want: &Clients) -> bool {
    match rule_of(alloc, keys) {
        Ok(rule) => rule.head.clients == *want,
        Err(fault) => fault == Fault::Memory,
    }
}

#[test]
fn a_rule_says_how_many_clients_it_serves(rt: HostRuntime) {
    for (keys, connections, each, accepts) in CLIENTS {
        let want = Clients {
            connections: *connections,
            source_connections: *each,
            source_accepts: *accepts,
        };
        assert!(rt; has_clients(rt.alloc(), keys, &want), "{keys}");
    }
}

// The keys, and after how many milliseconds a silent peer is asked, and one that acknowledges
// nothing is given up.
const SOCKETS: &[(&str, Option<u64>, Option<u64>)] = &[
    ("", None, None),
    ("keepalive = \"60s\"\n", Some(60_000), None),
    ("keepalive = \"1000ms\"\n", Some(1_000), None),
    ("keepalive = \"32767s\"\n", Some(32_767_000), None),
    ("user_timeout = \"1ms\"\n", None, Some(1)),
    (
        "user_timeout = \"never\"\nkeepalive = \"never\"\n",
        None,
        None,
    ),
    (
        "keepalive = \"5m\"\nuser_timeout = \"24h\"\n",
        Some(300_000),
        Some(86_400_000),
    ),
];

/// Whether the rule with these keys says this of its sockets, or memory was refused.
fn has_sockets(alloc: Global, keys: &str, want: &Sockets) -> bool {
    match rule_of(alloc, keys) {
        Ok(rule) => rule.head.sockets == *want,
        Err(fault) => fault == Fault::Memory,
    }
}

#[test]
fn a_rule_says_how_its_sockets_are_set_up(rt: HostRuntime) {
    for (keys, keepalive, user_timeout) in SOCKETS {
        let want = Sockets {
            keepalive_ms: *keepalive,
            user_timeout_ms: *user_timeout,
            backlog: None,
            source: None,
            mode: None,
        };
        assert!(rt; has_sockets(rt.alloc(), keys, &want), "{keys}");
    }
}

// The keys, and the networks that are let in, and those that aren't.
const ACCESS: &[(&str, &[&[u8]], &[&[u8]])] = &[
    ("", &[], &[]),
    ("allow = [\"10.0.0.0/8\"]\n", &[b"10.0.0.0/8"], &[]),
    (
        "deny = [\"2001:db8::/32\", \"::1\"]\nallow = [\"::/0\", \"192.0.2.1\"]\n",
        &[b"::/0", b"192.0.2.1/32"],
        &[b"2001:db8::/32", b"::1/128"],
    ),
];

/// Whether these are the networks that the texts spell.
fn are_nets(nets: &[Net], texts: &[&[u8]]) -> bool {
    if nets.len() != texts.len() {
        return false;
    }
    for (net, text) in nets.iter().zip(texts) {
        if Net::parse(text) != Some(*net) {
            return false;
        }
    }
    true
}

/// Whether the rule with these keys says this of who may connect, or memory was refused.
fn has_access(alloc: Global, keys: &str, allow: &[&[u8]], deny: &[&[u8]]) -> bool {
    match rule_of(alloc, keys) {
        Ok(rule) => {
            are_nets(rule.access.allow.as_slice(), allow)
                && are_nets(rule.access.deny.as_slice(), deny)
        }
        Err(fault) => fault == Fault::Memory,
    }
}

#[test]
fn a_rule_says_who_may_connect(rt: HostRuntime) {
    for (keys, allow, deny) in ACCESS {
        assert!(rt; has_access(rt.alloc(), keys, allow, deny), "{keys}");
    }
}

// The keys, how many clients may wait, the address that connects come from, and how often names are
// looked up.
const OTHERS: &[(&str, Option<u32>, &[u8], Option<u64>)] = &[
    ("", None, b"", Some(30_000)),
    ("backlog = 1\n", Some(1), b"", Some(30_000)),
    (
        "backlog = 65535\nsource = \"10.0.0.5\"\nresolve = \"never\"\n",
        Some(65_535),
        b"10.0.0.5",
        None,
    ),
    (
        "resolve = \"5m\"\nsource = \"2001:db8::5\"\n",
        None,
        b"2001:db8::5",
        Some(300_000),
    ),
];

/// Whether the rule with these keys says this, or memory was refused.
fn has_others(alloc: Global, row: &(&str, Option<u32>, &[u8], Option<u64>)) -> bool {
    match rule_of(alloc, row.0) {
        Ok(rule) => {
            let sockets = rule.head.sockets;
            sockets.backlog == row.1
                && sockets.source == IpAddr::parse_ascii(row.2).ok()
                && rule.head.resolve_ms == row.3
        }
        Err(fault) => fault == Fault::Memory,
    }
}

#[test]
fn a_rule_says_where_connects_come_from(rt: HostRuntime) {
    for row in OTHERS {
        let keys = row.0;
        assert!(rt; has_others(rt.alloc(), row), "{keys}");
    }
}

// The keys, and the mode of the rule's Unix sockets.
const MODES: &[(&str, Option<u16>)] = &[
    ("", None),
    ("mode = \"0000\"\n", Some(0)),
    ("source = \"10.0.0.5\"\nmode = \"0640\"\n", Some(416)),
    ("mode = \"0777\"\nbacklog = 5\n", Some(511)),
];

/// Whether the rule with these keys has this mode, or memory was refused.
fn has_mode(alloc: Global, keys: &str, mode: Option<u16>) -> bool {
    match rule_of(alloc, keys) {
        Ok(rule) => rule.head.sockets.mode == mode,
        Err(fault) => fault == Fault::Memory,
    }
}

#[test]
fn a_rule_says_the_mode_of_its_unix_sockets(rt: HostRuntime) {
    for (keys, mode) in MODES {
        assert!(rt; has_mode(rt.alloc(), keys, *mode), "{keys}");
    }
}

// The keys, and every how many milliseconds targets are checked, how long a check may take, and how
// many in a row bring a target down or up.
const CHECKS: &[(&str, u64, u64, u32, u32)] = &[
    ("health = {}\n", 2_000, 1_000, 3, 2),
    ("health = { fall = 1, rise = 100 }\n", 2_000, 1_000, 1, 100),
    (
        "health = { every = \"500ms\", timeout = \"24h\", fall = 5, rise = 4 }\n",
        500,
        86_400_000,
        5,
        4,
    ),
];

/// Whether the rule with these keys says this of its checks, or memory was refused.
fn has_checks(alloc: Global, keys: &str, want: Option<Checks>) -> bool {
    match rule_of(alloc, keys) {
        Ok(rule) => rule.head.health == want,
        Err(fault) => fault == Fault::Memory,
    }
}

#[test]
fn a_rule_says_how_its_targets_are_checked(rt: HostRuntime) {
    assert!(rt; has_checks(rt.alloc(), "", None));
    for (keys, every_ms, timeout_ms, fall, rise) in CHECKS {
        let want = Checks {
            every_ms: *every_ms,
            timeout_ms: *timeout_ms,
            fall: *fall,
            rise: *rise,
        };
        assert!(rt; has_checks(rt.alloc(), keys, Some(want)), "{keys}");
    }
}

// The keys, the networks whose clients begin with a header, and the version that a target gets.
const PROXIES: &[(&str, &[&[u8]], Option<Version>)] = &[
    ("proxy_protocol = {}\n", &[], None),
    (
        "proxy_protocol = { to_target = \"v1\" }\n",
        &[],
        Some(Version::V1),
    ),
    (
        "proxy_protocol = { from_client = [\"10.0.0.1/32\", \"::1\"], to_target = \"v2\" }\n",
        &[b"10.0.0.1", b"::1/128"],
        Some(Version::V2),
    ),
];

/// Whether a rule's headers are from these networks and of this version.
fn is_proxy(proxy: &Option<Proxy>, nets: &[&[u8]], version: Option<Version>) -> bool {
    match proxy {
        Some(proxy) => are_nets(proxy.from_client.as_slice(), nets) && proxy.to_target == version,
        None => false,
    }
}

/// Whether the rule with these keys says this of headers, or memory was refused.
fn has_proxy(alloc: Global, row: &(&str, &[&[u8]], Option<Version>)) -> bool {
    match rule_of(alloc, row.0) {
        Ok(rule) => is_proxy(&rule.proxy, row.1, row.2),
        Err(fault) => fault == Fault::Memory,
    }
}

#[test]
fn a_rule_says_which_headers_it_reads_and_writes(rt: HostRuntime) {
    for row in PROXIES {
        let keys = row.0;
        assert!(rt; has_proxy(rt.alloc(), row), "{keys}");
    }
}
