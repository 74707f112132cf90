//! The first faults of keys of a rule that it may leave out.

use relay_config::{Config, Fault, Key, Place, Spot, Wrong};
use std::alloc::Global;

/// Keys of the first rule, and the key that is wrong of a table, an item of its list, and why.
type Row = (&'static str, Place, Key, Option<usize>, Wrong);

const RULE: Place = Place::Rule(0);

const PROXY: Place = Place::Proxy(0);

const HEALTH: Place = Place::Health(0);

// Of two faults the first is told, wherever they stand.
const ROWS: &[Row] = &[
    (
        "connections = 0\n",
        RULE,
        Key::Connections,
        None,
        Wrong::Value,
    ),
    (
        "connections = 50001\nbalance = \"best\"\n",
        RULE,
        Key::Balance,
        None,
        Wrong::Value,
    ),
    (
        "connections_per_source = 0\nconnections = \"500\"\n",
        RULE,
        Key::Connections,
        None,
        Wrong::Type,
    ),
    (
        "accepts_per_source = 1\nconnections_per_source = 50001\n",
        RULE,
        Key::ConnectionsPerSource,
        None,
        Wrong::Value,
    ),
    (
        "accepts_per_source = 100\n",
        RULE,
        Key::AcceptsPerSource,
        None,
        Wrong::Type,
    ),
    (
        "accepts_per_source = \"100/d\"\nlisten = 1\n",
        RULE,
        Key::AcceptsPerSource,
        None,
        Wrong::Value,
    ),
    (
        "keepalive = \"500ms\"\naccepts_per_source = \"0/s\"\n",
        RULE,
        Key::AcceptsPerSource,
        None,
        Wrong::Value,
    ),
    (
        "keepalive = \"1500ms\"\nuser_timeout = 1\n",
        RULE,
        Key::Keepalive,
        None,
        Wrong::Value,
    ),
    (
        "keepalive = \"32768s\"\n",
        RULE,
        Key::Keepalive,
        None,
        Wrong::Value,
    ),
    ("keepalive = 60\n", RULE, Key::Keepalive, None, Wrong::Type),
    (
        "user_timeout = \"25h\"\nlisten = 1\n",
        RULE,
        Key::UserTimeout,
        None,
        Wrong::Value,
    ),
    (
        "allow = []\nuser_timeout = \"0s\"\n",
        RULE,
        Key::UserTimeout,
        None,
        Wrong::Value,
    ),
    (
        "deny = 1\nallow = []\n",
        RULE,
        Key::Allow,
        None,
        Wrong::Empty,
    ),
    (
        "allow = [\"10.0.0.0/8\", \"10.0.0.0/33\"]\ndeny = []\n",
        RULE,
        Key::Allow,
        Some(1),
        Wrong::Value,
    ),
    (
        "allow = [\"10.0.0.0/8\"]\ndeny = [1]\nlisten = 1\n",
        RULE,
        Key::Deny,
        Some(0),
        Wrong::Type,
    ),
    (
        "deny = [\"::ffff:10.0.0.0/104\"]\n",
        RULE,
        Key::Deny,
        Some(0),
        Wrong::Value,
    ),
    (
        "deny = \"10.0.0.0/8\"\n",
        RULE,
        Key::Deny,
        None,
        Wrong::Type,
    ),
    (
        "resolve = 30\nconnections = 0\n",
        RULE,
        Key::Resolve,
        None,
        Wrong::Type,
    ),
    (
        "backlog = 65536\nsource = 1\n",
        RULE,
        Key::Backlog,
        None,
        Wrong::Value,
    ),
    (
        "source = \"localhost\"\nhealth = 1\n",
        RULE,
        Key::Source,
        None,
        Wrong::Value,
    ),
    (
        "source = \"::ffff:10.0.0.1\"\n",
        RULE,
        Key::Source,
        None,
        Wrong::Value,
    ),
    (
        "mode = \"0668\"\nhealth = 1\n",
        RULE,
        Key::Mode,
        None,
        Wrong::Value,
    ),
    (
        "mode = \"0660\"\nsource = 1\n",
        RULE,
        Key::Source,
        None,
        Wrong::Type,
    ),
    (
        "health = \"2s\"\nallow = []\n",
        RULE,
        Key::Health,
        None,
        Wrong::Type,
    ),
    (
        "health = { timeout = \"1s\", every = \"never\" }\n",
        HEALTH,
        Key::Every,
        None,
        Wrong::Value,
    ),
    (
        "health = { timeout = 1, fall = 0 }\n",
        HEALTH,
        Key::Timeout,
        None,
        Wrong::Type,
    ),
    (
        "health = { rise = 101, fall = 0 }\n",
        HEALTH,
        Key::Fall,
        None,
        Wrong::Value,
    ),
    (
        "health = { rise = 101 }\n",
        HEALTH,
        Key::Rise,
        None,
        Wrong::Value,
    ),
    (
        "proxy_protocol = \"v2\"\nlisten = 1\n",
        RULE,
        Key::ProxyProtocol,
        None,
        Wrong::Type,
    ),
    (
        "proxy_protocol = { from_client = [] }\n",
        PROXY,
        Key::FromClient,
        None,
        Wrong::Empty,
    ),
    (
        "proxy_protocol = { to_target = \"v3\", from_client = [\"10.0.0.1\", \"a\"] }\n",
        PROXY,
        Key::FromClient,
        Some(1),
        Wrong::Value,
    ),
    (
        "proxy_protocol = { to_target = \"v3\" }\nlisten = 1\n",
        PROXY,
        Key::ToTarget,
        None,
        Wrong::Value,
    ),
    (
        "connections_per_source = 1\nlisten = 1\n",
        RULE,
        Key::Listen,
        None,
        Wrong::Type,
    ),
];

fn fault_of(row: &Row) -> Fault {
    let spot = Spot {
        place: row.1,
        key: row.2,
        item: row.3,
    };
    Fault::At(spot, row.4)
}

/// Whether a rule with these keys has this fault, or memory was refused.
fn has_fault(alloc: Global, keys: &str, want: Fault) -> bool {
    let mut text = String::new(alloc);
    if text.push_str("[[rule]]\nname = \"web\"\n").is_err() || text.push_str(keys).is_err() {
        return true;
    }
    match Config::parse(alloc, text.as_bytes()) {
        Ok(_) => false,
        Err(fault) => fault == want || fault == Fault::Memory,
    }
}

#[test]
fn the_first_fault_of_such_a_key_is_told(rt: HostRuntime) {
    for row in ROWS {
        let keys = row.0;
        assert!(rt; has_fault(rt.alloc(), keys, fault_of(row)), "{keys}");
    }
}
