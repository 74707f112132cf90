//! Texts that are configurations, with what they say, and texts that are none, with their first fault.

use config_values::addr_of;
use relay_config::{
    Admin, Config, Fault, Format, Key, Limits, Log, MAX_BYTES, Place, Rule, Service, Spot, Target,
    Wrong,
};
use std::alloc::Global;
use target_pick::Balance;

const GOOD: &str = "# relay.toml
connections = 4000
connections_per_rule = 500
connect_timeout = \"2s\"
loops = 2
replace_stale = true
metrics = \"tcp:127.0.0.1:9464\"

[[rule]]
name = \"web\"
listen = [\"tcp:0.0.0.0:443\", \"tcp:[::]:443\"]
idle = \"30s\"
balance = \"least-connections\"

[[rule.target]]
at = \"tcp:10.0.0.11:8443\"
weight = 2
[[rule.target]]
at = \"tcp:app.internal:8443\"
[[rule.target]]
at = \"unix:/run/app.sock\"
weight = 0
backup = true

[[rule]]
listen = [\"unix:/run/in.sock\"]
name = \"db-1\"
target = [{ at = \"tcp:[::1]:5432\" }]
";

/// Whether a target is at this address, with this weight, and a backup or not.
fn is_target(target: &Target, at: &[u8], weight: u16, is_backup: bool) -> bool {
    addr_of(at) == Some(target.at) && target.weight == weight && target.is_backup == is_backup
}

/// Whether this is the first rule of the text.
fn is_web(rule: &Rule) -> bool {
    let head = &rule.head;
    let [first, second] = rule.listen.as_slice() else {
        return false;
    };
    let [one, two, three] = rule.targets.as_slice() else {
        return false;
    };
    head.name.as_str() == "web"
        && head.idle_ms == Some(30_000)
        && head.balance == Balance::LeastConnections
        && addr_of(b"tcp:0.0.0.0:443") == Some(*first)
        && addr_of(b"tcp:[::]:443") == Some(*second)
        && is_target(one, b"tcp:10.0.0.11:8443", 2, false)
        && is_target(two, b"tcp:app.internal:8443", 1, false)
        && is_target(three, b"unix:/run/app.sock", 0, true)
}

/// Whether this is the second one.
fn is_db(rule: &Rule) -> bool {
    let [listen] = rule.listen.as_slice() else {
        return false;
    };
    let [target] = rule.targets.as_slice() else {
        return false;
    };
    rule.head.name.as_str() == "db-1"
        && rule.head.idle_ms.is_none()
        && rule.head.balance == Balance::RoundRobin
        && addr_of(b"unix:/run/in.sock") == Some(*listen)
        && is_target(target, b"tcp:[::1]:5432", 1, false)
}

fn has_two_rules(config: &Config) -> bool {
    let [web, db] = config.rules.as_slice() else {
        return false;
    };
    is_web(web) && is_db(db)
}

/// Whether a text is read as these limits and as many rules, or memory was refused.
fn has_limits(alloc: Global, text: &str, limits: &Limits, rules: usize) -> bool {
    match Config::parse(alloc, text.as_bytes()) {
        Ok(config) => config.limits == *limits && config.rules.len() == rules,
        Err(fault) => fault == Fault::Memory,
    }
}

#[test]
fn a_configuration_is_read_as_it_says(rt: HostRuntime) {
    let alloc = rt.alloc();
    let limits = Limits {
        connections: Some(4_000),
        rule_connections: Some(500),
        connect_ms: Some(Some(2_000)),
    };
    assert!(rt; has_limits(alloc, GOOD, &limits, 2));
    let rules = match Config::parse(alloc, GOOD.as_bytes()) {
        Ok(config) => has_two_rules(&config),
        Err(fault) => fault == Fault::Memory,
    };
    assert!(rt; rules);
}

#[test]
fn what_isnt_said_is_left_to_who_reads_it(rt: HostRuntime) {
    let limits = Limits {
        connections: None,
        rule_connections: None,
        connect_ms: None,
    };
    assert!(rt; has_limits(rt.alloc(), "", &limits, 0));
    assert!(rt; has_limits(rt.alloc(), "rule = []\n", &limits, 0));
    let never = Limits {
        connections: Some(50_000),
        rule_connections: None,
        connect_ms: Some(None),
    };
    let text = "connections = 50000\nconnect_timeout = \"never\"\n";
    assert!(rt; has_limits(rt.alloc(), text, &never, 0));
}

/// Whether a text's relay runs on so many loops, and has its old sockets removed and its metrics
/// answered like this, or memory was refused.
fn runs(
    alloc: Global,
    text: &str,
    loops: Option<u32>,
    removes: Option<bool>,
    metrics: &[u8],
) -> bool {
    let service = Service {
        loops,
        replaces_stale: removes,
        metrics: addr_of(metrics),
        admin: None,
    };
    match Config::parse(alloc, text.as_bytes()) {
        Ok(config) => config.service == service,
        Err(fault) => fault == Fault::Memory,
    }
}

#[test]
fn a_relay_runs_as_its_configuration_says(rt: HostRuntime) {
    let alloc = rt.alloc();
    assert!(rt; runs(alloc, GOOD, Some(2), Some(true), b"tcp:127.0.0.1:9464"));
    assert!(rt; runs(alloc, "", None, None, b""));
    let text = "loops = 64\nreplace_stale = false\nmetrics = \"unix:/run/metrics.sock\"\n";
    assert!(rt;
        runs(
            alloc,
            text,
            Some(64),
            Some(false),
            b"unix:/run/metrics.sock"
        )
    );
}

/// Whether a relay serves admin sessions at this path, made with this mode.
fn is_admin(admin: &Option<Admin>, path: &str, mode: Option<u16>) -> bool {
    match admin {
        Some(admin) => admin.path.as_str() == path && admin.mode == mode,
        None => path.is_empty(),
    }
}

/// Whether a relay has its log in this file, in this form.
fn is_log(log: &Option<Log>, file: &str, format: Format) -> bool {
    match log {
        Some(log) => log.file.as_str() == file && log.format == format,
        None => file.is_empty(),
    }
}

// A text, the path and the mode of the admin socket, and the file and the form of the log.
const SEEN: &[(&str, &str, Option<u16>, &str, Format)] = &[
    ("", "", None, "", Format::Text),
    (
        "admin = \"admin.sock\"\nlog = \"-\"\n",
        "admin.sock",
        None,
        "-",
        Format::Text,
    ),
    (
        "admin = { path = \"/run/a.sock\", mode = \"0660\" }\nlog = { file = \"/var/a b.log\", format = \"json\" }\n",
        "/run/a.sock",
        Some(0o660),
        "/var/a b.log",
        Format::Json,
    ),
    (
        "[admin]\npath = \"a\"\n[log]\nfile = \"b\"\nformat = \"text\"\n",
        "a",
        None,
        "b",
        Format::Text,
    ),
    ("[log]\nfile = \"b\"\n", "", None, "b", Format::Text),
];

#[test]
fn admin_sessions_and_the_log_are_where_the_configuration_says(rt: HostRuntime) {
    for (text, path, mode, file, format) in SEEN {
        let same = match Config::parse(rt.alloc(), text.as_bytes()) {
            Ok(config) => {
                is_admin(&config.service.admin, path, *mode) && is_log(&config.log, file, *format)
            }
            Err(fault) => fault == Fault::Memory,
        };
        assert!(rt; same, "{text}");
    }
}

/// Where something is wrong, and what, as a literal: a table, a key, an item of its list.
type Row = (&'static str, Place, Key, Option<usize>, Wrong);

fn fault_of(row: &Row) -> Fault {
    Fault::At(
        Spot {
            place: row.1,
            key: row.2,
            item: row.3,
        },
        row.4,
    )
}

// Faults of whole texts, by kinds of their own.
const TEXTS: &[(&str, Fault)] = &[
    ("connections = \n", Fault::Toml(1, 15)),
    ("a = 1\n\nb = tru\n", Fault::Toml(3, 5)),
    ("\u{e9} = 1\n", Fault::Toml(1, 1)),
    ("conections = 5\n", Fault::Unknown(Place::Top, 0)),
    (
        "admin = { path = \"a\", user = \"b\" }\n",
        Fault::Unknown(Place::Admin, 1),
    ),
    ("log = { path = \"a\" }\n", Fault::Unknown(Place::Log, 0)),
    (
        "connections = 5\nrules = []\nzone = 1\n",
        Fault::Unknown(Place::Top, 1),
    ),
];

// Keys of the whole that are wrong.
const TOP: &[Row] = &[
    (
        "connections = 0\n",
        Place::Top,
        Key::Connections,
        None,
        Wrong::Value,
    ),
    (
        "connections = 50001\n",
        Place::Top,
        Key::Connections,
        None,
        Wrong::Value,
    ),
    (
        "connections = -1\n",
        Place::Top,
        Key::Connections,
        None,
        Wrong::Value,
    ),
    (
        "connections = \"5\"\n",
        Place::Top,
        Key::Connections,
        None,
        Wrong::Type,
    ),
    (
        "connect_timeout = 5\n",
        Place::Top,
        Key::ConnectTimeout,
        None,
        Wrong::Type,
    ),
    (
        "connect_timeout = \"5\"\nconnections = 0\n",
        Place::Top,
        Key::Connections,
        None,
        Wrong::Value,
    ),
    (
        "connections_per_rule = 50001\nconnect_timeout = \"5\"\n",
        Place::Top,
        Key::ConnectionsPerRule,
        None,
        Wrong::Value,
    ),
    (
        "connections_per_rule = 0\nconnections = 0\n",
        Place::Top,
        Key::Connections,
        None,
        Wrong::Value,
    ),
    (
        "loops = 65\nreplace_stale = 1\n",
        Place::Top,
        Key::Loops,
        None,
        Wrong::Value,
    ),
    ("loops = 0\n", Place::Top, Key::Loops, None, Wrong::Value),
    (
        "metrics = 1\nreplace_stale = \"yes\"\n",
        Place::Top,
        Key::ReplaceStale,
        None,
        Wrong::Type,
    ),
    (
        "metrics = \"tcp:localhost:9464\"\nrule = 1\n",
        Place::Top,
        Key::Metrics,
        None,
        Wrong::Value,
    ),
    ("admin = \"\"\n", Place::Top, Key::Admin, None, Wrong::Value),
    (
        "admin = \"a\\u0000b\"\n",
        Place::Top,
        Key::Admin,
        None,
        Wrong::Value,
    ),
    (
        "admin = 1\nlog = 1\n",
        Place::Top,
        Key::Admin,
        None,
        Wrong::Type,
    ),
    ("[admin]\n", Place::Admin, Key::Path, None, Wrong::Missing),
    (
        "admin = { path = \"a\", mode = \"660\" }\n",
        Place::Admin,
        Key::Mode,
        None,
        Wrong::Value,
    ),
    (
        "admin = { path = \"a\", mode = 660 }\n",
        Place::Admin,
        Key::Mode,
        None,
        Wrong::Type,
    ),
    (
        "log = []\nrule = 1\n",
        Place::Top,
        Key::Log,
        None,
        Wrong::Type,
    ),
    (
        "log = { file = \"\", format = \"xml\" }\n",
        Place::Log,
        Key::File,
        None,
        Wrong::Value,
    ),
    (
        "log = { file = \"a\", format = \"xml\" }\n",
        Place::Log,
        Key::Format,
        None,
        Wrong::Value,
    ),
    ("rule = 1\n", Place::Top, Key::Rule, None, Wrong::Type),
    ("[rule]\n", Place::Top, Key::Rule, None, Wrong::Type),
    ("rule = [1]\n", Place::Top, Key::Rule, Some(0), Wrong::Type),
];

// Keys that a rule or a target may not have; the rule is all of the text.
const UNKNOWN: &[(&str, Fault)] = &[
    ("idel = \"1s\"\n", Fault::Unknown(Place::Rule(0), 0)),
    (
        "name = \"web\"\nlisten = [\"unix:/a\"]\ntarget = [{ at = \"unix:/b\", wieght = 1 }]\n",
        Fault::Unknown(Place::Target(0, 0), 1),
    ),
];

// Keys of a rule that are wrong. The rule is the first of the text; a second one may follow.
const RULE: &[Row] = &[
    ("", Place::Rule(0), Key::Name, None, Wrong::Missing),
    (
        "name = \"Web\"\n",
        Place::Rule(0),
        Key::Name,
        None,
        Wrong::Value,
    ),
    (
        "name = \"a12345678901234567\"\n",
        Place::Rule(0),
        Key::Name,
        None,
        Wrong::Value,
    ),
    (
        "name = \"web\"\n",
        Place::Rule(0),
        Key::Listen,
        None,
        Wrong::Missing,
    ),
    (
        "name = \"web\"\nidle = \"30x\"\n",
        Place::Rule(0),
        Key::Idle,
        None,
        Wrong::Value,
    ),
    (
        "name = \"web\"\nbalance = \"random\"\n",
        Place::Rule(0),
        Key::Balance,
        None,
        Wrong::Value,
    ),
    (
        "name = \"web\"\nlisten = \"tcp:0.0.0.0:1\"\n",
        Place::Rule(0),
        Key::Listen,
        None,
        Wrong::Type,
    ),
    (
        "name = \"web\"\nlisten = []\n",
        Place::Rule(0),
        Key::Listen,
        None,
        Wrong::Empty,
    ),
    (
        "name = \"web\"\nlisten = [\"tcp:app:80\"]\n",
        Place::Rule(0),
        Key::Listen,
        Some(0),
        Wrong::Value,
    ),
    (
        "name = \"web\"\nlisten = [\"tcp:[::1]:1\", \"tcp:[0::1]:1\"]\n",
        Place::Rule(0),
        Key::Listen,
        Some(1),
        Wrong::Twice,
    ),
    (
        "name = \"web\"\nlisten = [\"unix:/a\"]\n",
        Place::Rule(0),
        Key::Target,
        None,
        Wrong::Missing,
    ),
    (
        "name = \"web\"\nlisten = [\"unix:/a\"]\ntarget = [\"unix:/b\"]\n",
        Place::Rule(0),
        Key::Target,
        Some(0),
        Wrong::Type,
    ),
    (
        "name = \"web\"\nlisten = [\"unix:/a\"]\ntarget = [{ at = \"unix:/b\" }, {}]\n",
        Place::Target(0, 1),
        Key::At,
        None,
        Wrong::Missing,
    ),
    (
        "name = \"web\"\nlisten = [\"unix:/a\"]\ntarget = [{ at = \"b:80\" }]\n",
        Place::Target(0, 0),
        Key::At,
        None,
        Wrong::Value,
    ),
    (
        "name = \"web\"\nlisten = [\"unix:/a\"]\ntarget = [{ at = \"unix:/b\", weight = 65536 }]\n",
        Place::Target(0, 0),
        Key::Weight,
        None,
        Wrong::Value,
    ),
    (
        "name = \"web\"\nlisten = [\"unix:/a\"]\ntarget = [{ at = \"unix:/b\", backup = 1 }]\n",
        Place::Target(0, 0),
        Key::Backup,
        None,
        Wrong::Type,
    ),
    (
        "name = \"web\"\nlisten = [\"unix:/a\"]\ntarget = [{ at = \"unix:/b\" }]\n[[rule]]\nname = \"web\"\n",
        Place::Rule(1),
        Key::Name,
        None,
        Wrong::Twice,
    ),
    (
        "name = \"web\"\nlisten = [\"unix:/a\"]\ntarget = [{ at = \"unix:/b\" }]\n[[rule]]\nname = \"db\"\n\
        listen = [\"unix:/c\", \"unix:/a\"]\n",
        Place::Rule(1),
        Key::Listen,
        Some(1),
        Wrong::Twice,
    ),
];

/// Whether a text has this fault, or memory was refused.
fn has_fault(alloc: Global, text: &[u8], want: Fault) -> bool {
    match Config::parse(alloc, text) {
        Ok(_) => false,
        Err(fault) => fault == want || fault == Fault::Memory,
    }
}

/// Whether a text has this fault behind the header of a rule.
fn has_fault_of_rule(alloc: Global, rule: &str, want: Fault) -> bool {
    let mut text = String::new(alloc);
    if text.push_str("[[rule]]\n").is_err() || text.push_str(rule).is_err() {
        return true;
    }
    has_fault(alloc, text.as_bytes(), want)
}

#[test]
fn the_first_fault_is_told(rt: HostRuntime) {
    for (text, fault) in TEXTS {
        assert!(rt; has_fault(rt.alloc(), text.as_bytes(), *fault), "{text}");
    }
    for row in TOP {
        let text = row.0;
        assert!(rt;
            has_fault(rt.alloc(), text.as_bytes(), fault_of(row)),
            "{text}"
        );
    }
}

#[test]
fn the_first_fault_of_a_rule_is_told(rt: HostRuntime) {
    for (rule, fault) in UNKNOWN {
        assert!(rt; has_fault_of_rule(rt.alloc(), rule, *fault), "{rule}");
    }
    for row in RULE {
        let rule = row.0;
        assert!(rt;
            has_fault_of_rule(rt.alloc(), rule, fault_of(row)),
            "{rule}"
        );
    }
}

#[test]
fn bytes_that_are_no_text_are_no_toml(rt: HostRuntime) {
    let fault = Fault::Toml(2, 3);
    assert!(rt; has_fault(rt.alloc(), b"# a\n# \xff\n", fault));
}

/// A text of so many spaces.
fn spaces(alloc: Global, size: usize) -> Option<Vec<u8>> {
    let mut text = Vec::with_capacity(alloc, size).ok()?;
    for _ in 0..size {
        text.push(b' ').ok()?;
    }
    Some(text)
}

fn has_no_rules(alloc: Global, text: &[u8]) -> bool {
    match Config::parse(alloc, text) {
        Ok(config) => config.rules.is_empty(),
        Err(fault) => fault == Fault::Memory,
    }
}

#[test]
fn a_text_has_at_most_a_mebibyte(rt: HostRuntime) {
    if let Some(text) = spaces(rt.alloc(), MAX_BYTES + 1) {
        assert!(rt; has_fault(rt.alloc(), text.as_slice(), Fault::TooLong));
    }
    if let Some(text) = spaces(rt.alloc(), MAX_BYTES) {
        assert!(rt; has_no_rules(rt.alloc(), text.as_slice()));
    }
}

/// A text of so many items in a list.
fn list_text(alloc: Global, front: &str, item: &str, count: usize) -> Option<String> {
    let mut text = String::from_str(alloc, front).ok()?;
    for _ in 0..count {
        text.push_str(item).ok()?;
    }
    text.push_str("]\n").ok()?;
    Some(text)
}

// What stands before a list's items, an item, how many there may be, and the list.
const LISTS: &[(&str, &str, usize, Place, Key)] = &[
    ("rule = [", "{}, ", 1_024, Place::Top, Key::Rule),
    (
        "[[rule]]\nname = \"web\"\nlisten = [",
        "\"unix:/a\", ",
        16,
        Place::Rule(0),
        Key::Listen,
    ),
    (
        "[[rule]]\nname = \"web\"\nlisten = [\"unix:/a\"]\ntarget = [",
        "{}, ",
        64,
        Place::Rule(0),
        Key::Target,
    ),
    (
        "[[rule]]\nname = \"web\"\nallow = [",
        "\"::1\", ",
        256,
        Place::Rule(0),
        Key::Allow,
    ),
    (
        "[[rule]]\nname = \"web\"\nproxy_protocol.from_client = [",
        "\"::1\", ",
        256,
        Place::Proxy(0),
        Key::FromClient,
    ),
];

/// Whether a list of so many items is told as one of too many, or memory was refused.
fn is_too_long(alloc: Global, row: &(&str, &str, usize, Place, Key), count: usize) -> Option<bool> {
    let text = list_text(alloc, row.0, row.1, count)?;
    let fault = Fault::At(Spot::of(row.3, row.4), Wrong::TooMany);
    match Config::parse(alloc, text.as_bytes()) {
        Ok(_) => Some(false),
        Err(Fault::Memory) => None,
        Err(found) => Some(found == fault),
    }
}

#[test]
fn lists_have_their_greatest_sizes(rt: HostRuntime) {
    for row in LISTS {
        let most = row.2;
        let front = row.0;
        assert!(rt; is_too_long(rt.alloc(), row, most) != Some(true), "{front}");
        let more = is_too_long(rt.alloc(), row, most.saturating_add(1));
        assert!(rt; more != Some(false), "{front}");
    }
}
