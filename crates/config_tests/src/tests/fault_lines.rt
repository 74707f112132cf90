//! What is said of texts that are no configurations.

use relay_config::{Config, Fault, Key, Place, Spot, Wrong, fault_line};
use std::alloc::Global;

const ROWS: &[(&str, &str)] = &[
    (
        "connections = \n",
        "bad config: line 1, column 15: no TOML: invalid value, expected a string, number, boolean, date-time, \
        array or inline table",
    ),
    (
        "conections = 5\n",
        "bad config: unknown key \"conections\"; \"connections\" is meant?",
    ),
    ("zone = 1\n", "bad config: unknown key \"zone\""),
    (
        "connections = 0\n",
        "bad config: connections: 0 is not from 1 to 50000",
    ),
    (
        "connections = \"5\"\n",
        "bad config: connections: \"5\" is not a whole number",
    ),
    (
        "connect_timeout = 5\n",
        "bad config: connect_timeout: 5 is not a text in quotes",
    ),
    (
        "connections_per_rule = 0\n",
        "bad config: connections_per_rule: 0 is not from 1 to 50000",
    ),
    ("loops = 65\n", "bad config: loops: 65 is not from 1 to 64"),
    (
        "loops = \"2\"\n",
        "bad config: loops: \"2\" is not a whole number",
    ),
    (
        "loop = 2\n",
        "bad config: unknown key \"loop\"; \"loops\" is meant?",
    ),
    (
        "replace_stale = \"yes\"\n",
        "bad config: replace_stale: \"yes\" is not true or false",
    ),
    (
        "metrics = \"tcp:localhost:9464\"\n",
        "bad config: metrics: \"tcp:localhost:9464\" is no address to listen at (as tcp:0.0.0.0:443, tcp:[::]:443, \
        unix:/run/x.sock)",
    ),
    (
        "admin = \"\"\n",
        "bad config: admin: \"\" is no path of a socket (1 to 100 bytes)",
    ),
    (
        "admin = 1\n",
        "bad config: admin: 1 is not a path in quotes or a table ({ path = .., mode = .. })",
    ),
    (
        "[admin]\nmode = \"0660\"\n",
        "bad config: admin: path is missing",
    ),
    (
        "admin = { path = \"a\", mode = \"660\" }\n",
        "bad config: admin: mode: \"660\" is no mode (0 and three octal digits, as 0660)",
    ),
    (
        "log = { fiel = \"a\" }\n",
        "bad config: log: unknown key \"fiel\"; \"file\" is meant?",
    ),
    (
        "log = { file = \"a\", format = \"xml\" }\n",
        "bad config: log: format: \"xml\" is none of \"text\", \"json\"",
    ),
    (
        "[rule]\n",
        "bad config: rule: a table is not a list of tables ([[rule]])",
    ),
    ("rule = [1]\n", "bad config: rule 1: 1 is not a table"),
    ("[[rule]]\n", "bad config: rule 1: name is missing"),
    (
        "[[rule]]\nname = \"web\"\nidle = \"30x\"\n",
        "bad config: rule \"web\": idle: \"30x\" is no time (as 500ms, 30s, 5m, 2h, at most a day; or never)",
    ),
    (
        "[[rule]]\nname = \"web\"\nconnections_per_source = 50001\n",
        "bad config: rule \"web\": connections_per_source: 50001 is not from 1 to 50000",
    ),
    (
        "[[rule]]\nname = \"web\"\naccepts_per_source = \"100/d\"\n",
        "bad config: rule \"web\": accepts_per_source: \"100/d\" is no rate (as 100/s, 30/m, 5/h; at most 1000000)",
    ),
    (
        "[[rule]]\nname = \"web\"\naccepts_per_source = 100\n",
        "bad config: rule \"web\": accepts_per_source: 100 is not a text in quotes",
    ),
    (
        "[[rule]]\nname = \"web\"\nkeepalive = \"500ms\"\n",
        "bad config: rule \"web\": keepalive: \"500ms\" is no time of whole seconds (as 30s, 5m, at most 32767s; or \
        never)",
    ),
    (
        "[[rule]]\nname = \"web\"\nuser_timeout = \"30\"\n",
        "bad config: rule \"web\": user_timeout: \"30\" is no time (as 500ms, 30s, 5m, 2h, at most a day; or never)",
    ),
    (
        "[[rule]]\nname = \"web\"\nallow = [\"10.0.0.0/8\", \"10.0.0.0/33\"]\n",
        "bad config: rule \"web\": allow 2: \"10.0.0.0/33\" is no network (as 10.0.0.0/8, 2001:db8::/32, 10.0.0.1)",
    ),
    (
        "[[rule]]\nname = \"web\"\ndeny = []\n",
        "bad config: rule \"web\": deny: the list is empty",
    ),
    (
        "[[rule]]\nname = \"web\"\ndeny = \"10.0.0.0/8\"\n",
        "bad config: rule \"web\": deny: \"10.0.0.0/8\" is not a list of texts",
    ),
    (
        "[[rule]]\nname = \"web\"\nsource = \"localhost\"\n",
        "bad config: rule \"web\": source: \"localhost\" is no IP address (as 10.0.0.1, 2001:db8::1)",
    ),
    (
        "[[rule]]\nname = \"web\"\nbacklog = 0\n",
        "bad config: rule \"web\": backlog: 0 is not from 1 to 65535",
    ),
    (
        "[[rule]]\nname = \"web\"\nmode = \"660\"\n",
        "bad config: rule \"web\": mode: \"660\" is no mode (0 and three octal digits, as 0660)",
    ),
    (
        "[[rule]]\nname = \"web\"\nmode = 432\n",
        "bad config: rule \"web\": mode: 432 is not a text in quotes",
    ),
    (
        "[[rule]]\nname = \"web\"\nmod = \"0660\"\n",
        "bad config: rule \"web\": unknown key \"mod\"; \"mode\" is meant?",
    ),
    (
        "[[rule]]\nname = \"web\"\nhealth = \"2s\"\n",
        "bad config: rule \"web\": health: \"2s\" is not a table ({ every = .., timeout = .., fall = .., rise = .. })",
    ),
    (
        "[[rule]]\nname = \"web\"\nhealth = { every = \"never\" }\n",
        "bad config: rule \"web\": health: every: \"never\" is no time (as 500ms, 30s, 5m, 2h, at most a day)",
    ),
    (
        "[[rule]]\nname = \"web\"\nhealth = { rise = 101 }\n",
        "bad config: rule \"web\": health: rise: 101 is not from 1 to 100",
    ),
    (
        "[[rule]]\nname = \"web\"\nhealth = { evry = \"2s\" }\n",
        "bad config: rule \"web\": health: unknown key \"evry\"; \"every\" is meant?",
    ),
    (
        "[[rule]]\nname = \"web\"\nproxy_protocol = { from_client = [\"10.0.0.1\", \"a\"] }\n",
        "bad config: rule \"web\": proxy_protocol: from_client 2: \"a\" is no network (as 10.0.0.0/8, \
        2001:db8::/32, 10.0.0.1)",
    ),
    (
        "[[rule]]\nname = \"web\"\nproxy_protocol = { to_target = \"v3\" }\n",
        "bad config: rule \"web\": proxy_protocol: to_target: \"v3\" is none of \"v1\", \"v2\"",
    ),
    (
        "[[rule]]\nname = \"web\"\nidel = \"30s\"\n",
        "bad config: rule \"web\": unknown key \"idel\"; \"idle\" is meant?",
    ),
    (
        "[[rule]]\nname = \"Web\"\n",
        "bad config: rule \"Web\": name: \"Web\" is no name (a letter, then letters, digits and \"-\", all \
        small, at most 16)",
    ),
    (
        "[[rule]]\nname = \"web\"\nbalance = \"random\"\n",
        "bad config: rule \"web\": balance: \"random\" is none of \"round-robin\", \"least-connections\", \
        \"first\", \"source\"",
    ),
    (
        "[[rule]]\nname = \"web\"\n",
        "bad config: rule \"web\": listen is missing",
    ),
    (
        "[[rule]]\nname = \"web\"\nlisten = \"tcp:0.0.0.0:1\"\n",
        "bad config: rule \"web\": listen: \"tcp:0.0.0.0:1\" is not a list of texts",
    ),
    (
        "[[rule]]\nname = \"web\"\nlisten = []\n",
        "bad config: rule \"web\": listen: the list is empty",
    ),
    (
        "[[rule]]\nname = \"web\"\nlisten = [\"tcp:app:80\"]\n",
        "bad config: rule \"web\": listen 1: \"tcp:app:80\" is no address to listen at (as \
        tcp:0.0.0.0:443, tcp:[::]:443, unix:/run/x.sock)",
    ),
    (
        "[[rule]]\nname = \"web\"\nlisten = [\"unix:/a\", \"unix:/a\"]\n",
        "bad config: rule \"web\": listen 2: \"unix:/a\" is listened at already",
    ),
    (
        "[[rule]]\nname = \"web\"\nlisten = [\"unix:/a\"]\ntarget = [{ at = \"b:80\" }]\n",
        "bad config: rule \"web\": target 1: at: \"b:80\" is no address (as tcp:10.0.0.1:443, tcp:[::1]:443, \
        unix:/run/x.sock)",
    ),
    (
        "[[rule]]\nname = \"web\"\nlisten = [\"unix:/a\"]\ntarget = [{ at = \"unix:/b\", wieght = 2 }]\n",
        "bad config: rule \"web\": target 1: unknown key \"wieght\"; \"weight\" is meant?",
    ),
    (
        "[[rule]]\nname = \"web\"\nlisten = [\"unix:/a\"]\ntarget = [{ at = \"unix:/b\", backup = 1 }]\n",
        "bad config: rule \"web\": target 1: backup: 1 is not true or false",
    ),
    (
        "[[rule]]\nname = \"web\"\nlisten = [\"unix:/a\"]\ntarget = [{ at = \"unix:/b\" }]\n[[rule]]\nname = \"web\"\n",
        "bad config: rule \"web\": name: \"web\" is the name of a rule before it",
    ),
    (
        "log = { file = \"-\", format = \"a\\nb\\u001b\\\"\" }\n",
        "bad config: log: format: \"a\\nb\\u{1b}\\\"\" is none of \"text\", \"json\"",
    ),
    ("\"a\\nb\" = 1\n", "bad config: unknown key \"a\\nb\""),
];

/// Whether this fault of a text has this line, or memory was refused.
fn is_line(alloc: Global, text: &str, fault: Fault, want: &str) -> bool {
    match fault_line(alloc, text.as_bytes(), fault) {
        Ok(line) => line.as_str() == want,
        Err(_) => true,
    }
}

/// The same of the fault that the text has.
fn says(alloc: Global, text: &str, want: &str) -> bool {
    match Config::parse(alloc, text.as_bytes()) {
        Ok(_) => false,
        Err(fault) => fault == Fault::Memory || is_line(alloc, text, fault, want),
    }
}

#[test]
fn a_fault_names_the_rule_the_key_the_value_and_what_is_wanted(rt: HostRuntime) {
    for (text, want) in ROWS {
        assert!(rt; says(rt.alloc(), text, want), "{want}");
    }
}

#[test]
fn a_key_that_the_reader_doesnt_carry_out_is_named_like_others(rt: HostRuntime) {
    let text =
        "[[rule]]\nname = \"web\"\nbacklog = 5\nlisten = [\"unix:/a\"]\ntarget = [{ at = \"unix:/b\" }]\n";
    let fault = Fault::At(Spot::of(Place::Rule(0), Key::Backlog), Wrong::Unserved);
    let want = "bad config: rule \"web\": backlog: this version doesn't serve it";
    assert!(rt; is_line(rt.alloc(), text, fault, want), "{want}");
}
