//! Whole rules files and their verdicts.

use arrayvec::ArrayString;
use relay_admin::RulesFault::{BadLine, SameListen, SameName, TooLong, TooMany};
use relay_admin::{Addr, Rule, Rules, RulesFault};
use std::alloc::{AllocError, Global};
use std::test::Fail;

/// How many rules a text has, or its first fault.
fn verdict(text: &[u8]) -> Result<usize, RulesFault> {
    match Rules::parse(text) {
        Ok(rules) => Ok(rules.as_slice().len()),
        Err(fault) => Err(fault),
    }
}

const WEB: &str = "relay web tcp:127.0.0.1:8080 unix:/tmp/a.sock 5000\n";

const WEB_TWICE: &str = "relay web tcp:127.0.0.1:8080 unix:/tmp/a.sock 5000\n\
    relay web tcp:127.0.0.1:8080 unix:/tmp/a.sock 5000\n";

// examples/rules/web.rules
const WEB_FILE: &str = "# Two web servers behind the relay.
# Check this file: pollrelay check --rules examples/rules/web.rules
# It prints: rules 2

# A TCP port before a server on a Unix socket; a connection that is idle for 5 seconds is closed.
relay web tcp:127.0.0.1:8080 unix:/tmp/a.sock 5000

# A port of every interface before another machine; an idle connection stays.
relay backup tcp:0.0.0.0:8081 tcp:192.0.2.7:80 never
";

// examples/rules/same_listen.rules
const SAME_LISTEN_FILE: &str =
    "# Two rules that listen on one address: the first fault is in line 5.
# Check this file: pollrelay check --rules examples/rules/same_listen.rules
# It prints: bad rules: same listen address at line 5
relay mail unix:/tmp/mail.sock tcp:192.0.2.7:25 86400000
relay news unix:/tmp/mail.sock tcp:192.0.2.7:119 never
";

// examples/rules/empty.rules
const EMPTY_FILE: &str =
    "# No rule at all is allowed: the relay then listens on its admin socket alone.
# Check this file: pollrelay check --rules examples/rules/empty.rules
# It prints: rules 0
";

const FILES: &[(&str, Result<usize, RulesFault>)] = &[
    ("", Ok(0)),
    (
        "# x\nrelay a tcp:0.0.0.0:1 tcp:255.255.255.255:65535 never",
        Ok(1),
    ),
    (
        "relay a tcp:0.0.0.0:01 tcp:1.1.1.1:1 never\n",
        Err(BadLine(1)),
    ),
    (
        "relay a unix:/x unix:/y never\nrelay b unix:/x unix:/z 1\n",
        Err(SameListen(2)),
    ),
    ("relay a unix:/x unix:/y 86400001\n", Err(BadLine(1))),
    ("relay a unix:/x unix:/y 86400000\n", Ok(1)),
    ("relay a unix:/x unix:/y 0\n", Err(BadLine(1))),
    (WEB, Ok(1)),
    (WEB_TWICE, Err(SameName(2))),
    (WEB_FILE, Ok(2)),
    (SAME_LISTEN_FILE, Err(SameListen(5))),
    (EMPTY_FILE, Ok(0)),
    ("\n\nrelay 9 unix:/x unix:/y never\n", Err(BadLine(3))),
    ("relay a-9 unix:/x unix:/x never\r\n", Err(BadLine(1))),
    ("relay abcdefghijklmnop unix:/x unix:/x never", Ok(1)),
    (
        "relay abcdefghijklmnopq unix:/x unix:/x never",
        Err(BadLine(1)),
    ),
    ("relay a tcp:1.2.3.256:1 unix:/x never", Err(BadLine(1))),
    ("relay a tcp:1.2.3.4:0 unix:/x never", Err(BadLine(1))),
    ("relay a tcp:1.2.3.4:65536 unix:/x never", Err(BadLine(1))),
    ("relay a unix:x unix:/x never", Err(BadLine(1))),
    ("relay  a unix:/x unix:/x never", Err(BadLine(1))),
    ("relay a unix:/x unix:/x never ", Err(BadLine(1))),
];

#[test]
fn files_have_their_verdicts(rt: HostRuntime) {
    for (text, want) in FILES {
        assert!(rt; verdict(text.as_bytes()) == *want, "{text}");
    }
}

/// The only rule of a text.
fn only_rule(text: &[u8]) -> Option<Rule> {
    let rules = Rules::parse(text).ok()?;
    match rules.as_slice() {
        [rule] => Some(*rule),
        _ => None,
    }
}

#[test]
fn a_rule_holds_what_its_line_says(rt: HostRuntime) -> Result<(), Fail> {
    let rule = only_rule(WEB.as_bytes()).ok_or("one rule")?;
    let path = ArrayString::from("/tmp/a.sock").ok().ok_or("too long")?;
    assert!(rt; rule.name.as_str() == "web", "the name");
    assert!(rt;
        rule.listen == Addr::Tcp([127, 0, 0, 1], 8080),
        "where it listens"
    );
    assert!(rt; rule.target == Addr::Unix(path), "where it leads");
    assert!(rt; rule.idle_ms == Some(5000), "the idle time");
    Ok(())
}

#[test]
fn a_file_may_have_65536_bytes(rt: HostRuntime) -> Result<(), Fail> {
    let mut text = vec![in rt.alloc(); b'#'; 65_536]?;
    assert!(rt; verdict(text.as_slice()) == Ok(0), "65,536 bytes");
    text.push(b'#')?;
    assert!(rt; verdict(text.as_slice()) == Err(TooLong), "a byte more");
    Ok(())
}

/// As many rules as a file may have.
fn full_file(alloc: Global) -> Result<Vec<u8>, AllocError> {
    let mut text = Vec::new(alloc);
    for i in 0..64u32 {
        let line = format!(in alloc; "relay r{i} unix:/r{i} unix:/target never\n")?;
        text.extend_from_slice(line.as_bytes())?;
    }
    Ok(text)
}

#[test]
fn the_65th_rule_is_too_many_before_it_has_a_known_name(rt: HostRuntime) -> Result<(), Fail> {
    let mut text = full_file(rt.alloc())?;
    assert!(rt; verdict(text.as_slice()) == Ok(64), "64 rules");
    text.extend_from_slice(b"relay r0 unix:/r0 unix:/target never\n")?;
    assert!(rt; verdict(text.as_slice()) == Err(TooMany(65)), "a rule more");
    Ok(())
}

const PATHS: &[(u32, Result<usize, RulesFault>)] = &[(100, Ok(1)), (101, Err(BadLine(1)))];

/// A rule that listens on a path of so many bytes.
fn rule_on(alloc: Global, bytes: u32) -> Result<Vec<u8>, AllocError> {
    let mut text = Vec::new(alloc);
    text.extend_from_slice(b"relay a unix:")?;
    for _ in 0..bytes {
        text.push(b'/')?;
    }
    text.extend_from_slice(b" unix:/target never")?;
    Ok(text)
}

#[test]
fn a_path_may_have_100_bytes(rt: HostRuntime) -> Result<(), Fail> {
    for (bytes, want) in PATHS {
        let text = rule_on(rt.alloc(), *bytes)?;
        assert!(rt; verdict(text.as_slice()) == *want, "{bytes} bytes");
    }
    Ok(())
}
