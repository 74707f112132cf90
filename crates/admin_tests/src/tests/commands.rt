//! Lines and the commands that they spell.

use relay_admin::Command::{
    CloseConn, DeadlineOf, DrainConn, Finish, List, Quit, Reload, SetTarget, Show, ShowAll, Stop,
    Targets, Totals,
};
use relay_admin::{Command, Order};

const LINES: &[(&str, Option<Command>)] = &[
    ("list", Some(List)),
    ("totals", Some(Totals)),
    ("quit", Some(Quit)),
    ("stop", Some(Stop)),
    ("close 1", Some(CloseConn(1))),
    (
        "close 4503599627370494",
        Some(CloseConn(4_503_599_627_370_494)),
    ),
    ("close 4503599627370495", None),
    ("close 0", None),
    ("close 01", None),
    ("close", None),
    ("drain 1", Some(DrainConn(1))),
    (
        "drain 4503599627370494",
        Some(DrainConn(4_503_599_627_370_494)),
    ),
    ("drain 4503599627370495", None),
    ("drain 0", None),
    ("drain 01", None),
    ("drain", None),
    ("drain 1 never", None),
    ("draining 1", None),
    ("deadline 3 0", Some(DeadlineOf(3, Some(0)))),
    ("deadline 3 86400000", Some(DeadlineOf(3, Some(86_400_000)))),
    ("deadline 3 86400001", None),
    ("deadline 3 00", None),
    ("deadline 3 never", Some(DeadlineOf(3, None))),
    ("deadline 3", None),
    ("show 1", Some(Show(1))),
    ("show 4503599627370494", Some(Show(4_503_599_627_370_494))),
    ("show 4503599627370495", None),
    ("show 0", None),
    ("show 01", None),
    ("show", Some(ShowAll)),
    ("show ", None),
    ("show all", None),
    ("show 1 never", None),
    ("shown 1", None),
    ("finish 0", Some(Finish(0))),
    ("finish 86400000", Some(Finish(86_400_000))),
    ("finish 86400001", None),
    ("finish 00", None),
    ("finish never", None),
    ("finish 1 2", None),
    ("finish", None),
    ("reload", Some(Reload)),
    ("reload 1", None),
    ("reload ", None),
    ("targets", Some(Targets)),
    ("targets web", None),
    ("targets ", None),
    ("target", None),
    ("target ", None),
    ("target web", None),
    ("target web 1", None),
    ("target web 1 ", None),
    ("target web 1 sideways", None),
    ("target web 1 Down", None),
    ("target web 1 down ", None),
    ("target web 1 down now", None),
    ("target  1 down", None),
    ("target web  down", None),
    ("target Web 1 down", None),
    ("target 1web 1 down", None),
    ("target abcdefghijklmnopq 1 down", None),
    ("target web a\u{0}b down", None),
    ("target web a\tb down", None),
    ("target we\u{0}b 1 down", None),
    ("finish web 1 down", None),
    ("deadline web 1 down", None),
    ("", None),
    ("frob", None),
    ("quit ", None),
    ("list\r", None),
    ("LIST", None),
];

#[test]
fn lines_spell_their_commands(rt: HostRuntime) {
    for (line, want) in LINES {
        assert!(rt; Command::parse(line.as_bytes()) == *want, "{line}");
    }
}

/// Lines, and the rule, the target and what is set of it that they say.
const TARGETS: &[(&str, &str, &str, Order)] = &[
    ("target web 1 auto", "web", "1", Order::Auto),
    ("target web 01 up", "web", "01", Order::Up),
    (
        "target a-0 tcp:[2001:db8::7%2]:443 drain",
        "a-0",
        "tcp:[2001:db8::7%2]:443",
        Order::Drain,
    ),
    (
        "target abcdefghijklmnop unix:/abcdefghijklmnopqrstuvwxyzabc down",
        "abcdefghijklmnop",
        "unix:/abcdefghijklmnopqrstuvwxyzabc",
        Order::Down,
    ),
    (
        "target r unix:/abcdefghijklmnopqrstuvwxyzabcdefghijklmnopqrst up",
        "r",
        "unix:/abcdefghijklmnopqrstuvwxyzabcdefghijklmnopqrst",
        Order::Up,
    ),
];

#[test]
fn a_target_is_named_by_the_words_of_its_line(rt: HostRuntime) {
    for (line, rule, target, order) in TARGETS {
        let is_said = match Command::parse(line.as_bytes()) {
            Some(SetTarget(said)) => {
                said.rule() == rule.as_bytes()
                    && said.target() == target.as_bytes()
                    && said.order == *order
            }
            _ => false,
        };
        assert!(rt; is_said, "{line}");
    }
}
