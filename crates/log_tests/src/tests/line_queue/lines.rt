//! Lines as they are printed.

use relay_log::ended::{Cause, Ended, Reason};
use relay_log::line::LogLine;
use relay_log::moment::Moment;
use std::alloc::Global;
use std::prelude::HostRuntime;
use std::str;

/// A connection that ended so.
pub(super) fn ended(how: Ended) -> LogLine<'static> {
    LogLine {
        moment: Moment::from_millis(1_795_533_707_123),
        rule: "web",
        client_id: Some(2),
        target_id: Some(3),
        client: "127.0.0.1:40000",
        target: "unix:/run/app.sock",
        up: 24,
        down: 1_000,
        milliseconds: 57,
        ended: how,
    }
}

/// One that was refused.
pub(super) fn refused(client_id: Option<u64>) -> LogLine<'static> {
    LogLine {
        client_id,
        target_id: None,
        up: u64::MAX,
        down: 0,
        milliseconds: 0,
        ..ended(Ended::Full)
    }
}

/// Whether it is such a front and the rest.
pub(super) fn is_text(text: &[u8], front: &str, rest: &str) -> bool {
    match str::from_utf8(text) {
        Ok(text) => text.strip_prefix(front) == Some(rest),
        Err(_) => false,
    }
}

/// Whether these lines are written one behind the other, as such a front and the rest.
fn are_written(alloc: Global, lines: &[LogLine<'static>], front: &str, rest: &str) -> bool {
    let mut text = Vec::new(alloc);
    let mut are_written = true;
    for line in lines {
        are_written = line.write(alloc, &mut text).is_ok() && are_written;
    }
    are_written && is_text(text.as_slice(), front, rest)
}

// What the lines of `ended` begin with.
const FRONT: &str =
    "2026-11-24T15:21:47.123Z web 2 3 127.0.0.1:40000 unix:/run/app.sock 24 1000 57 ";

const ENDS: &[(Ended, &str)] = &[
    (Ended::Eof, "eof\n"),
    (Ended::Idle, "idle\n"),
    (Ended::Closed, "closed\n"),
    (Ended::Drained, "drained\n"),
    (Ended::Read(Reason::Reset), "read reset\n"),
    (Ended::Read(Reason::Aborted), "read aborted\n"),
    (Ended::Write(Reason::BrokenPipe), "write broken-pipe\n"),
    (Ended::Write(Reason::Refused), "write refused\n"),
    (Ended::Write(Reason::Other), "write other\n"),
    (Ended::Denied, "denied\n"),
    (Ended::Full, "full\n"),
    (Ended::RuleFull, "rule full\n"),
    (Ended::SourceFull, "source full\n"),
    (Ended::SourceRate, "source rate\n"),
    (Ended::NoMemory, "no memory\n"),
    (Ended::Descriptors, "descriptors\n"),
    (Ended::NoHeader, "no header\n"),
    (Ended::BadHeader, "bad header\n"),
    (Ended::NoTarget(Cause::Refused), "no target refused\n"),
    (
        Ended::NoTarget(Cause::Unreachable),
        "no target unreachable\n",
    ),
    (Ended::NoTarget(Cause::Timeout), "no target timeout\n"),
    (
        Ended::NoTarget(Cause::Descriptors),
        "no target descriptors\n",
    ),
    (Ended::NoTarget(Cause::Down), "no target down\n"),
    (Ended::Accept(Reason::Other), "accept other\n"),
    (Ended::TargetDown, "target down\n"),
    (Ended::TargetUp, "target up\n"),
];

#[test]
fn each_end_has_its_words(rt: HostRuntime) {
    for (how, want) in ENDS {
        holds!(rt; are_written(rt.alloc(), &[ended(*how)], FRONT, want), want);
    }
}

const REFUSED: &str = "2026-11-24T15:21:47.123Z web - - 127.0.0.1:40000 unix:/run/app.sock \
    18446744073709551615 0 0 full\n\
    2026-11-24T15:21:47.123Z web 18446744073709551615 - 127.0.0.1:40000 unix:/run/app.sock \
    18446744073709551615 0 0 full\n";

#[test]
fn a_refused_connection_has_no_ids_and_lines_stand_in_a_row(rt: HostRuntime) {
    let lines = [refused(None), refused(Some(u64::MAX))];
    holds!(rt; are_written(rt.alloc(), &lines, "", REFUSED));
}
