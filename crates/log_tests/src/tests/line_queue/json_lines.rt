//! Lines as they are printed in JSON. What `json.loads` of Python makes of such lines is tested with
//! the built relay (`tests/system/json_log.py`).

use super::lines::{ended, is_text, refused};
use relay_log::ended::{Cause, Ended, Reason};
use relay_log::line::LogLine;
use std::alloc::Global;
use std::prelude::HostRuntime;

/// Whether a line is written as such a front and the rest.
fn is_written(alloc: Global, line: &LogLine<'_>, front: &str, rest: &str) -> bool {
    let mut text = Vec::new(alloc);
    line.write_json(alloc, &mut text).is_ok() && is_text(text.as_slice(), front, rest)
}

// What the lines of `ended` begin with.
const FRONT: &str =
    "{\"time\":\"2026-11-24T15:21:47.123Z\",\"rule\":\"web\",\"client_id\":2,\"target_id\":3,\
    \"client\":\"127.0.0.1:40000\",\"target\":\"unix:/run/app.sock\",\"up\":24,\"down\":1000,\"ms\":57,\
    \"how\":\"";

const ENDS: &[(Ended, &str)] = &[
    (Ended::Eof, "eof\"}\n"),
    (Ended::Read(Reason::Reset), "read reset\"}\n"),
    (Ended::Write(Reason::BrokenPipe), "write broken-pipe\"}\n"),
    (Ended::NoMemory, "no memory\"}\n"),
    (Ended::NoTarget(Cause::Down), "no target down\"}\n"),
    (Ended::TargetUp, "target up\"}\n"),
];

#[test]
fn a_json_line_has_each_field_by_its_name(rt: HostRuntime) {
    for (how, want) in ENDS {
        holds!(rt; is_written(rt.alloc(), &ended(*how), FRONT, want), want);
    }
}

const REFUSED: &str =
    "{\"time\":\"2026-11-24T15:21:47.123Z\",\"rule\":\"web\",\"client_id\":18446744073709551615,\
    \"target_id\":null,\"client\":\"127.0.0.1:40000\",\"target\":\"unix:/run/app.sock\",\
    \"up\":18446744073709551615,\"down\":0,\"ms\":0,\"how\":\"full\"}\n";

#[test]
fn a_missing_id_is_null_and_numbers_have_all_their_digits(rt: HostRuntime) {
    holds!(rt; is_written(rt.alloc(), &refused(Some(u64::MAX)), "", REFUSED));
}

/// A connection to a target with this text.
fn to_target(target: &str) -> LogLine<'_> {
    LogLine {
        target,
        ..ended(Ended::Eof)
    }
}

const BEFORE: &str =
    "{\"time\":\"2026-11-24T15:21:47.123Z\",\"rule\":\"web\",\"client_id\":2,\"target_id\":3,\
    \"client\":\"127.0.0.1:40000\",\"target\":\"";

/// A text, and what stands in the line from it on.
const TEXTS: &[(&str, &str)] = &[
    (
        "unix:/a\"b\\c",
        "unix:/a\\\"b\\\\c\",\"up\":24,\"down\":1000,\"ms\":57,\"how\":\"eof\"}\n",
    ),
    (
        "\\\\\"",
        "\\\\\\\\\\\"\",\"up\":24,\"down\":1000,\"ms\":57,\"how\":\"eof\"}\n",
    ),
    (
        "\u{0}\t\n\u{f}\u{10}\u{1f} ",
        "\\u0000\\u0009\\u000a\\u000f\\u0010\\u001f \",\"up\":24,\"down\":1000,\"ms\":57,\
        \"how\":\"eof\"}\n",
    ),
    (
        "!#/[]{}~\u{7f}\u{e9}\u{20ac}\u{1f600}",
        "!#/[]{}~\u{7f}\u{e9}\u{20ac}\u{1f600}\",\"up\":24,\"down\":1000,\"ms\":57,\
        \"how\":\"eof\"}\n",
    ),
    (
        "",
        "\",\"up\":24,\"down\":1000,\"ms\":57,\"how\":\"eof\"}\n",
    ),
];

#[test]
fn quotation_marks_backslashes_and_control_characters_alone_are_escaped(rt: HostRuntime) {
    for (text, want) in TEXTS {
        holds!(rt; is_written(rt.alloc(), &to_target(text), BEFORE, want), want);
    }
}
