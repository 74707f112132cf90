//! The text of a snapshot, line by line, as the text format of Prometheus has it.

use super::meter::made;
use relay_metrics::Figures;
use std::alloc::Global;

/// The text of the made snapshot.
pub(super) const MADE: &str = "\
# HELP pollrelay_up_seconds Seconds since the relay began.\n\
# TYPE pollrelay_up_seconds gauge\n\
pollrelay_up_seconds 83.045\n\
# HELP pollrelay_loops Event loops.\n\
# TYPE pollrelay_loops gauge\n\
pollrelay_loops 2\n\
# HELP pollrelay_turns_total Turns of each event loop.\n\
# TYPE pollrelay_turns_total counter\n\
pollrelay_turns_total{loop=\"0\"} 1000\n\
pollrelay_turns_total{loop=\"1\"} 7\n\
# HELP pollrelay_connections_limit The most connections that may stand at once.\n\
# TYPE pollrelay_connections_limit gauge\n\
pollrelay_connections_limit 512\n\
# HELP pollrelay_admin_sessions_total Admin sessions that began.\n\
# TYPE pollrelay_admin_sessions_total counter\n\
pollrelay_admin_sessions_total 2\n\
# HELP pollrelay_admin_dropped_sessions_total Admin sessions that gave way to another, or for which there was no memory.\n\
# TYPE pollrelay_admin_dropped_sessions_total counter\n\
pollrelay_admin_dropped_sessions_total 1\n\
# HELP pollrelay_reloads_total Times that the rules were put in force anew.\n\
# TYPE pollrelay_reloads_total counter\n\
pollrelay_reloads_total 3\n\
# HELP pollrelay_bytes_total Bytes written to targets (up) and to clients (down).\n\
# TYPE pollrelay_bytes_total counter\n\
pollrelay_bytes_total{way=\"up\"} 202\n\
pollrelay_bytes_total{way=\"down\"} 303\n\
# HELP pollrelay_log_lines_total Lines that went to the log.\n\
# TYPE pollrelay_log_lines_total counter\n\
pollrelay_log_lines_total 40\n\
# HELP pollrelay_log_lost_lines_total Lines that found no room on their way to the log.\n\
# TYPE pollrelay_log_lost_lines_total counter\n\
pollrelay_log_lost_lines_total 4\n\
# HELP pollrelay_rule_connections Connections that stand now.\n\
# TYPE pollrelay_rule_connections gauge\n\
pollrelay_rule_connections{rule=\"web\"} 3\n\
pollrelay_rule_connections{rule=\"db-0123456789abc\"} 0\n\
# HELP pollrelay_rule_accepted_total Connections that were accepted.\n\
# TYPE pollrelay_rule_accepted_total counter\n\
pollrelay_rule_accepted_total{rule=\"web\"} 167\n\
pollrelay_rule_accepted_total{rule=\"db-0123456789abc\"} 0\n\
# HELP pollrelay_rule_bytes_total Bytes written to the target (up) and to clients (down).\n\
# TYPE pollrelay_rule_bytes_total counter\n\
pollrelay_rule_bytes_total{rule=\"web\",way=\"up\"} 101\n\
pollrelay_rule_bytes_total{rule=\"web\",way=\"down\"} 18446744073709551615\n\
pollrelay_rule_bytes_total{rule=\"db-0123456789abc\",way=\"up\"} 0\n\
pollrelay_rule_bytes_total{rule=\"db-0123456789abc\",way=\"down\"} 0\n\
# HELP pollrelay_rule_refused_total Connections that were refused as they came, by cause.\n\
# TYPE pollrelay_rule_refused_total counter\n\
pollrelay_rule_refused_total{rule=\"web\",cause=\"denied\"} 4\n\
pollrelay_rule_refused_total{rule=\"web\",cause=\"full\"} 5\n\
pollrelay_rule_refused_total{rule=\"web\",cause=\"no_target\"} 6\n\
pollrelay_rule_refused_total{rule=\"web\",cause=\"rule_full\"} 7\n\
pollrelay_rule_refused_total{rule=\"web\",cause=\"no_memory\"} 8\n\
pollrelay_rule_refused_total{rule=\"web\",cause=\"descriptors\"} 9\n\
pollrelay_rule_refused_total{rule=\"web\",cause=\"no_header\"} 10\n\
pollrelay_rule_refused_total{rule=\"web\",cause=\"bad_header\"} 11\n\
pollrelay_rule_refused_total{rule=\"web\",cause=\"source_full\"} 12\n\
pollrelay_rule_refused_total{rule=\"web\",cause=\"source_rate\"} 13\n\
pollrelay_rule_refused_total{rule=\"db-0123456789abc\",cause=\"denied\"} 0\n\
pollrelay_rule_refused_total{rule=\"db-0123456789abc\",cause=\"full\"} 0\n\
pollrelay_rule_refused_total{rule=\"db-0123456789abc\",cause=\"no_target\"} 0\n\
pollrelay_rule_refused_total{rule=\"db-0123456789abc\",cause=\"rule_full\"} 0\n\
pollrelay_rule_refused_total{rule=\"db-0123456789abc\",cause=\"no_memory\"} 0\n\
pollrelay_rule_refused_total{rule=\"db-0123456789abc\",cause=\"descriptors\"} 0\n\
pollrelay_rule_refused_total{rule=\"db-0123456789abc\",cause=\"no_header\"} 0\n\
pollrelay_rule_refused_total{rule=\"db-0123456789abc\",cause=\"bad_header\"} 0\n\
pollrelay_rule_refused_total{rule=\"db-0123456789abc\",cause=\"source_full\"} 0\n\
pollrelay_rule_refused_total{rule=\"db-0123456789abc\",cause=\"source_rate\"} 0\n\
# HELP pollrelay_rule_ends_total Connections that ended, by cause.\n\
# TYPE pollrelay_rule_ends_total counter\n\
pollrelay_rule_ends_total{rule=\"web\",cause=\"eof\"} 20\n\
pollrelay_rule_ends_total{rule=\"web\",cause=\"idle\"} 21\n\
pollrelay_rule_ends_total{rule=\"web\",cause=\"closed\"} 22\n\
pollrelay_rule_ends_total{rule=\"web\",cause=\"drained\"} 23\n\
pollrelay_rule_ends_total{rule=\"web\",cause=\"read\"} 24\n\
pollrelay_rule_ends_total{rule=\"web\",cause=\"write\"} 25\n\
pollrelay_rule_ends_total{rule=\"web\",cause=\"no_target\"} 26\n\
pollrelay_rule_ends_total{rule=\"db-0123456789abc\",cause=\"eof\"} 0\n\
pollrelay_rule_ends_total{rule=\"db-0123456789abc\",cause=\"idle\"} 0\n\
pollrelay_rule_ends_total{rule=\"db-0123456789abc\",cause=\"closed\"} 0\n\
pollrelay_rule_ends_total{rule=\"db-0123456789abc\",cause=\"drained\"} 0\n\
pollrelay_rule_ends_total{rule=\"db-0123456789abc\",cause=\"read\"} 0\n\
pollrelay_rule_ends_total{rule=\"db-0123456789abc\",cause=\"write\"} 0\n\
pollrelay_rule_ends_total{rule=\"db-0123456789abc\",cause=\"no_target\"} 0\n\
# HELP pollrelay_rule_no_target_total Clients whose target wasn't reached, by cause.\n\
# TYPE pollrelay_rule_no_target_total counter\n\
pollrelay_rule_no_target_total{rule=\"web\",cause=\"refused\"} 30\n\
pollrelay_rule_no_target_total{rule=\"web\",cause=\"unreachable\"} 31\n\
pollrelay_rule_no_target_total{rule=\"web\",cause=\"timeout\"} 32\n\
pollrelay_rule_no_target_total{rule=\"web\",cause=\"descriptors\"} 33\n\
pollrelay_rule_no_target_total{rule=\"web\",cause=\"down\"} 35\n\
pollrelay_rule_no_target_total{rule=\"db-0123456789abc\",cause=\"refused\"} 0\n\
pollrelay_rule_no_target_total{rule=\"db-0123456789abc\",cause=\"unreachable\"} 0\n\
pollrelay_rule_no_target_total{rule=\"db-0123456789abc\",cause=\"timeout\"} 0\n\
pollrelay_rule_no_target_total{rule=\"db-0123456789abc\",cause=\"descriptors\"} 0\n\
pollrelay_rule_no_target_total{rule=\"db-0123456789abc\",cause=\"down\"} 0\n\
# HELP pollrelay_rule_accept_faults_total Rows of accepts that failed.\n\
# TYPE pollrelay_rule_accept_faults_total counter\n\
pollrelay_rule_accept_faults_total{rule=\"web\"} 34\n\
pollrelay_rule_accept_faults_total{rule=\"db-0123456789abc\"} 0\n\
# HELP pollrelay_rule_listening Whether clients are accepted: 1, or 0.\n\
# TYPE pollrelay_rule_listening gauge\n\
pollrelay_rule_listening{rule=\"web\"} 1\n\
pollrelay_rule_listening{rule=\"db-0123456789abc\"} 0\n\
# HELP pollrelay_connect_seconds Seconds that clients' connects to targets took, where they were made.\n\
# TYPE pollrelay_connect_seconds histogram\n\
pollrelay_connect_seconds_bucket{rule=\"web\",le=\"0.001\"} 1\n\
pollrelay_connect_seconds_bucket{rule=\"web\",le=\"0.002\"} 3\n\
pollrelay_connect_seconds_bucket{rule=\"web\",le=\"0.005\"} 6\n\
pollrelay_connect_seconds_bucket{rule=\"web\",le=\"0.01\"} 10\n\
pollrelay_connect_seconds_bucket{rule=\"web\",le=\"0.02\"} 15\n\
pollrelay_connect_seconds_bucket{rule=\"web\",le=\"0.05\"} 21\n\
pollrelay_connect_seconds_bucket{rule=\"web\",le=\"0.1\"} 28\n\
pollrelay_connect_seconds_bucket{rule=\"web\",le=\"0.2\"} 36\n\
pollrelay_connect_seconds_bucket{rule=\"web\",le=\"0.5\"} 45\n\
pollrelay_connect_seconds_bucket{rule=\"web\",le=\"1\"} 55\n\
pollrelay_connect_seconds_bucket{rule=\"web\",le=\"2\"} 66\n\
pollrelay_connect_seconds_bucket{rule=\"web\",le=\"5\"} 78\n\
pollrelay_connect_seconds_bucket{rule=\"web\",le=\"+Inf\"} 91\n\
pollrelay_connect_seconds_sum{rule=\"web\"} 4.000205\n\
pollrelay_connect_seconds_count{rule=\"web\"} 91\n\
pollrelay_connect_seconds_bucket{rule=\"db-0123456789abc\",le=\"0.001\"} 0\n\
pollrelay_connect_seconds_bucket{rule=\"db-0123456789abc\",le=\"0.002\"} 0\n\
pollrelay_connect_seconds_bucket{rule=\"db-0123456789abc\",le=\"0.005\"} 0\n\
pollrelay_connect_seconds_bucket{rule=\"db-0123456789abc\",le=\"0.01\"} 0\n\
pollrelay_connect_seconds_bucket{rule=\"db-0123456789abc\",le=\"0.02\"} 0\n\
pollrelay_connect_seconds_bucket{rule=\"db-0123456789abc\",le=\"0.05\"} 0\n\
pollrelay_connect_seconds_bucket{rule=\"db-0123456789abc\",le=\"0.1\"} 0\n\
pollrelay_connect_seconds_bucket{rule=\"db-0123456789abc\",le=\"0.2\"} 0\n\
pollrelay_connect_seconds_bucket{rule=\"db-0123456789abc\",le=\"0.5\"} 0\n\
pollrelay_connect_seconds_bucket{rule=\"db-0123456789abc\",le=\"1\"} 0\n\
pollrelay_connect_seconds_bucket{rule=\"db-0123456789abc\",le=\"2\"} 0\n\
pollrelay_connect_seconds_bucket{rule=\"db-0123456789abc\",le=\"5\"} 0\n\
pollrelay_connect_seconds_bucket{rule=\"db-0123456789abc\",le=\"+Inf\"} 0\n\
pollrelay_connect_seconds_sum{rule=\"db-0123456789abc\"} 0.000000\n\
pollrelay_connect_seconds_count{rule=\"db-0123456789abc\"} 0\n\
# HELP pollrelay_connection_seconds Seconds that connections stood, from their accept to their end.\n\
# TYPE pollrelay_connection_seconds histogram\n\
pollrelay_connection_seconds_bucket{rule=\"web\",le=\"0.1\"} 0\n\
pollrelay_connection_seconds_bucket{rule=\"web\",le=\"1\"} 0\n\
pollrelay_connection_seconds_bucket{rule=\"web\",le=\"10\"} 0\n\
pollrelay_connection_seconds_bucket{rule=\"web\",le=\"60\"} 14\n\
pollrelay_connection_seconds_bucket{rule=\"web\",le=\"600\"} 18446744073709551615\n\
pollrelay_connection_seconds_bucket{rule=\"web\",le=\"3600\"} 18446744073709551615\n\
pollrelay_connection_seconds_bucket{rule=\"web\",le=\"36000\"} 18446744073709551615\n\
pollrelay_connection_seconds_bucket{rule=\"web\",le=\"86400\"} 18446744073709551615\n\
pollrelay_connection_seconds_bucket{rule=\"web\",le=\"+Inf\"} 18446744073709551615\n\
pollrelay_connection_seconds_sum{rule=\"web\"} 18446744073709.551615\n\
pollrelay_connection_seconds_count{rule=\"web\"} 18446744073709551615\n\
pollrelay_connection_seconds_bucket{rule=\"db-0123456789abc\",le=\"0.1\"} 0\n\
pollrelay_connection_seconds_bucket{rule=\"db-0123456789abc\",le=\"1\"} 0\n\
pollrelay_connection_seconds_bucket{rule=\"db-0123456789abc\",le=\"10\"} 0\n\
pollrelay_connection_seconds_bucket{rule=\"db-0123456789abc\",le=\"60\"} 0\n\
pollrelay_connection_seconds_bucket{rule=\"db-0123456789abc\",le=\"600\"} 0\n\
pollrelay_connection_seconds_bucket{rule=\"db-0123456789abc\",le=\"3600\"} 0\n\
pollrelay_connection_seconds_bucket{rule=\"db-0123456789abc\",le=\"36000\"} 0\n\
pollrelay_connection_seconds_bucket{rule=\"db-0123456789abc\",le=\"86400\"} 0\n\
pollrelay_connection_seconds_bucket{rule=\"db-0123456789abc\",le=\"+Inf\"} 0\n\
pollrelay_connection_seconds_sum{rule=\"db-0123456789abc\"} 0.000000\n\
pollrelay_connection_seconds_count{rule=\"db-0123456789abc\"} 0\n\
# HELP pollrelay_target_up Whether a checked target is up: 1, or 0.\n\
# TYPE pollrelay_target_up gauge\n\
pollrelay_target_up{rule=\"web\",target=\"tcp:127.0.0.1:80\"} 1\n\
pollrelay_target_up{rule=\"web\",target=\"unix:/run/a\\\"b\\\\c\"} 0\n\
# HELP pollrelay_target_connections Connections that stand at a target now.\n\
# TYPE pollrelay_target_connections gauge\n\
pollrelay_target_connections{rule=\"web\",target=\"tcp:127.0.0.1:80\"} 41\n\
pollrelay_target_connections{rule=\"web\",target=\"unix:/run/a\\\"b\\\\c\"} 41\n\
pollrelay_target_connections{rule=\"web\",target=\"tcp:127.0.0.1:81\"} 41\n\
# HELP pollrelay_target_connects_total Clients' connects to a target that were made.\n\
# TYPE pollrelay_target_connects_total counter\n\
pollrelay_target_connects_total{rule=\"web\",target=\"tcp:127.0.0.1:80\"} 42\n\
pollrelay_target_connects_total{rule=\"web\",target=\"unix:/run/a\\\"b\\\\c\"} 42\n\
pollrelay_target_connects_total{rule=\"web\",target=\"tcp:127.0.0.1:81\"} 42\n\
# HELP pollrelay_target_connect_failures_total Clients' connects to a target that failed.\n\
# TYPE pollrelay_target_connect_failures_total counter\n\
pollrelay_target_connect_failures_total{rule=\"web\",target=\"tcp:127.0.0.1:80\"} 43\n\
pollrelay_target_connect_failures_total{rule=\"web\",target=\"unix:/run/a\\\"b\\\\c\"} 43\n\
pollrelay_target_connect_failures_total{rule=\"web\",target=\"tcp:127.0.0.1:81\"} 43\n";

/// What stands in the text of a snapshot without a loop and without a rule: lines that say what the
/// figures are, and those figures that have neither loop nor rule.
const NOTHING_YET: [&str; 10] = [
    "pollrelay_up_seconds 0.000",
    "pollrelay_loops 0",
    "pollrelay_connections_limit 0",
    "pollrelay_admin_sessions_total 0",
    "pollrelay_admin_dropped_sessions_total 0",
    "pollrelay_reloads_total 0",
    "pollrelay_bytes_total{way=\"up\"} 0",
    "pollrelay_bytes_total{way=\"down\"} 0",
    "pollrelay_log_lines_total 0",
    "pollrelay_log_lost_lines_total 0",
];

/// The text of a snapshot.
fn spelled(alloc: Global, figures: &Figures) -> Option<String> {
    String::from_utf8(figures.text(alloc).ok()?).ok()
}

/// Whether the text has this line.
pub(super) fn is_in(text: &str, want: &str) -> bool {
    for line in text.lines() {
        if line == want {
            return true;
        }
    }
    false
}

/// Whether the text of a snapshot has this line.
fn has_line(alloc: Global, figures: &Figures, line: &str) -> bool {
    match spelled(alloc, figures) {
        Some(text) => is_in(text.as_str(), line),
        None => false,
    }
}

#[test]
fn a_snapshot_is_spelled_family_by_family(rt: HostRuntime) {
    let figures = made(rt.alloc()).expect(&rt, "a snapshot");
    let text = spelled(rt.alloc(), &figures).expect(&rt, "a text");
    holds!(rt; text.as_str() == MADE);
}

/// How many lines of the text say what figures are, and how many tell one.
fn lines_of(text: &str) -> (usize, usize) {
    let (mut comments, mut figures) = (0usize, 0usize);
    for line in text.lines() {
        if line.starts_with("# ") {
            comments = comments.saturating_add(1);
        } else {
            figures = figures.saturating_add(1);
        }
    }
    (comments, figures)
}

#[test]
fn without_loops_and_rules_the_same_families_are_said(rt: HostRuntime) {
    let figures = Figures::new(rt.alloc());
    let text = spelled(rt.alloc(), &figures).expect(&rt, "a text");
    for line in NOTHING_YET {
        holds!(rt; is_in(text.as_str(), line), line);
    }
    let (families, _) = lines_of(MADE);
    holds!(rt; lines_of(text.as_str()) == (families, NOTHING_YET.len()), "each, and no other");
}

const UP: &[(u64, &str)] = &[
    (9, "pollrelay_up_seconds 0.009"),
    (10, "pollrelay_up_seconds 0.010"),
    (999, "pollrelay_up_seconds 0.999"),
    (1_000, "pollrelay_up_seconds 1.000"),
    (86_400_100, "pollrelay_up_seconds 86400.100"),
    (u64::MAX, "pollrelay_up_seconds 18446744073709551.615"),
];

#[test]
fn milliseconds_are_spelled_as_seconds_with_three_digits(rt: HostRuntime) {
    let mut figures = Figures::new(rt.alloc());
    for (ms, line) in UP {
        figures.up_ms = *ms;
        holds!(rt; has_line(rt.alloc(), &figures, line), line);
    }
}
