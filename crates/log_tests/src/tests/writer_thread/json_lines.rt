//! A log in JSON: its lines, and what it says of lost ones.

use super::lines::push_all;
use log_writer::Log;
use relay_log::format::Format;
use std::alloc::Global;
use std::prelude::HostRuntime;
use std::sync::Wait;
use std::time::Clock;

/// Pushes so many lines into a log, ends it, and gives how many of them were lost.
fn lost_of_all<R: Wait + Clock>(rt: &R, log: &Log, count: u64, written: &mut Vec<u8>) -> u64 {
    push_all(rt, log, "p0", count);
    log.end(rt);
    log.run(rt, written);
    log.counts(rt).lost
}

const TWO: &str = "{\"time\":\"2026-11-24T15:21:47.123Z\",\"rule\":\"p0\",\"client_id\":0,\
    \"target_id\":null,\"client\":\"127.0.0.1:40000\",\"target\":\"unix:/run/app.sock\",\"up\":24,\
    \"down\":1000,\"ms\":57,\"how\":\"eof\"}\n\
    {\"time\":\"2026-11-24T15:21:47.123Z\",\"rule\":\"p0\",\"client_id\":1,\
    \"target_id\":null,\"client\":\"127.0.0.1:40000\",\"target\":\"unix:/run/app.sock\",\"up\":24,\
    \"down\":1000,\"ms\":57,\"how\":\"eof\"}\n";

#[test]
fn a_log_in_json_writes_an_object_for_each_line(rt: HostRuntime) {
    let log = Log::new(rt.alloc(), Format::Json);
    let mut written = Vec::new(rt.alloc());
    holds!(rt; lost_of_all(&rt, &log, 2, &mut written) == 0);
    holds!(rt; written.as_slice() == TWO.as_bytes());
}

/// Whether the text ends with an object that says how many lines were lost.
fn says_at_its_end(alloc: Global, text: &[u8], lost: u64) -> bool {
    match format!(in alloc; "\"eof\"}}\n{{\"lost\":{lost}}}\n") {
        Ok(end) => text.ends_with(end.as_bytes()),
        Err(_) => false,
    }
}

#[test]
fn a_log_in_json_has_an_object_for_lost_lines(rt: HostRuntime) {
    let log = Log::new(rt.alloc(), Format::Json);
    let mut written = Vec::new(rt.alloc());
    let lost = lost_of_all(&rt, &log, 600, &mut written);
    holds!(rt; lost > 0);
    holds!(rt; says_at_its_end(rt.alloc(), written.as_slice(), lost));
}
