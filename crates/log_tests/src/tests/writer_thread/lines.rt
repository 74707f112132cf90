//! Lines that tell who pushed them, and texts that are counted.

use log_writer::Log;
use relay_log::ended::Ended;
use relay_log::line::LogLine;
use relay_log::moment::Moment;
use std::alloc::Allocator;
use std::str;
use std::sync::Wait;

/// The names of those who push.
pub(super) const NAMES: [&str; 4] = ["p0", "p1", "p2", "p3"];

/// The line of this number of one who pushes.
pub(super) fn numbered(name: &str, number: u64) -> LogLine<'_> {
    LogLine {
        moment: Moment::from_millis(1_795_533_707_123),
        rule: name,
        client_id: Some(number),
        target_id: None,
        client: "127.0.0.1:40000",
        target: "unix:/run/app.sock",
        up: 24,
        down: 1_000,
        milliseconds: 57,
        ended: Ended::Eof,
    }
}

/// What stands around the name and the number.
const FRONT: &str = "2026-11-24T15:21:47.123Z ";

const BACK: &str = " - 127.0.0.1:40000 unix:/run/app.sock 24 1000 57 eof";

/// Pushes so many lines.
pub(super) fn push_all<R: Wait, A: Allocator + Copy>(rt: &R, log: &Log<A>, name: &str, count: u64) {
    for number in 0..count {
        log.push(rt, &numbered(name, number));
    }
}

/// The place of a pusher among the names.
fn place_of(name: &str) -> Option<usize> {
    for (place, one) in NAMES.iter().enumerate() {
        if *one == name {
            return Some(place);
        }
    }
    None
}

/// The place of the pusher and the number in a line, if it is one of these, whole.
fn parsed(line: &str) -> Option<(usize, u64)> {
    let rest = line.strip_prefix(FRONT)?.strip_suffix(BACK)?;
    let (name, number) = rest.split_once(" ")?;
    Some((place_of(name)?, number.parse::<u64>().ok()?))
}

/// How many lines of pushers a text has, and how many lost ones it tells of. None where a line
/// isn't whole, or comes before an earlier one of the same pusher, or twice.
pub(super) fn counted(text: &[u8]) -> Option<(u64, u64)> {
    let mut next = [0u64; 4];
    let (mut lines, mut lost) = (0u64, 0u64);
    for line in str::from_utf8(text).ok()?.lines() {
        if let Some(number) = line.strip_prefix("lost ") {
            lost = lost.saturating_add(number.parse::<u64>().ok()?);
            continue;
        }
        let (place, number) = parsed(line)?;
        let next = next.get_mut(place)?;
        if number < *next {
            return None;
        }
        *next = number.saturating_add(1);
        lines = lines.saturating_add(1);
    }
    Some((lines, lost))
}

/// Whether the text tells of so many pushes, whole and in order, and of so many lost.
pub(super) fn tells(text: &[u8], pushed: u64, lost: u64) -> bool {
    let is_whole = text.is_empty() || text.ends_with(b"\n");
    is_whole && counted(text) == Some((pushed.saturating_sub(lost), lost))
}
