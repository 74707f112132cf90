//! A long run of pushes and takes, whose lines are counted at the end.

use relay_log::format::Format;
use relay_log::queue::LogQueue;
use std::alloc::Global;
use std::prelude::HostRuntime;
use std::str;

/// Pushes the line of this number, which stands behind `queued` where it went in, and says whether
/// it did; none where there is no memory for its text.
fn pushed(
    alloc: Global,
    queue: &mut LogQueue<Global>,
    queued: &mut Vec<u8>,
    n: u64,
) -> Option<bool> {
    let line = format!(in alloc; "line {n} of a run of ten thousand lines\n").ok()?;
    let is_in = queue.push(line.as_bytes()).is_ok();
    let kept = if is_in { line.as_str() } else { "" };
    queued.extend_from_slice(kept.as_bytes()).ok()?;
    Some(is_in)
}

/// Pushes ten thousand lines, and says how many were lost. Takes come so seldom that the queue is
/// full again and again.
fn lost_of_all(
    alloc: Global,
    queue: &mut LogQueue<Global>,
    queued: &mut Vec<u8>,
    taken: &mut Vec<u8>,
    whole: &mut Vec<u8>,
) -> Option<u64> {
    let mut lost = 0u64;
    for n in 0..10_000u64 {
        if !pushed(alloc, queue, queued, n)? {
            lost = lost.saturating_add(1);
        }
        if n % 2_500 == 2_400 {
            queue.take(taken);
            whole.extend_from_slice(taken.as_slice()).ok()?;
        }
    }
    queue.finish(taken).ok()?;
    whole.extend_from_slice(taken.as_slice()).ok()?;
    Some(lost)
}

/// The sum of the numbers after `lost `, where the other lines are those that were queued, in their
/// order.
fn told_of(whole: &[u8], queued: &[u8]) -> Option<u64> {
    let mut queued = str::from_utf8(queued).ok()?.lines();
    let mut lost = 0u64;
    for line in str::from_utf8(whole).ok()?.lines() {
        if let Some(number) = line.strip_prefix("lost ") {
            lost = lost.saturating_add(number.parse::<u64>().ok()?);
        } else if queued.next() != Some(line) {
            return None;
        }
    }
    if queued.next().is_none() {
        Some(lost)
    } else {
        None
    }
}

/// How many lines were lost, and how many it is told of.
fn lost_and_told(alloc: Global) -> Option<(u64, u64)> {
    let mut queue = LogQueue::new(alloc, Format::Text);
    let mut queued = Vec::new(alloc);
    let mut taken = Vec::new(alloc);
    let mut whole = Vec::new(alloc);
    let lost = lost_of_all(alloc, &mut queue, &mut queued, &mut taken, &mut whole);
    match (lost, told_of(whole.as_slice(), queued.as_slice())) {
        (Some(lost), Some(told)) => Some((lost, told)),
        _ => None,
    }
}

#[test]
fn ten_thousand_pushes_are_each_taken_or_said_to_be_lost(rt: HostRuntime) {
    let found = lost_and_told(rt.alloc());
    let is_right = found.is_some_and(|(lost, told)| lost == told && lost > 1_000);
    assert!(rt; is_right, "{found:?} lost and told of, or other lines");
}
