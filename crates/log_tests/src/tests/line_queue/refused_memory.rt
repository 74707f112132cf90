//! Each request for memory is refused once, on heaps of growing size.

use super::lines::ended;
use linked_list_allocator::LocalHeap;
use relay_log::ended::Ended;
use relay_log::format::Format;
use relay_log::queue::{LogQueue, Lost};
use std::alloc::Global;
use std::prelude::HostRuntime;

/// What is asked of a heap.
#[derive(Clone, Copy)]
enum Call {
    /// A line, which has so many bytes.
    Write(Format, usize),
    Push,
    /// The end of a queue, and what it says of the lost line.
    Finish(Format, &'static [u8]),
}

/// What came of it.
#[derive(Clone, Copy)]
enum Came {
    Done,
    Refused,
    /// It was refused, and a line of before was in the queue.
    RefusedBehindALine,
}

type Queue<'a> = LogQueue<&'a LocalHeap>;

type Taken<'a> = Vec<u8, &'a LocalHeap>;

/// A line that is refused memory leaves the vector.
fn writes_on(heap: &LocalHeap, format: Format, len: usize) -> Option<Came> {
    let mut text = Vec::new(heap);
    let is_written = format.write(&ended(Ended::Eof), heap, &mut text).is_ok();
    match (is_written, text.len()) {
        (true, found) if found == len => Some(Came::Done),
        (false, 0) => Some(Came::Refused),
        _ => None,
    }
}

/// A push that is refused memory is lost, and counted so.
fn pushes_on(queue: &mut Queue<'_>) -> Option<Came> {
    let is_first_in = queue.push(b"a line of thirty-two bytes here\n").is_ok();
    let before = queue.len();
    let second = queue.push(&[b'x'; 300]);
    match (is_first_in, second, queue.lost()) {
        (true, Ok(()), _) => Some(Came::Done),
        (true, Err(Lost::NoMemory), 1) if queue.len() == before => Some(Came::RefusedBehindALine),
        (false, Err(Lost::NoMemory), 2) if queue.len() == before => Some(Came::Refused),
        _ => None,
    }
}

/// The end of a queue with a line, after which another was lost. It can be asked for again: the
/// buffers go round, so that one of two further calls has the memory of the line that was taken.
fn finishes_on<'a>(queue: &mut Queue<'a>, taken: &mut Taken<'a>, lost: &[u8]) -> Option<Came> {
    if queue.finish(taken).is_ok() {
        let is_told = taken.as_slice().starts_with(b"twelve bytes\n")
            && taken.as_slice().ends_with(lost)
            && taken.len() == lost.len().saturating_add(13);
        return if is_told && queue.lost() == 0 {
            Some(Came::Done)
        } else {
            None
        };
    }
    if taken.as_slice() != b"twelve bytes\n".as_slice() || queue.lost() != 1 {
        return None;
    }
    let is_finished = queue.finish(taken).is_ok() || queue.finish(taken).is_ok();
    if is_finished && taken.as_slice() == lost {
        return Some(Came::RefusedBehindALine);
    }
    None
}

fn finishes_with_a_line<'a>(
    queue: &mut Queue<'a>,
    taken: &mut Taken<'a>,
    lost: &[u8],
) -> Option<Came> {
    if queue.push(b"twelve bytes\n").is_err() {
        return Some(Came::Refused);
    }
    if queue.push(&[b'x'; 65_537]).is_ok() {
        return None;
    }
    finishes_on(queue, taken, lost)
}

fn came_on(heap: &LocalHeap, call: Call) -> Option<Came> {
    match call {
        Call::Write(format, len) => writes_on(heap, format, len),
        Call::Push => {
            let mut queue = LogQueue::new(heap, Format::Text);
            pushes_on(&mut queue)
        }
        Call::Finish(format, lost) => {
            let mut queue = LogQueue::new(heap, format);
            let mut taken = Vec::new(heap);
            finishes_with_a_line(&mut queue, &mut taken, lost)
        }
    }
}

fn came_within(alloc: Global, units: usize, call: Call) -> Option<Came> {
    let heap = LocalHeap::new(alloc, units.saturating_mul(16)).ok()?;
    came_on(&heap, call)
}

/// How often a call was refused on ever larger heaps until it was done, and how often of these
/// behind a line; or the units of the heap where it went otherwise.
fn refusals(alloc: Global, call: Call) -> Result<(u32, u32), usize> {
    let (mut all, mut behind) = (0u32, 0u32);
    for units in 1..200usize {
        match came_within(alloc, units, call) {
            Some(Came::Done) => return Ok((all, behind)),
            Some(Came::Refused) => {}
            Some(Came::RefusedBehindALine) => behind = behind.saturating_add(1),
            None => return Err(units),
        }
        all = all.saturating_add(1);
    }
    Err(200)
}

/// A row: its name, the call, and how often it is refused at least, and behind a line.
const ROWS: &[(&str, Call, u32, u32)] = &[
    (
        "a line that is refused memory leaves the vector",
        Call::Write(Format::Text, 83),
        3,
        0,
    ),
    (
        "a JSON line that is refused memory leaves the vector",
        Call::Write(Format::Json, 174),
        3,
        0,
    ),
    (
        "a push that is refused memory is lost and said later",
        Call::Push,
        3,
        3,
    ),
    (
        "a finish that is refused memory can be made again",
        Call::Finish(Format::Text, b"lost 1\n"),
        1,
        1,
    ),
    (
        "a finish in JSON that is refused memory can be made again",
        Call::Finish(Format::Json, b"{\"lost\":1}\n"),
        1,
        1,
    ),
];

#[test]
fn calls_that_are_refused_memory_go_as_their_rows_say(rt: HostRuntime) {
    for (row, call, least, least_behind) in ROWS {
        let refused = refusals(rt.alloc(), *call);
        let is_right = match refused {
            Ok((all, behind)) => all >= *least && behind >= *least_behind,
            Err(_) => false,
        };
        assert!(rt; is_right, "{row}: {refused:?}");
    }
}
