//! What stands of a script's text where a reader or a writer is interrupted, slow or broken, and
//! that each answer is passed on before the next read. `tests/system/traces.py` has the texts of
//! scripts, by the program.
mod devices;

use devices::{SlowReader, SlowWriter};
use lockword_script::{End, TraceFault, trace};
use std::alloc::Global;
use std::cell::Cell;

/// How a reader goes: the interruptions before each read, the bytes of one, and whether it breaks
/// at its end.
struct Reads(u32, usize, bool);

/// How a writer goes: the interruptions before each call, the bytes that it takes by a write, and
/// those that it has room for; whether it then breaks or takes nothing; and how many flushes
/// succeed before they fail.
struct Writes(u32, usize, usize, bool, usize);

type Answer = Result<End, TraceFault>;

/// A row: its name, the script, the reader, the writer, the answer, the writer's text, how much of
/// it was passed on, and how much when each of the first four reads came.
struct Row(
    &'static str,
    &'static str,
    Reads,
    Writes,
    Answer,
    &'static str,
    usize,
    [usize; 4],
);

const NO_READ: Answer = Err(TraceFault::Read);

const NO_WRITE: Answer = Err(TraceFault::Write);

const PAIR: &str = "1 incref\n1 decref";

const HELD: &str = "held 0000000000000008 0 0 -\n";

const HELD_AND_KEPT: &str = "held 0000000000000008 0 0 -\nkept 0000000000000000 0 0 -\n";

const ROOMY: Writes = Writes(0, 100, 1_000, false, 10_000);

const BY_LINES: Reads = Reads(0, 9, false);

const ROWS: &[Row] = &[
    Row(
        "an answer is passed on before the next read",
        PAIR,
        BY_LINES,
        ROOMY,
        Ok(End::Whole),
        HELD_AND_KEPT,
        56,
        [0, 28, 28, 0],
    ),
    Row(
        "a long line is bad before its end comes, where the next read would fail",
        "10000000+10000000 rsignals",
        Reads(0, 26, true),
        ROOMY,
        Ok(End::BadLine(1)),
        "bad line 1\n",
        11,
        [0, 0, 0, 0],
    ),
    Row(
        "read and written byte by byte, and 1,024 times interrupted before each",
        PAIR,
        Reads(1_024, 1, false),
        Writes(1_024, 1, 100, false, 100),
        Ok(End::Whole),
        HELD_AND_KEPT,
        56,
        [0, 0, 0, 0],
    ),
    Row(
        "reads interrupted 1,025 times",
        PAIR,
        Reads(1_025, 9, false),
        ROOMY,
        NO_READ,
        "",
        0,
        [0, 0, 0, 0],
    ),
    Row(
        "a broken reader leaves the text of whole lines",
        PAIR,
        Reads(0, 9, true),
        ROOMY,
        NO_READ,
        HELD,
        28,
        [0, 28, 28, 0],
    ),
    Row(
        "writes interrupted 1,025 times",
        PAIR,
        BY_LINES,
        Writes(1_025, 100, 100, false, 100),
        NO_WRITE,
        "",
        0,
        [0, 0, 0, 0],
    ),
    Row(
        "takes nothing when full",
        PAIR,
        BY_LINES,
        Writes(0, 100, 30, false, 100),
        NO_WRITE,
        "held 0000000000000008 0 0 -\nke",
        28,
        [0, 28, 28, 0],
    ),
    Row(
        "breaks when full",
        PAIR,
        BY_LINES,
        Writes(0, 100, 30, true, 100),
        NO_WRITE,
        "held 0000000000000008 0 0 -\nke",
        28,
        [0, 28, 28, 0],
    ),
    Row(
        "a flush that fails before the second read",
        PAIR,
        BY_LINES,
        Writes(0, 100, 100, false, 1),
        NO_WRITE,
        HELD,
        0,
        [0, 0, 0, 0],
    ),
];

/// Whether a script goes as its row says. The cell is for what is passed on, and holds 0 before.
fn holds(alloc: Global, row: &Row, passed_on: &Cell<usize>) -> bool {
    let Row(_, _, reads, writes, answer, text, all, seen) = row;
    let script = row.1;
    let mut source = SlowReader {
        row: reads.0,
        interruptions_left: reads.0,
        chunk: reads.1,
        breaks: reads.2,
        text: script.as_bytes(),
        passed_on,
        seen: [0; 4],
        reads: 0,
    };
    let mut sink = SlowWriter {
        row: writes.0,
        interruptions_left: writes.0,
        chunk: writes.1,
        room: writes.2,
        breaks: writes.3,
        flushes_left: writes.4,
        taken: Vec::new(alloc),
        passed_on,
    };
    let is_answer = trace(alloc, &mut source, &mut sink) == *answer;
    let is_text = sink.taken.as_slice() == text.as_bytes();
    is_answer && is_text && passed_on.get() == *all && source.seen == *seen
}

#[test]
fn scripts_over_broken_devices_leave_a_front_of_their_text(rt: HostRuntime) {
    for row in ROWS {
        assert!(rt; holds(rt.alloc(), row, &Cell::new(0)), "{}", row.0);
    }
}
