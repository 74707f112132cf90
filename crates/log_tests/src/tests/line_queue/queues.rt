//! A queue at its bound: a line that fills it, one byte more, and what is said of lost lines.

use relay_log::format::Format;
use relay_log::queue::{LogQueue, Lost};
use std::alloc::Global;
use std::prelude::HostRuntime;
use std::process::Abort;

/// A step on a queue, with what it has to come to.
#[derive(Clone, Copy)]
enum Step {
    /// A line goes in.
    In(&'static [u8]),
    /// A line of so many bytes goes in.
    LongIn(usize),
    /// There is no room for a line of so many bytes.
    Out(usize),
    /// The bytes that wait, and how many lines are lost.
    Has(usize, u64),
    Take(&'static [u8]),
    /// A line of so many bytes is taken.
    TakeLong(usize),
    Finish(&'static [u8]),
}

use Step::{Finish, Has, In, LongIn, Out, Take, TakeLong};

/// A row: its name, the format of a queue of its own, and the steps on it.
const ROWS: &[(&str, Format, &[Step])] = &[
    (
        "a byte more than fills the queue does not go in",
        Format::Text,
        &[Out(65_537), Has(0, 1)],
    ),
    (
        "a line that fills the queue goes in",
        Format::Text,
        &[
            LongIn(65_536),
            Has(65_536, 0),
            Out(1),
            Out(0),
            Has(65_536, 2),
            TakeLong(65_536),
        ],
    ),
    // After one lost line the words `lost 1` and a line feed take 7 bytes of the room.
    (
        "what is said of lost lines takes room too",
        Format::Text,
        &[Out(65_537), LongIn(93), LongIn(65_436)],
    ),
    (
        "what is said of lost lines takes its room",
        Format::Text,
        &[Out(65_537), LongIn(93), Out(65_437)],
    ),
    (
        "lost lines are said once and the last at the end",
        Format::Text,
        &[
            In(b"a\n"),
            Out(65_536),
            Out(65_536),
            Out(65_536),
            Out(65_536),
            Out(65_536),
            Out(65_536),
            Out(65_536),
            Out(65_536),
            Out(65_536),
            Out(65_536),
            Out(65_536),
            Out(65_536),
            In(b"b\n"),
            In(b"c\n"),
            Take(b"a\nlost 12\nb\nc\n"),
            In(b"d\n"),
            Out(65_536),
            Finish(b"d\nlost 1\n"),
            Finish(b""),
        ],
    ),
    // Of JSON it is `{"lost":1}` and a line feed, which take 11 bytes.
    (
        "an object for lost lines takes room too",
        Format::Json,
        &[Out(65_537), LongIn(93), LongIn(65_432), Has(65_536, 0)],
    ),
    (
        "an object for lost lines takes its room",
        Format::Json,
        &[Out(65_537), LongIn(93), Out(65_433), Has(104, 1)],
    ),
    (
        "lost lines have an object in JSON",
        Format::Json,
        &[
            In(b"{}\n"),
            Out(65_536),
            Out(65_536),
            In(b"{}\n"),
            Take(b"{}\n{\"lost\":2}\n{}\n"),
            Out(65_537),
            Finish(b"{\"lost\":1}\n"),
            Finish(b""),
        ],
    ),
];

/// What a queue is tried with: a line that is longer than there is room for, of which others are
/// fronts, and what was taken last.
#[derive(Drop)]
struct Tried {
    queue: LogQueue<Global>,
    taken: Vec<u8>,
}

impl Tried {
    fn is_taken(&mut self, want: &[u8]) -> bool {
        self.queue.take(&mut self.taken);
        self.taken.as_slice() == want
    }

    fn is_finished(&mut self, want: &[u8]) -> bool {
        self.queue.finish(&mut self.taken).is_ok() && self.taken.as_slice() == want
    }

    /// Takes a step, and says whether it comes to what it must.
    fn goes(&mut self, long: &[u8], step: Step) -> bool {
        match step {
            In(line) => self.queue.push(line) == Ok(()),
            LongIn(len) => self.queue.push(&long[..len.min(long.len())]) == Ok(()),
            Out(len) => self.queue.push(&long[..len.min(long.len())]) == Err(Lost::NoRoom),
            Has(len, lost) => (self.queue.len(), self.queue.lost()) == (len, lost),
            Take(want) => self.is_taken(want),
            TakeLong(len) => self.is_taken(&long[..len.min(long.len())]),
            Finish(want) => self.is_finished(want),
        }
    }
}

fn run(rt: &impl Abort, alloc: Global, row: &str, format: Format, steps: &[Step]) {
    let long = [b'x'; 65_537];
    let mut tried = Tried {
        queue: LogQueue::new(alloc, format),
        taken: Vec::new(alloc),
    };
    for (at, step) in steps.iter().enumerate() {
        assert!(rt; tried.goes(&long, *step), "{row}: step {at}");
    }
}

#[test]
fn queues_answer_as_their_rows_say(rt: HostRuntime) {
    for (row, format, steps) in ROWS {
        run(&rt, rt.alloc(), row, *format, steps);
    }
}
