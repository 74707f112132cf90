//! A loop whose tasks hear why they are resumed, and how they end.

use fd_descriptor::{Dir, PollCell};
use readiness::{EventLoop, Host, Side, Turn, Why};
use std::sync::Arc;
use std::sync::atomic::{AtomicU64, Ordering};

/// What a task, by its number, heard.
#[derive(Clone, Copy, PartialEq)]
pub(super) enum Heard {
    /// A timer came due.
    Due(usize, Side, Dir),
    /// Its alarm came, and the moment that it awaits.
    Late(usize),
    /// Its alarm came before that.
    Early(usize),
    /// Somebody named it.
    Told(usize),
    /// It gave way before.
    Back(usize),
    /// The poller told of it, which it does of none: these tasks have no sockets.
    Ready(usize),
    /// It was handed over.
    Ended(usize),
}

/// A task that gives way so often, and that ends when it is told, if it is to.
#[derive(Clone, Copy)]
pub(super) struct Counting {
    pub(super) number: usize,
    pub(super) yields: u32,
    pub(super) ends_when_told: bool,
    /// The moment that it awaits.
    pub(super) awaits: Option<u64>,
}

/// A task that waits.
pub(super) const WAITING: Counting = Counting {
    number: 0,
    yields: 0,
    ends_when_told: false,
    awaits: None,
};

/// What other threads see of a loop: its turns, and how often each task was told or due.
#[derive(Drop)]
pub(super) struct Seen {
    pub(super) turns: AtomicU64,
    pub(super) ended: AtomicU64,
    pub(super) times: [AtomicU64; 3],
}

impl Seen {
    pub(super) fn new() -> Seen {
        Seen {
            turns: AtomicU64::new(0),
            ended: AtomicU64::new(0),
            times: [AtomicU64::new(0), AtomicU64::new(0), AtomicU64::new(0)],
        }
    }
}

/// What the tasks are to hear, in order, how much of it they heard, and whether they heard nothing
/// else.
#[derive(Drop)]
pub(super) struct Ledger {
    pub(super) wants: &'static [Heard],
    pub(super) at: usize,
    pub(super) is_so: bool,
    pub(super) seen: Arc<Seen>,
}

/// What a task hears that is resumed for this reason.
fn heard_by(task: &Counting, why: Why) -> Heard {
    let number = task.number;
    match why {
        Why::Due { side, dir, .. } => Heard::Due(number, side, dir),
        Why::Time { now } => match task.awaits {
            Some(at) if at <= now => Heard::Late(number),
            _ => Heard::Early(number),
        },
        Why::Named => Heard::Told(number),
        Why::Again => Heard::Back(number),
        Why::Ready { .. } => Heard::Ready(number),
    }
}

impl Ledger {
    fn hears(&mut self, heard: Heard) {
        match self.wants.get(self.at) {
            Some(want) if *want == heard => self.at = self.at.saturating_add(1),
            _ => self.is_so = false,
        }
    }

    fn counts(&self, number: usize) {
        if let Some(times) = self.seen.times.get(number) {
            times.fetch_add(1, Ordering::SeqCst);
        }
    }
}

impl Host for Ledger {
    type Task = Counting;

    ghost awaited = { λ task. task.awaits };

    fn cell<'a>(&self, _task: &'a Counting, _side: Side) -> Option<&'a PollCell> {
        None
    }

    fn resume(&mut self, task: &mut Counting, why: Why) -> Turn {
        let heard = heard_by(task, why);
        self.hears(heard);
        match heard {
            Heard::Late(_) => task.awaits = None,
            Heard::Told(number) | Heard::Due(number, _, _) => self.counts(number),
            _ => {}
        }
        if task.ends_when_told && why == Why::Named {
            return Turn::Over;
        }
        if task.yields > 0 {
            task.yields -= 1;
            return Turn::Again;
        }
        Turn::Waits
    }

    fn until(&self, task: &Counting) -> Option<u64> {
        task.awaits
    }

    fn over(&mut self, task: Counting) {
        self.hears(Heard::Ended(task.number));
    }
}

pub(super) type CountingLoop = EventLoop<Counting>;
