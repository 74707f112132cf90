//! What the roles of a scene share: the clock, the poller's table and timers, their marks, and books
//! of what passes at each end.

use super::scene::{End, When};
use super::world::HeldEnd;
use fd_descriptor::{Deadline, Dir, Dirs, Fault};
use readiness::{ConnTable, HeldSocket, Poller, SockRes, TimerAlarms, Timers, Waker};
use std::alloc::Global;
use std::process::Abort;
use std::sync::atomic::{AtomicBool, AtomicU64, Ordering};
use std::sync::{Arc, Mutex, Wait};
use std::time::{Clock, Instant};

const NANOS_IN_A_MILLI: u64 = 1_000_000;

/// What passed in one direction at one end, and the deadline there.
#[derive(Drop)]
pub(super) struct Book {
    bytes: AtomicU64,
    sum: AtomicU64,
    due: AtomicU64,
}

impl Book {
    fn new() -> Book {
        Book {
            bytes: AtomicU64::new(0),
            sum: AtomicU64::new(0),
            due: AtomicU64::new(u64::MAX),
        }
    }

    /// These bytes passed.
    pub(super) fn add(&self, bytes: &[u8]) {
        let mut sum = 0u64;
        for byte in bytes {
            sum = sum.saturating_add(u64::from(*byte));
        }
        self.bytes.fetch_add(bytes.len() as u64, Ordering::SeqCst);
        self.sum.fetch_add(sum, Ordering::SeqCst);
    }

    fn passed(&self) -> (u64, u64) {
        let bytes = self.bytes.load(Ordering::SeqCst);
        (bytes, self.sum.load(Ordering::SeqCst))
    }
}

/// The stage of a scene.
#[derive(Drop)]
pub(in crate::tests) struct Stage<R: Wait + Drop> {
    start: Instant,
    pub(super) table: Mutex<ConnTable<HeldSocket<SockRes>>>,
    pub(super) timers: Arc<Mutex<Timers>>,
    alarms: TimerAlarms<R>,
    /// Wakes the poller's thread, and whether it is told to stop.
    pub(super) waker: Arc<Waker>,
    pub(super) stop: AtomicBool,
    pub(super) marks: AtomicU64,
    near_read: Book,
    near_written: Book,
    far_read: Book,
    far_written: Book,
}

impl<R: Wait + Clock + Copy + Drop> Stage<R> {
    pub(super) fn by(rt: R, alloc: Global, poller: &Poller) -> Stage<R>
    where
        R: Abort,
    {
        let timers = Arc::new(alloc, Mutex::new(Timers::new(alloc))).expect(&rt, "timers");
        let alarmed = Arc::try_clone(&timers).expect(&rt, "timers");
        let woken = poller.waker().expect(&rt, "waker");
        Stage {
            start: Instant::now(&rt).expect(&rt, "clock"),
            table: Mutex::new(ConnTable::new(alloc)),
            timers,
            alarms: TimerAlarms::new(rt, alarmed, woken),
            waker: poller.waker().expect(&rt, "waker"),
            stop: AtomicBool::new(false),
            marks: AtomicU64::new(0),
            near_read: Book::new(),
            near_written: Book::new(),
            far_read: Book::new(),
            far_written: Book::new(),
        }
    }

    /// The nanoseconds since the start.
    pub(super) fn now(&self, rt: &R) -> u64 {
        match self.start.elapsed(rt) {
            Ok(passed) => u64::try_from(passed.as_nanos()).unwrap_or(u64::MAX),
            Err(_) => u64::MAX,
        }
    }

    pub(super) fn book(&self, end: End, dir: Dir) -> &Book {
        match (end, dir) {
            (End::Near, Dir::Read) => &self.near_read,
            (End::Near, Dir::Write) => &self.near_written,
            (End::Far, Dir::Read) => &self.far_read,
            (End::Far, Dir::Write) => &self.far_written,
        }
    }

    /// Sets a deadline, which is noted before: a call that is late can't be seen before that.
    pub(super) fn sets(
        &self,
        rt: &R,
        end: &mut HeldEnd,
        dirs: Dirs,
        when: When,
    ) -> Result<(), Fault> {
        let now = self.now(rt);
        let (due, deadline) = match when {
            When::Never => (u64::MAX, Deadline::Never),
            When::LongAgo => (0, Deadline::At(0)),
            When::In(ms) => {
                let due = now.saturating_add(ms.saturating_mul(NANOS_IN_A_MILLI));
                (due, Deadline::At(due))
            }
        };
        if dirs != Dirs::Write {
            self.book(end.end, Dir::Read)
                .due
                .store(due, Ordering::SeqCst);
        }
        if dirs != Dirs::Read {
            self.book(end.end, Dir::Write)
                .due
                .store(due, Ordering::SeqCst);
        }
        match dirs {
            Dirs::Read => end
                .handle
                .set_read_deadline(rt, deadline, now, &self.alarms),
            Dirs::Write => end
                .handle
                .set_write_deadline(rt, deadline, now, &self.alarms),
            Dirs::Both => end.handle.set_deadline(rt, deadline, now, &self.alarms),
        }
    }

    /// Closes an end. Its entry goes before, so that the poller's token names nothing.
    pub(super) fn closes(&self, rt: &R, end: &mut HeldEnd) -> Result<(), Fault> {
        let _ = self.table.lock(rt).remove(end.id);
        end.handle.close(rt)
    }

    /// Whether the deadline of this direction has passed.
    pub(super) fn is_due(&self, rt: &R, end: End, dir: Dir) -> bool {
        self.book(end, dir).due.load(Ordering::SeqCst) <= self.now(rt)
    }

    /// A role makes a mark.
    pub(super) fn mark(&self) -> bool {
        self.marks.fetch_add(1, Ordering::SeqCst);
        true
    }

    /// Whether each end has read what the other wrote, all of it where nothing was lost.
    pub(super) fn balances(&self, is_whole: bool) -> bool {
        let (up, down) = (self.near_written.passed(), self.far_written.passed());
        let (far, near) = (self.far_read.passed(), self.near_read.passed());
        if is_whole {
            far == up && near == down
        } else {
            far.0 <= up.0 && near.0 <= down.0
        }
    }
}
