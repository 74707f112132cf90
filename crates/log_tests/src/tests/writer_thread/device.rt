//! A device in memory, which a test fills, frees and looks at while the log's thread writes to it.

ghost use Rattle.std.specs.Prelude.{◌≤◌, IfOk, IfSome, length};

use super::{TURNS, pause};
use std::alloc::Global;
use std::io;
use std::io::{ErrorKind, Write};
use std::sync::atomic::{AtomicU64, Ordering};
use std::sync::{Arc, Mutex, Wait};
use std::time::Clock;

/// What a device does whose room is used up.
#[derive(Clone, Copy, Drop)]
pub(super) enum Full {
    Fails,
    TakesNothing,
    Blocks,
}

/// What is behind a device: it takes at most so many bytes a write, as long as it has room.
#[derive(Drop)]
pub(super) struct Store {
    pub(super) bytes: Mutex<Vec<u8>>,
    pub(super) room: AtomicU64,
    pub(super) most: usize,
    pub(super) full: Full,
    /// Every so many calls one is interrupted; 0 for none.
    pub(super) interrupts: u64,
    pub(super) pause_ms: u64,
    pub(super) calls: AtomicU64,
    /// How many line feeds were taken.
    pub(super) lines: AtomicU64,
    /// How often it was full.
    pub(super) refused: AtomicU64,
}

impl Store {
    /// One with room for so many bytes, which takes them as they come.
    pub(super) fn new(alloc: Global, room: u64, full: Full) -> Store {
        Store {
            bytes: Mutex::new(Vec::new(alloc)),
            room: AtomicU64::new(room),
            most: 65_536,
            full,
            interrupts: 0,
            pause_ms: 0,
            calls: AtomicU64::new(0),
            lines: AtomicU64::new(0),
            refused: AtomicU64::new(0),
        }
    }

    /// Waits until it was full, and says whether it came to that.
    pub(super) fn comes_to_refuse<R: Clock>(&self, rt: &R, times: u64) -> bool {
        for _ in 0..TURNS {
            if self.refused.load(Ordering::SeqCst) >= times {
                return true;
            }
            pause(rt, 1);
        }
        false
    }

    /// How many bytes there is room for.
    fn room_left(&self, held: usize) -> usize {
        let room = usize::try_from(self.room.load(Ordering::SeqCst)).unwrap_or(usize::MAX);
        room.saturating_sub(held)
    }

    fn is_interrupted(&self) -> bool {
        let calls = self.calls.fetch_add(1, Ordering::SeqCst);
        self.interrupts > 0 && calls % self.interrupts == 0
    }

    /// Waits while there is no room, as a pipe does that nobody reads.
    fn wait_for_room<R: Wait + Clock>(&self, rt: &R) {
        for _ in rt.forever() {
            if self.room_left(self.bytes.lock(rt).len()) > 0 {
                return;
            }
            pause(rt, 1);
        }
    }

    /// Keeps a front of the bytes, as much as there is room for, and says how much; none where there
    /// is no memory.
    fn keep<R: Wait>(&self, rt: &R, buf: &[u8]) -> Option<usize>
        ensures { IfSome result (λ count. count ≤ length buf.now) }
    {
        let mut bytes = self.bytes.lock(rt);
        let count = buf.len().min(self.most).min(self.room_left(bytes.len()));
        match bytes.extend_from_slice(&buf[..count]) {
            Ok(()) => Some(count),
            Err(_) => None,
        }
    }

    fn take<R: Wait>(&self, rt: &R, buf: &[u8]) -> io::Result<usize>
        ensures { IfOk result (λ count. count ≤ length buf.now) }
    {
        let Some(count) = self.keep(rt, buf) else {
            return Err(ErrorKind::OutOfMemory.into());
        };
        if count == 0 && !buf.is_empty() {
            self.refused.fetch_add(1, Ordering::SeqCst);
            if matches!(self.full, Full::Fails) {
                return Err(ErrorKind::StorageFull.into());
            }
        }
        self.lines
            .fetch_add(line_feeds(&buf[..count]), Ordering::SeqCst);
        Ok(count)
    }
}

fn line_feeds(bytes: &[u8]) -> u64 {
    let mut count = 0u64;
    for byte in bytes {
        if *byte == b'\n' {
            count = count.saturating_add(1);
        }
    }
    count
}

/// The device itself, which the log's thread has.
#[derive(Drop)]
pub(super) struct Device<R: Wait + Clock + Drop> {
    pub(super) rt: R,
    pub(super) store: Arc<Store>,
}

impl<R: Wait + Clock + Drop> Write for Device<R> {
    fn write(&mut self, buf: &[u8]) -> io::Result<usize> {
        if self.store.is_interrupted() {
            return Err(ErrorKind::Interrupted.into());
        }
        if matches!(self.store.full, Full::Blocks) {
            self.store.wait_for_room(&self.rt);
        }
        if self.store.pause_ms > 0 {
            pause(&self.rt, self.store.pause_ms);
        }
        self.store.take(&self.rt, buf)
    }

    fn flush(&mut self) -> io::Result<()> {
        Ok(())
    }
}
