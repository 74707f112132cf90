//! The tasks of the servers that are tested.

use net::{Cause, Conn, GentleClose, Next, Runs, Task, Waits};
use std::alloc::Global;
use std::io;
use std::io::ErrorKind;
use std::time::Duration;

/// What a task does with its connection. A time of 0 is none.
#[derive(Clone, Copy, PartialEq, Eq)]
pub enum Does {
    /// It gives back what comes, and is over where nothing has come for so many milliseconds.
    Echoes(u64),
    /// It gives its connection a deadline, and waits for bytes until its reads fail.
    HasDeadline(u64),
    /// It waits for its time again and again, and then gives back what has come, until it is told
    /// that its connection is closed.
    LooksEach(u64),
    /// It is over with the first bytes that come.
    Fails,
    /// It gives back what comes first, and closes gently, in so many milliseconds at most.
    ClosesGently(u64),
    /// None is begun: the loops have one, which begins none.
    BeginsNone,
    IsRefused,
}

/// Longer than any test, in milliseconds.
pub const LONG_MS: u64 = 600_000;

/// A task, and what it read and hasn't given back: from here to there in the buffer.
#[derive(Drop)]
pub struct Worker {
    pub does: Does,
    buf: [u8; 256],
    from: usize,
    to: usize,
    close: Option<GentleClose>,
}

/// A pattern for all tasks.
pub fn task_that(does: Does) -> Worker {
    Worker {
        does,
        buf: [0; 256],
        from: 0,
        to: 0,
        close: None,
    }
}

/// What came of bytes that were given back, and of those that were read then.
#[derive(Clone, Copy)]
enum Came {
    Bytes,
    WaitsToWrite,
    WaitsToRead,
    Over,
}

impl Worker {
    fn gives<R: Runs>(&mut self, conn: &mut Conn<R>) -> Came {
        let Some(kept) = self.buf.as_slice().get(self.from..self.to) else {
            return Came::Over;
        };
        match conn.poll_write(kept) {
            None => Came::WaitsToWrite,
            Some(Ok(count)) => {
                self.from = self.from.saturating_add(count);
                Came::Bytes
            }
            Some(Err(_)) => Came::Over,
        }
    }

    fn takes<R: Runs>(&mut self, conn: &mut Conn<R>) -> Came {
        match conn.poll_read(&mut self.buf) {
            None => Came::WaitsToRead,
            Some(Ok(count)) if count > 0 => {
                self.from = 0;
                self.to = count;
                Came::Bytes
            }
            _ => Came::Over,
        }
    }

    fn goes_on<R: Runs>(&mut self, conn: &mut Conn<R>) -> Came {
        if self.from < self.to {
            self.gives(conn)
        } else {
            self.takes(conn)
        }
    }

    fn echoes<R: Runs>(&mut self, conn: &mut Conn<R>, waits: Waits) -> Next {
        for _ in 0..8u8 {
            match self.goes_on(conn) {
                Came::Bytes => {}
                Came::WaitsToWrite => return Next::Write(waits),
                Came::WaitsToRead => return Next::Read(waits),
                Came::Over => return Next::Over,
            }
        }
        Next::Again
    }

    fn looks<R: Runs>(&mut self, conn: &mut Conn<R>, each: Duration) -> Next {
        match self.echoes(conn, Waits::Forever) {
            Next::Over => Next::Over,
            _ => Next::After(each),
        }
    }

    fn closes_gently<R: Runs>(&mut self, conn: &mut Conn<R>, ms: u64) -> Next {
        if self.close.is_none() {
            match self.takes(conn) {
                Came::WaitsToRead => return Next::Read(Waits::Forever),
                Came::Bytes => {}
                _ => return Next::Over,
            }
            self.gives(conn);
        }
        let mut close = match self.close {
            Some(close) => close,
            None => GentleClose::new(Duration::from_millis(ms)),
        };
        let next = close.step(conn);
        self.close = Some(close);
        next
    }

    // The deadline is set once.
    fn waits<R: Runs>(&mut self, conn: &mut Conn<R>, ms: u64) -> Next {
        if ms > 0 && conn.set_deadline(Some(Duration::from_millis(ms))).is_err() {
            return Next::Over;
        }
        self.does = Does::HasDeadline(0);
        self.echoes(conn, Waits::Forever)
    }
}

impl<R: Runs> Task<R> for Worker {
    fn begin(&self, _alloc: Global) -> io::Result<Worker> {
        match self.does {
            Does::BeginsNone => Ok(task_that(Does::IsRefused)),
            Does::IsRefused => Err(ErrorKind::OutOfMemory.into()),
            does => Ok(task_that(does)),
        }
    }

    fn step(&mut self, _rt: &R, conn: &mut Conn<R>, cause: Cause) -> Next {
        match self.does {
            Does::Echoes(0) => self.echoes(conn, Waits::Forever),
            Does::Echoes(ms) => self.echoes(conn, cause.idle(Duration::from_millis(ms))),
            Does::HasDeadline(ms) => self.waits(conn, ms),
            Does::LooksEach(ms) => self.looks(conn, Duration::from_millis(ms)),
            Does::Fails => match self.takes(conn) {
                Came::WaitsToRead => Next::ReadOrWrite(Waits::Forever),
                _ => Next::Over,
            },
            Does::ClosesGently(ms) => self.closes_gently(conn, ms),
            Does::BeginsNone | Does::IsRefused => Next::Over,
        }
    }
}
