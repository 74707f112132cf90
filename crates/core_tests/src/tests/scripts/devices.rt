//! A reader and a writer that are slow, interrupted or broken.

use std::cell::Cell;
use std::io::{ErrorKind, Read, Result, Write};

/// A reader that is interrupted so often before each read, gives so many bytes by one, and may
/// break at its end. It notes what the writer had passed on when each of its first reads came.
#[derive(Drop)]
pub(super) struct SlowReader<'a> {
    pub(super) row: u32,
    pub(super) interruptions_left: u32,
    pub(super) chunk: usize,
    pub(super) breaks: bool,
    pub(super) text: &'static [u8],
    pub(super) passed_on: &'a Cell<usize>,
    pub(super) seen: [usize; 4],
    pub(super) reads: usize,
}

impl Read for SlowReader<'_> {
    fn read(&mut self, buf: &mut [u8]) -> Result<usize> {
        if self.interruptions_left > 0 {
            self.interruptions_left -= 1;
            return Err(ErrorKind::Interrupted.into());
        }
        self.interruptions_left = self.row;
        if self.reads < 4 {
            self.seen[self.reads] = self.passed_on.get();
            self.reads += 1;
        }
        if self.text.is_empty() && self.breaks {
            return Err(ErrorKind::Other.into());
        }
        let n = self.chunk.min(buf.len()).min(self.text.len());
        buf[..n].copy_from_slice(&self.text[..n]);
        self.text = &self.text[n..];
        Ok(n)
    }
}

/// A writer that is interrupted so often before each call, takes so many bytes by a write while it
/// has room, and then breaks or takes nothing; so many of its flushes succeed. It tells what it has
/// passed on by them.
#[derive(Drop)]
pub(super) struct SlowWriter<'a> {
    pub(super) row: u32,
    pub(super) interruptions_left: u32,
    pub(super) chunk: usize,
    pub(super) room: usize,
    pub(super) breaks: bool,
    pub(super) flushes_left: usize,
    pub(super) taken: Vec<u8>,
    pub(super) passed_on: &'a Cell<usize>,
}

impl SlowWriter<'_> {
    fn is_interrupted(&mut self) -> bool {
        if self.interruptions_left > 0 {
            self.interruptions_left -= 1;
            return true;
        }
        self.interruptions_left = self.row;
        false
    }
}

impl Write for SlowWriter<'_> {
    fn write(&mut self, buf: &[u8]) -> Result<usize> {
        if self.is_interrupted() {
            return Err(ErrorKind::Interrupted.into());
        }
        let n = self
            .chunk
            .min(buf.len())
            .min(self.room.saturating_sub(self.taken.len()));
        if n == 0 && self.breaks {
            return Err(ErrorKind::StorageFull.into());
        }
        if self.taken.extend_from_slice(&buf[..n]).is_err() {
            return Err(ErrorKind::OutOfMemory.into());
        }
        Ok(n)
    }

    fn flush(&mut self) -> Result<()> {
        if self.is_interrupted() {
            return Err(ErrorKind::Interrupted.into());
        }
        if self.flushes_left == 0 {
            return Err(ErrorKind::Other.into());
        }
        self.flushes_left -= 1;
        self.passed_on.set(self.taken.len());
        Ok(())
    }
}
