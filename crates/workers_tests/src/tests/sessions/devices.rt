//! A reader that is slow and impatient, and a writer that is narrow.

use std::cell::Cell;
use std::io;
use std::io::{Read, Write};

/// Gives one byte a read, interrupted so often before each; then it fails, or is at its end. It
/// fails too where a line before has no flushed reply.
#[derive(Drop)]
pub(super) struct SlowReader<'a> {
    pub(super) bytes: &'static [u8],
    pub(super) row: u32,
    pub(super) left: u32,
    pub(super) fails: bool,
    pub(super) lines: u64,
    pub(super) flushes: &'a Cell<u64>,
}

impl Read for SlowReader<'_> {
    fn read(&mut self, buf: &mut [u8]) -> io::Result<usize> {
        if self.left > 0 {
            self.left -= 1;
            return Err(io::ErrorKind::Interrupted.into());
        }
        self.left = self.row;
        if self.flushes.get() < self.lines || (self.bytes.is_empty() && self.fails) {
            return Err(io::ErrorKind::Other.into());
        }
        if buf.is_empty() || self.bytes.is_empty() {
            return Ok(0);
        }
        if self.bytes[0] == b'\n' {
            self.lines = self.lines.saturating_add(1);
        }
        buf[0] = self.bytes[0];
        self.bytes = &self.bytes[1..];
        Ok(1)
    }
}

/// What a writer does once its room is full.
pub(super) enum Full {
    Fails,
    TakesNothing,
    FailsAtFlush,
}

/// Takes one byte a write, interrupted so often before each, and counts its flushes.
#[derive(Drop)]
pub(super) struct NarrowWriter<'a> {
    pub(super) taken: Vec<u8>,
    pub(super) row: u32,
    pub(super) left: u32,
    pub(super) room: usize,
    pub(super) full: &'static Full,
    pub(super) flushes: &'a Cell<u64>,
}

impl Write for NarrowWriter<'_> {
    fn write(&mut self, buf: &[u8]) -> io::Result<usize> {
        if self.left > 0 {
            self.left -= 1;
            return Err(io::ErrorKind::Interrupted.into());
        }
        self.left = self.row;
        if buf.is_empty() {
            return Ok(0);
        }
        if self.taken.len() >= self.room {
            match self.full {
                Full::Fails => return Err(io::ErrorKind::Other.into()),
                Full::TakesNothing => return Ok(0),
                Full::FailsAtFlush => {}
            }
        }
        match self.taken.push(buf[0]) {
            Ok(()) => Ok(1),
            Err(_) => Err(io::ErrorKind::Other.into()),
        }
    }

    fn flush(&mut self) -> io::Result<()> {
        match self.full {
            Full::FailsAtFlush if self.taken.len() >= self.room => {
                Err(io::ErrorKind::Other.into())
            }
            _ => {
                self.flushes.set(self.flushes.get().saturating_add(1));
                Ok(())
            }
        }
    }
}
