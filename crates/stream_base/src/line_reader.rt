//! The lines of a source, as they come. The source is read in chunks, and one line is held at a
//! time, up to a limit, so that memory grows with neither the source nor its lines.

ghost use Rattle.std.specs.Prelude.{◌≡◌, ◌≢◌, ◌<◌, ◌≤◌, ◌-◌, [], IfOk, OnOk, OnErr, drop, length, min};
ghost use Rattle.std.specs.Prelude.{take};
ghost use Rattle.std.specs.Io.KnownBytes.{Consumes, IsAtEnd, Keeps};
ghost use Rattle.stream_base.specs.Attempt.{FailedOrInterrupted};
ghost use Rattle.stream_base.specs.LineReader.{Finds, Reading, nothing_read};
ghost use Rattle.stream_base.specs.declared.line_reader.TheConstants.{CHUNK_BYTES};

use crate::source::{Source, SourceFault, read_from};
use arrayvec::ArrayVec;
use std::marker::Model;

/// The most bytes that are taken at once.
pub const CHUNK_BYTES: usize = 4_096;

/// What the bytes that were read say of the line that is held.
#[derive(Clone, Copy, Debug, PartialEq, Eq, Drop)]
pub enum Found {
    /// It is whole: a line feed came, which is taken and isn't of the line.
    Line,
    /// It is longer than the limit: it is full, and the next byte ahead is no line feed.
    TooLong,
    /// No byte is ahead, and no line feed has come.
    Unended,
}

/// A reader of lines, of which each has `LIMIT` bytes at most.
#[derive(Drop)]
pub struct LineReader<const LIMIT: usize> {
    line: ArrayVec<u8, LIMIT>,
    chunk: [u8; CHUNK_BYTES],
    at: usize,
    end: usize,
}

impl<const LIMIT: usize> Model for LineReader<LIMIT> {
    ghost Value = { Reading };

    ghost view = { λ r. record {
      held = r.line.items;
      ahead = take (r.end - r.at) (drop r.at r.chunk);
    } };

    ghost invariant = { λ r. (length r.line.items ≤ LIMIT) × (r.at ≤ r.end)
        × (r.end ≤ CHUNK_BYTES) };
}

impl<const LIMIT: usize> LineReader<LIMIT> {
    /// A reader that has read nothing.
    pub fn new() -> LineReader<LIMIT>
        ensures { result ≡ nothing_read }
    {
        LineReader {
            line: ArrayVec::new(),
            chunk: [0; CHUNK_BYTES],
            at: 0,
            end: 0,
        }
    }

    /// Reads once from the source, and again as long as it is interrupted. The answer is how many
    /// bytes came; none is the end of the source. The line that is held stays.
    pub fn fill<S: Source>(&mut self, source: &mut S) -> Result<usize, SourceFault>
        requires uninterrupted { S.interruptions source.old ≡ 0 }
        requires all_looked_at { self.old.ahead ≡ [] }
        ensures held { self.new.held ≡ self.old.held }
        ensures count { IfOk result (λ n. n ≡ length self.new.ahead) }
        ensures bytes { OnOk result (Consumes (S.remaining source.old) (S.remaining source.new)
            self.new.ahead) }
        ensures end { IfOk result (λ n. n ≡ 0 → IsAtEnd (S.remaining source.new)) }
        ensures row { OnOk result (S.interruptions source.new ≡ 0) }
        ensures health { OnOk result (S.failed source.new ≡ S.failed source.old) }
        ensures none { OnErr result (self.new.ahead ≡ []) }
        ensures kept { OnErr result (Keeps (S.remaining source.old) (S.remaining source.new)) }
        ensures cause { OnErr result
            (FailedOrInterrupted (S.failed source.new) (S.interruptions source.new)) }
        ensures same { S.stays source.old source.new }
    {
        self.at = 0;
        self.end = 0;
        let count = match read_from(source, &mut self.chunk) {
            Ok(count) => count,
            Err(fault) => return Err(fault),
        };
        self.end = count;
        Ok(count)
    }

    /// Takes bytes that came otherwise than from a source, 4,096 of them at most, and says how many.
    /// Where bytes are still ahead it takes none. The line that is held stays.
    pub fn take(&mut self, bytes: &[u8]) -> usize
        ensures held { self.new.held ≡ self.old.held }
        ensures took { self.old.ahead ≡ [] → (result ≡ min (length bytes.now) CHUNK_BYTES)
            × (self.new.ahead ≡ take result bytes.now) }
        ensures none { self.old.ahead ≢ [] → (result ≡ 0) × (self.new.ahead ≡ self.old.ahead) }
    {
        if self.at < self.end {
            return 0;
        }
        let count = bytes.len().min(CHUNK_BYTES);
        self.chunk[..count].copy_from_slice(&bytes[..count]);
        self.at = 0;
        self.end = count;
        count
    }

    /// Goes on with the line that is held, through the bytes ahead, up to its line feed or to the
    /// byte that is one too many.
    pub fn find_line(&mut self) -> Found
        ensures found { Finds LIMIT result self.old self.new }
        ensures fits { length self.new.held ≤ LIMIT }
    {
        while self.at < self.end {
            let byte = self.chunk[self.at];
            if byte == b'\n' {
                self.at += 1;
                return Found::Line;
            }
            if self.line.is_full() {
                return Found::TooLong;
            }
            self.line.push(byte);
            self.at += 1;
        }
        Found::Unended
    }

    /// The line that is held, as far as it has come, without its line feed.
    pub fn line(&self) -> &[u8]
        ensures bytes { result.now ≡ self.now.held }
        ensures fits { length result.now ≤ LIMIT }
    {
        self.line.as_slice()
    }

    /// Forgets the line that is held, for the next one.
    pub fn start_line(&mut self)
        ensures held { self.new.held ≡ [] }
        ensures ahead { self.new.ahead ≡ self.old.ahead }
    {
        self.line.clear();
    }
}
