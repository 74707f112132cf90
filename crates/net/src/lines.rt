//! Lines as they come, each up to a limit: for tasks, by polls, and for threads, by reads that wait.

ghost use Rattle.std.specs.Prelude.{◌≡◌, ◌≢◌, ◌≤◌, [], Some, IfSome, IsNone, length, take};
ghost use Rattle.net.specs.Lines.{Hears, IsPending, HasLooked, begun, line_in, reading_of, with_more};
ghost use Rattle.stream_base.specs.declared.line_reader.TheConstants.{CHUNK_BYTES};

use crate::poll_read::PollRead;
use std::io;
use std::io::{ErrorKind, Read};
use stream_base::line_reader::{CHUNK_BYTES, Found, LineReader};

/// What came of a look for the next line.
#[derive(Clone, Copy, Debug, PartialEq, Eq, Drop)]
pub enum Heard {
    /// A line, which `Lines::line` has. What was read behind its line feed is kept for the next call.
    Line,
    /// More bytes than the limit came without a line feed. `Lines::line` has as many of them as the
    /// limit, and each further call says so again.
    TooLong,
    /// The peer's end. `Lines::line` has what came behind the last line feed.
    End,
}

/// A reader of lines, of which each has `LIMIT` bytes at most, beside its line feed. A carriage
/// return before that is of the line.
#[derive(Drop)]
pub struct Lines<const LIMIT: usize> {
    reader: LineReader<LIMIT>,
    // Whether a line was told, so that the next call begins another.
    told: bool,
}

impl<const LIMIT: usize> Lines<LIMIT> {
    /// A reader that has read nothing.
    pub fn new() -> Lines<LIMIT>
        ensures none { begun result ≡ record { held = []; ahead = [] } }
    {
        Lines {
            reader: LineReader::new(),
            told: false,
        }
    }

    /// The line that was told last, without its line feed; else as much as has come of the next.
    pub fn line(&self) -> &[u8]
        ensures bytes { result.now ≡ line_in self.now }
        ensures fits { length result.now ≤ LIMIT }
    {
        self.reader.line()
    }

    /// Looks for the next line in what was read before, for who brings its bytes otherwise. `None`
    /// says that there is none, and that all of them are held.
    pub fn find(&mut self) -> Option<Heard>
        ensures no_end { IfSome result (λ heard. heard ≢ Heard.End) }
        ensures heard { IfSome result (λ heard. Hears heard (begun self.old) self.new) }
        ensures pending { IsNone result → IsPending (begun self.old) self.new }
    {
        if self.told {
            self.reader.start_line();
        }
        let found = self.reader.find_line();
        self.told = found == Found::Line;
        match found {
            Found::Line => Some(Heard::Line),
            Found::TooLong => Some(Heard::TooLong),
            Found::Unended => None,
        }
    }

    /// Looks on in bytes that came, 4,096 at most, where the look before found no line (`find`).
    pub fn find_in(&mut self, came: &[u8]) -> Option<Heard>
        requires all_held { (begun self.old).ahead ≡ [] }
        requires fits { length came.now ≤ CHUNK_BYTES }
        ensures no_end { IfSome result (λ heard. heard ≢ Heard.End) }
        ensures heard { IfSome result (λ heard.
            Hears heard (with_more (begun self.old) came.now) self.new) }
        ensures pending { IsNone result → IsPending (with_more (begun self.old) came.now) self.new }
    {
        self.reader.take(came);
        self.find()
    }

    // Looks on in what a read gave of a chunk, where the look before found no line. No byte is the
    // end.
    fn hear(&mut self, chunk: &[u8], count: usize) -> Option<Heard>
        requires all_held { (begun self.old).ahead ≡ [] }
        requires goes_on { begun self.old ≡ reading_of self.old }
        requires within { count ≤ length chunk.now }
        requires fits { length chunk.now ≤ CHUNK_BYTES }
        ensures heard { IfSome result (λ heard.
            Hears heard (with_more (begun self.old) (take count chunk.now)) self.new) }
        ensures pending { IsNone result
            → IsPending (with_more (begun self.old) (take count chunk.now)) self.new }
        ensures end { result ≡ Some Heard.End → count ≡ 0 }
    {
        if count == 0 {
            return Some(Heard::End);
        }
        self.find_in(&chunk[..count])
    }

    /// The next line of a connection, as far as it is there, for a task. `None` says that no whole
    /// line is there yet: the task waits for a read. It reads once at most, and only where no line is
    /// held, so where more than 4,096 bytes are there without a line feed, its task's next step is due
    /// at once.
    #[tactic(auto, using(crate::proofs::LineLooks::heard_at_once, crate::proofs::LineLooks::heard_in, crate::proofs::LineLooks::pends_in))]
    pub fn poll<P: PollRead>(&mut self, source: &mut P) -> Option<io::Result<Heard>>
        ensures looked { HasLooked result self.old self.new
            (P.remaining source.old) (P.remaining source.new) }
    {
        if let Some(heard) = self.find() {
            return Some(Ok(heard));
        }
        let mut chunk = [0; CHUNK_BYTES];
        match source.poll_read(&mut chunk)? {
            Ok(count) => {
                let heard = self.hear(&chunk, count)?;
                Some(Ok(heard))
            }
            Err(error) => Some(Err(error)),
        }
    }

    /// The next line of a reader, for a thread: it reads until there is one. A connection is a
    /// reader, whose time-outs and deadline end the wait. After an error the bytes that came before
    /// are kept, and the next call goes on with them.
    pub fn read<S: Read>(&mut self, source: &mut S) -> io::Result<Heard>
        ensures looked { HasLooked (Some result) self.old self.new
            (S.remaining source.old) (S.remaining source.new) }
    {
        if let Some(heard) = self.find() {
            return Ok(heard);
        }
        let mut chunk = [0; CHUNK_BYTES];
        'reads: for _ in 0..u64::MAX {
            let count = source.read(&mut chunk)?;
            if let Some(heard) = self.hear(&chunk, count) {
                return Ok(heard);
            }
        }
        Err(ErrorKind::Other.into())
    }
}
