//! A session, line by line: a program takes each reply and writes it, and its desk may answer later
//! (`stepwise` has this for callers). The desk may take memory of `alloc`; replies take theirs of
//! `memory`, which a session passes as the same.

ghost use Rattle.std.specs.Prelude.{◌≡◌, ◌≢◌, ◌≤◌, length, min, take};
ghost use Rattle.relay_admin.specs.Words.{[]};
ghost use Rattle.relay_admin.specs.declared.admin.dialogue.TheConstants.{MAX_LINES};
ghost use Rattle.relay_admin.specs.admin.Later.{GoesBehind, LastLineComesTo, NextLineComesTo};
ghost use Rattle.relay_admin.specs.admin.Later.{WholeLineComesTo};
ghost use Rattle.relay_admin.specs.admin.Progress.{IsReady, ahead_of, position, start};
ghost use Rattle.stream_base.specs.declared.line_reader.TheConstants.{CHUNK_BYTES};

use crate::admin::end::AdminEnd;
use crate::admin::line_answer::ask_line;
use crate::admin::line_reply::LineReply;
use crate::admin::next_line::NextLine;
use crate::admin::reply_bytes::Reply;
use crate::admin::reply_text::BAD_COMMAND;
use crate::admin::session_desk::SessionDesk;
use std::alloc::{Allocator, Global};
use stream_base::line_reader::{Found, LineReader};

/// The most lines of a session.
pub const MAX_LINES: u32 = 65_536;

/// The most bytes of a line that may be a command, without its line feed.
pub const MAX_LINE_BYTES: usize = 64;

/// The number of the line that is read, from 1, and the reader of the lines.
#[derive(Drop)]
pub struct Dialogue {
    pub number: u32,
    pub lines: LineReader<MAX_LINE_BYTES>,
}

impl Dialogue {
    /// A session that has read nothing.
    pub fn new() -> Dialogue
        ensures start { position result ≡ start }
        ensures nothing { ahead_of result ≡ [] }
    {
        Dialogue {
            number: 1,
            lines: LineReader::new(),
        }
    }

    /// Goes on behind the line, which is whole and ends the session so, if it does; and says how the
    /// session ends. It does at line 65,536.
    pub fn go_behind_line(&mut self, end: Option<AdminEnd>) -> Option<AdminEnd>
        requires { (position self.old).number ≤ MAX_LINES }
        ensures goes { GoesBehind end result (position self.old) (position self.new) }
        ensures ahead { ahead_of self.new ≡ ahead_of self.old }
    {
        if let Some(end) = end {
            return Some(end);
        }
        if self.number >= MAX_LINES {
            return Some(AdminEnd::TooManyLines);
        }
        self.number += 1;
        self.lines.start_line();
        None
    }

    /// Takes bytes that the client sent, as many as there is room for, and says how many.
    pub fn take(&mut self, bytes: &[u8]) -> usize
        ensures at { position self.new ≡ position self.old }
        ensures took { ahead_of self.old ≡ [] → (result ≡ min (length bytes.now) CHUNK_BYTES)
            × (ahead_of self.new ≡ take result bytes.now) }
        ensures none { ahead_of self.old ≢ []
            → (result ≡ 0) × (ahead_of self.new ≡ ahead_of self.old) }
    {
        self.lines.take(bytes)
    }

    // What comes of the line, which is whole, at a desk that may answer later.
    fn ask_line<A: Allocator + Copy, D: SessionDesk>(
        &mut self,
        alloc: Global,
        memory: A,
        desk: &mut D,
    ) -> NextLine<A>
        requires ready { IsReady (position self.old) }
        ensures does { WholeLineComesTo result (position self.old) (position self.new)
            (D.exchanges desk.old) (D.exchanges desk.new) }
        ensures ahead { ahead_of self.new ≡ ahead_of self.old }
    {
        match ask_line(alloc, memory, desk, self.lines.line()) {
            NextLine::Reply(reply, end) => {
                let end = self.go_behind_line(end);
                NextLine::Reply(reply, end)
            }
            other => other,
        }
    }

    /// What has come of the next line among the bytes that were taken.
    pub(crate) fn next_reply<A: Allocator + Copy, D: SessionDesk>(
        &mut self,
        alloc: Global,
        memory: A,
        desk: &mut D,
    ) -> NextLine<A>
        requires ready { IsReady (position self.old) }
        ensures ready { IsReady (position self.new) }
        ensures does { NextLineComesTo result
            self.old self.new (D.exchanges desk.old) (D.exchanges desk.new) }
    {
        match self.lines.find_line() {
            Found::Unended => NextLine::Unended,
            Found::TooLong => {
                let reply = LineReply::Whole(Reply::Fixed(BAD_COMMAND));
                NextLine::Reply(reply, Some(AdminEnd::TooLong))
            }
            Found::Line => self.ask_line(alloc, memory, desk),
        }
    }

    /// What has come of a last line that lacks its line feed, once no byte is left. By its reply the
    /// session ends.
    pub(crate) fn last_reply<A: Allocator + Copy, D: SessionDesk>(
        &mut self,
        alloc: Global,
        memory: A,
        desk: &mut D,
    ) -> NextLine<A>
        requires ready { IsReady (position self.old) }
        ensures ready { IsReady (position self.new) }
        ensures does { LastLineComesTo result
            self.old self.new (D.exchanges desk.old) (D.exchanges desk.new) }
    {
        if self.lines.line().is_empty() {
            return NextLine::Unended;
        }
        match self.ask_line(alloc, memory, desk) {
            NextLine::Reply(reply, end) => {
                NextLine::Reply(reply, Some(end.unwrap_or(AdminEnd::End)))
            }
            other => other,
        }
    }
}
