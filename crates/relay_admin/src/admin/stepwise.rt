//! A session that is answered a line at a time, for a program that has many at once: it reads and
//! writes itself, and waits for none. A line whose answer isn't there yet is held: nothing is written,
//! and no line behind it is answered, until its answer comes.

ghost use Rattle.std.specs.Prelude.{◌≡◌, ◌≢◌, [], true, false, length, min, take};
ghost use Rattle.std.specs.Prelude.{IfNone, IfSome, None};
ghost use Rattle.relay_admin.specs.admin.Later.{IsAnswered, LastLineComesTo, NextLineComesTo};
ghost use Rattle.relay_admin.specs.admin.Later.{TakesNoAnswer, held_by};
ghost use Rattle.relay_admin.specs.admin.Listing.{whole};
ghost use Rattle.relay_admin.specs.admin.Progress.{ahead_of, position, start};
ghost use Rattle.relay_admin.specs.admin.ReplyBytes.{bytes_of};
ghost use Rattle.stream_base.specs.declared.line_reader.TheConstants.{CHUNK_BYTES};

use crate::admin::answers::LateAnswer;
use crate::admin::command::Command;
use crate::admin::dialogue::Dialogue;
use crate::admin::end::AdminEnd;
use crate::admin::next_line::NextLine;
use crate::admin::reply::reply_to;
use crate::admin::reply_bytes::Reply;
use crate::admin::session_desk::SessionDesk;
use std::alloc::{Allocator, Global};
use std::marker::Model;

/// A session: which line it is at, what has come of that line, and the bytes that came behind it.
#[derive(Drop)]
pub struct AdminSession {
    dialogue: Dialogue,
    /// What the line asks, which is whole, if it is answered later.
    held: Option<Command>,
}

impl Model for AdminSession {
    ghost use Rattle.relay_admin.specs.admin.Later.{IsSession, Session};

    ghost Value = { Session };

    ghost view = { λ s. record { dialogue = s.dialogue; held = s.held } };

    ghost invariant = { λ s. IsSession (record { dialogue = s.dialogue; held = s.held }) };
}

impl AdminSession {
    /// A session of which nothing has come.
    pub fn new() -> AdminSession
        ensures start { position result.dialogue ≡ start }
        ensures nothing { ahead_of result.dialogue ≡ [] }
        ensures free { result.held ≡ None }
    {
        AdminSession {
            dialogue: Dialogue::new(),
            held: None,
        }
    }

    /// Takes bytes that the client sent, 4,096 of them at most, and says how many. Where bytes of
    /// before still wait it takes none: `next_reply` has to answer `NextLine::Unended` first.
    pub fn take(&mut self, bytes: &[u8]) -> usize
        ensures at { position self.new.dialogue ≡ position self.old.dialogue }
        ensures held { self.new.held ≡ self.old.held }
        ensures took { ahead_of self.old.dialogue ≡ [] → (result ≡ min (length bytes.now) CHUNK_BYTES)
            × (ahead_of self.new.dialogue ≡ take result bytes.now) }
        ensures none { ahead_of self.old.dialogue ≢ []
            → (result ≡ 0) × (ahead_of self.new.dialogue ≡ ahead_of self.old.dialogue) }
    {
        self.dialogue.take(bytes)
    }

    /// What has come of the next line. Where the reply is a listing, the next line is asked for once
    /// its last part is out. A line of more than 64 bytes ends the session, and so does line 65,536.
    /// Only a reply to ids, totals or what is shown takes memory, of `memory`; where that is refused
    /// it is `error 507 out of memory`. The desk may take memory of `alloc`. While a line is held
    /// this says so, asks nothing, and goes nowhere.
    pub fn next_reply<A: Allocator + Copy, D: SessionDesk>(
        &mut self,
        alloc: Global,
        memory: A,
        desk: &mut D,
    ) -> NextLine<A>
        ensures held { self.new.held ≡ held_by result }
        ensures stands { IfSome self.old.held (λ question. (self.new ≡ self.old)
            × (D.exchanges desk.new ≡ D.exchanges desk.old)) }
        ensures does { IfNone self.old.held (NextLineComesTo result self.old.dialogue
            self.new.dialogue (D.exchanges desk.old) (D.exchanges desk.new)) }
    {
        if let Some(question) = self.held {
            return NextLine::Held(question);
        }
        let next = self.dialogue.next_reply(alloc, memory, desk);
        self.held = next.held();
        next
    }

    /// What has come of a last line that lacks its line feed, once the client has written its last
    /// byte and `next_reply` has answered `NextLine::Unended`. Where there is no such line, this does
    /// so too, and the session ends by `AdminEnd::End`; by a reply it ends as that says. Once a line
    /// that is held has its answer, this is called again.
    pub fn last_reply<A: Allocator + Copy, D: SessionDesk>(
        &mut self,
        alloc: Global,
        memory: A,
        desk: &mut D,
    ) -> NextLine<A>
        ensures held { self.new.held ≡ held_by result }
        ensures stands { IfSome self.old.held (λ question. (self.new ≡ self.old)
            × (D.exchanges desk.new ≡ D.exchanges desk.old)) }
        ensures does { IfNone self.old.held (LastLineComesTo result self.old.dialogue
            self.new.dialogue (D.exchanges desk.old) (D.exchanges desk.new)) }
    {
        if let Some(question) = self.held {
            return NextLine::Held(question);
        }
        let next = self.dialogue.last_reply(alloc, memory, desk);
        self.held = next.held();
        next
    }

    /// Whether a line is held.
    pub fn is_held(&self) -> bool
        ensures held { result ≡ true → self.now.held ≢ None }
        ensures free { result ≡ false → self.now.held ≡ None }
    {
        self.held.is_some()
    }

    /// The reply to the line that is held, by its answer, and how the session ends by it, if it does;
    /// from then on the session goes on behind the line. None, and nothing changes, where no line is
    /// held, or the one that is asks another question.
    pub fn answer<A: Allocator + Copy>(
        &mut self,
        memory: A,
        answer: LateAnswer,
    ) -> Option<(Reply<A>, Option<AdminEnd>)>
        ensures answered { IfSome result (λ told.
            IsAnswered answer told.1 self.old self.new (whole (bytes_of told.0))) }
        ensures refused { IfNone result ((self.new ≡ self.old) × TakesNoAnswer answer self.old) }
    {
        let question = self.held?;
        if !answer.answers(&question) {
            return None;
        }
        self.held = None;
        let reply = reply_to(memory, &answer.told());
        let end = self.dialogue.go_behind_line(None);
        Some((reply, end))
    }
}
