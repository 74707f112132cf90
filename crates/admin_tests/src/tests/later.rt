//! Sessions whose desk answers later: what is written before an answer comes, and what it brings.

ghost use Rattle.std.specs.Prelude.{None};

use relay_admin::{
    AdminEnd, AdminSession, CloseAnswer, LateAnswer, LineReply, NextLine, Part, ReloadAnswer,
    SessionDesk, Shown, ShownTarget, SteerAnswer, TargetAnswer, TargetOrder, TotalBytes,
};
use std::alloc::{AllocError, Global};

/// A desk that answers each close, drain and deadline later, and counts what it is asked.
#[derive(Drop)]
struct LateDesk {
    asked: u64,
}

impl LateDesk {
    fn count(&mut self) {
        self.asked = self.asked.saturating_add(1);
    }
}

impl SessionDesk for LateDesk {
    ghost exchanges = { λ _. None };

    fn ids(&mut self, alloc: Global) -> Result<Vec<u64>, AllocError> {
        self.count();
        Ok(Vec::new(alloc))
    }

    fn totals(&mut self) -> TotalBytes {
        self.count();
        TotalBytes { up: 12, down: 0 }
    }

    fn close(&mut self, _id: u64) -> Option<CloseAnswer> {
        self.count();
        None
    }

    fn drain(&mut self, _id: u64) -> Option<SteerAnswer> {
        self.count();
        None
    }

    fn deadline(
        &mut self,
        _alloc: Global,
        _id: u64,
        _after_ms: Option<u32>,
    ) -> Option<SteerAnswer> {
        self.count();
        None
    }

    fn show(&mut self, _id: u64) -> Option<Shown> {
        self.count();
        None
    }

    fn ids_to_show(&mut self, alloc: Global) -> Result<Vec<u64>, AllocError> {
        self.count();
        Ok(Vec::new(alloc))
    }

    fn look(&mut self, _id: u64) -> Option<Shown> {
        None
    }

    fn reload(&mut self, _alloc: Global) -> ReloadAnswer {
        self.count();
        ReloadAnswer::Finishing
    }

    fn finish(&mut self, _after_ms: u64) {
        self.count();
    }

    fn targets_to_show(&mut self, alloc: Global) -> Result<Vec<u64>, AllocError> {
        self.count();
        Ok(Vec::new(alloc))
    }

    fn look_at_target(&mut self, _number: u64) -> Option<ShownTarget> {
        None
    }

    fn set_target(&mut self, _order: TargetOrder) -> TargetAnswer {
        self.count();
        TargetAnswer::Fine
    }
}

/// What happens in a session, in turn.
#[derive(Clone, Copy)]
enum Deed {
    /// The client writes this.
    Writes(&'static str),
    /// The next line has this reply.
    Replies(&'static str),
    /// It has this reply, and ends the session so.
    Ends(&'static str, AdminEnd),
    /// A last line has this reply, and ends the session so.
    EndsLast(&'static str, AdminEnd),
    /// No line is whole.
    HasNoLine,
    /// There is no last line.
    HasNoLastLine,
    /// The next line is held.
    Holds,
    /// The last line is held.
    HoldsLast,
    /// The answer comes, and brings this reply.
    Brings(LateAnswer, &'static str),
    /// The answer comes, and nobody waits for it.
    IsLost(LateAnswer),
    /// So many questions were asked by now.
    Asked(u64),
}

/// Whether a reply is this text, as a whole or as its only part.
fn is_reply(alloc: Global, desk: &mut LateDesk, reply: LineReply<Global>, text: &str) -> bool {
    let listing = match reply {
        LineReply::Whole(reply) => return reply.as_slice() == text.as_bytes(),
        LineReply::Each(listing) => listing,
    };
    let mut listing = listing;
    match listing.next_part(alloc, desk) {
        Part::Last(part) => part.as_slice() == text.as_bytes(),
        _ => false,
    }
}

/// A text, and how the session ends by it, if it does.
type Want = (&'static str, Option<AdminEnd>);

fn is_next(alloc: Global, desk: &mut LateDesk, next: NextLine<Global>, want: Want) -> bool {
    match next {
        NextLine::Reply(reply, end) => end == want.1 && is_reply(alloc, desk, reply, want.0),
        _ => false,
    }
}

fn is_answered(session: &mut AdminSession, alloc: Global, answer: LateAnswer, text: &str) -> bool {
    match session.answer(alloc, answer) {
        Some((reply, None)) => { reply.as_slice() == text.as_bytes() && !session.is_held() }
        _ => false,
    }
}

/// Whether a session and its desk do this.
fn does(alloc: Global, session: &mut AdminSession, desk: &mut LateDesk, deed: Deed) -> bool {
    match deed {
        Deed::Writes(text) => session.take(text.as_bytes()) == text.len(),
        Deed::Replies(text) => {
            let next = session.next_reply(alloc, alloc, desk);
            is_next(alloc, desk, next, (text, None))
        }
        Deed::Ends(text, end) => {
            let next = session.next_reply(alloc, alloc, desk);
            is_next(alloc, desk, next, (text, Some(end)))
        }
        Deed::EndsLast(text, end) => {
            let next = session.last_reply(alloc, alloc, desk);
            is_next(alloc, desk, next, (text, Some(end)))
        }
        Deed::HasNoLine => match session.next_reply(alloc, alloc, desk) {
            NextLine::Unended => !session.is_held(),
            _ => false,
        },
        Deed::HasNoLastLine => match session.last_reply(alloc, alloc, desk) {
            NextLine::Unended => !session.is_held(),
            _ => false,
        },
        Deed::Holds => match session.next_reply(alloc, alloc, desk) {
            NextLine::Held(_) => session.is_held(),
            _ => false,
        },
        Deed::HoldsLast => match session.last_reply(alloc, alloc, desk) {
            NextLine::Held(_) => session.is_held(),
            _ => false,
        },
        Deed::Brings(answer, text) => is_answered(session, alloc, answer, text),
        Deed::IsLost(answer) => session.answer(alloc, answer).is_none(),
        Deed::Asked(count) => desk.asked == count,
    }
}

const CLOSED: LateAnswer = LateAnswer::Close(CloseAnswer::Fine);

const DRAINED: LateAnswer = LateAnswer::Drain(SteerAnswer::Draining);

const TIMED: LateAnswer = LateAnswer::Deadline(SteerAnswer::Unknown);

/// Sessions, deed by deed.
const SESSIONS: &[&[Deed]] = &[
    // nothing behind a held line is answered, and it is asked once
    &[
        Deed::Writes("totals\nclose 5\nlist\n"),
        Deed::Replies("totals up 12 down 0\n"),
        Deed::Holds,
        Deed::Holds,
        Deed::Asked(2),
        Deed::Brings(CLOSED, "ok\n"),
        Deed::Replies("ids\n"),
        Deed::Asked(3),
        Deed::HasNoLine,
    ],
    // an answer to another question is none, and a second one neither
    &[
        Deed::IsLost(CLOSED),
        Deed::Writes("drain 5\ndeadline 5 never\n"),
        Deed::Holds,
        Deed::IsLost(CLOSED),
        Deed::IsLost(TIMED),
        Deed::Holds,
        Deed::Brings(DRAINED, "error 409 draining\n"),
        Deed::IsLost(DRAINED),
        Deed::Holds,
        Deed::IsLost(DRAINED),
        Deed::Brings(TIMED, "error 404 no such connection\n"),
        Deed::Asked(2),
    ],
    // bytes that come meanwhile are kept
    &[
        Deed::Writes("close 5\n"),
        Deed::Holds,
        Deed::Writes("quit\n"),
        Deed::Holds,
        Deed::Brings(CLOSED, "ok\n"),
        Deed::Ends("ok\n", AdminEnd::Quit),
    ],
    // a last line without its line feed
    &[
        Deed::Writes("close 5"),
        Deed::HasNoLine,
        Deed::HoldsLast,
        Deed::HoldsLast,
        Deed::Holds,
        Deed::Brings(CLOSED, "ok\n"),
        Deed::HasNoLine,
        Deed::HasNoLastLine,
        Deed::Asked(1),
    ],
    // one that isn't held ends the session
    &[
        Deed::Writes("totals"),
        Deed::HasNoLine,
        Deed::EndsLast("totals up 12 down 0\n", AdminEnd::End),
    ],
];

/// The place of the first deed that isn't done, if there is one.
fn undone(alloc: Global, deeds: &[Deed]) -> Option<usize> {
    let mut session = AdminSession::new();
    let mut desk = LateDesk { asked: 0 };
    for at in 0..deeds.len() {
        if !does(alloc, &mut session, &mut desk, deeds[at]) {
            return Some(at);
        }
    }
    None
}

#[test]
fn a_held_line_is_answered_once_its_answer_comes(rt: HostRuntime) {
    for row in 0..SESSIONS.len() {
        let failed = undone(rt.alloc(), SESSIONS[row]);
        assert!(rt; failed.is_none(), "session {row}, deed {failed:?}");
    }
}
