//! A session at a desk that tells what it was asked: its list is the one whose transcript the
//! replies are.

ghost use Rattle.std.specs.Prelude.{◌≡◌, ◌∷◌, [], true, None, Some, IsTrue};
ghost use Rattle.relay_admin.specs.admin.Later.{LastLineComesTo, NextLineComesTo};
ghost use Rattle.relay_admin.specs.admin.Parts.{PartComes, left_of};
ghost use Rattle.relay_admin.specs.admin.Reply.{AddsExchanges};
ghost use Rattle.admin_tests.specs.Recorded.{exchange_of, exchanges_of, told_where};

use relay_admin::{
    AdminEnd, AdminSession, CloseAnswer, Command, DeskAnswer, LineReply, Listing, NextLine, Part,
    ReloadAnswer, SessionDesk, Shown, ShownTarget, SteerAnswer, TargetAnswer, TargetOrder,
    TotalBytes, line_reply_to,
};
use std::alloc::{AllocError, Global};

/// Tells its totals, which rise by 7 a question, and its looks, at each of which nothing stands;
/// answers each close, drain and deadline later. Whatever else it is asked, it stops telling.
#[derive(Drop)]
struct TellingDesk {
    /// Whether it was a look, and the id, or the bytes up.
    asked: Vec<(bool, u64)>,
    is_whole: bool,
    up: u64,
}

impl TellingDesk {
    fn keep(&mut self, is_look: bool, number: u64)
        ensures { AddsExchanges (told_where self.old.is_whole self.old.asked.items)
            (told_where self.new.is_whole self.new.asked.items)
            (exchange_of is_look number ∷ []) }
    {
        if self.asked.push((is_look, number)).is_err() {
            self.is_whole = false;
        }
    }
}

impl SessionDesk for TellingDesk {
    ghost exchanges = { λ desk. told_where desk.is_whole desk.asked.items };

    fn ids(&mut self, alloc: Global) -> Result<Vec<u64>, AllocError> {
        self.is_whole = false;
        Ok(Vec::new(alloc))
    }

    fn totals(&mut self) -> TotalBytes {
        let up = self.up.saturating_add(7);
        self.up = up;
        self.keep(false, up);
        TotalBytes { up, down: 0 }
    }

    fn close(&mut self, _id: u64) -> Option<CloseAnswer> {
        None
    }

    fn drain(&mut self, _id: u64) -> Option<SteerAnswer> {
        None
    }

    fn deadline(
        &mut self,
        _alloc: Global,
        _id: u64,
        _after_ms: Option<u32>,
    ) -> Option<SteerAnswer> {
        None
    }

    fn show(&mut self, _id: u64) -> Option<Shown> {
        self.is_whole = false;
        None
    }

    fn ids_to_show(&mut self, alloc: Global) -> Result<Vec<u64>, AllocError> {
        self.is_whole = false;
        Ok(Vec::new(alloc))
    }

    fn look(&mut self, id: u64) -> Option<Shown> {
        self.keep(true, id);
        None
    }

    fn reload(&mut self, _alloc: Global) -> ReloadAnswer {
        self.is_whole = false;
        ReloadAnswer::Finishing
    }

    fn finish(&mut self, _after_ms: u64) {
        self.is_whole = false;
    }

    fn targets_to_show(&mut self, alloc: Global) -> Result<Vec<u64>, AllocError> {
        self.is_whole = false;
        Ok(Vec::new(alloc))
    }

    fn look_at_target(&mut self, _number: u64) -> Option<ShownTarget> {
        self.is_whole = false;
        None
    }

    fn set_target(&mut self, _order: TargetOrder) -> TargetAnswer {
        self.is_whole = false;
        TargetAnswer::Fine
    }
}

// What the contract of a session says of its next line at such a desk.
fn next_told(session: &mut AdminSession, alloc: Global, desk: &mut TellingDesk) -> NextLine<Global>
    requires free { session.old.held ≡ None }
    requires whole { desk.old.is_whole ≡ true }
    ensures { IsTrue desk.new.is_whole
        → NextLineComesTo result session.old.dialogue session.new.dialogue
        (Some (exchanges_of desk.old.asked.items)) (Some (exchanges_of desk.new.asked.items)) }
{
    session.next_reply(alloc, alloc, desk)
}

// The same of a last line without its line feed.
fn last_told(session: &mut AdminSession, alloc: Global, desk: &mut TellingDesk) -> NextLine<Global>
    requires free { session.old.held ≡ None }
    requires whole { desk.old.is_whole ≡ true }
    ensures { IsTrue desk.new.is_whole
        → LastLineComesTo result session.old.dialogue session.new.dialogue
        (Some (exchanges_of desk.old.asked.items)) (Some (exchanges_of desk.new.asked.items)) }
{
    session.last_reply(alloc, alloc, desk)
}

// The same of the next part of a listing.
fn part_told(listing: &mut Listing, alloc: Global, desk: &mut TellingDesk) -> Part<Global>
    requires whole { desk.old.is_whole ≡ true }
    ensures { IsTrue desk.new.is_whole → PartComes result (left_of listing.old) (left_of listing.new)
        (Some (exchanges_of desk.old.asked.items)) (Some (exchanges_of desk.new.asked.items)) }
{
    listing.next_part(alloc, desk)
}

/// Whether a reply is this text.
fn is_text(reply: &LineReply<Global>, text: &str) -> bool {
    match reply {
        LineReply::Whole(reply) => reply.as_slice() == text.as_bytes(),
        LineReply::Each(_) => false,
    }
}

/// What comes of a text: a reply, or none, since the line is held.
fn comes_of(alloc: Global, desk: &mut TellingDesk, text: &str) -> Option<LineReply<Global>>
    requires whole { desk.old.is_whole ≡ true }
{
    let mut session = AdminSession::new();
    session.take(text.as_bytes());
    match next_told(&mut session, alloc, desk) {
        NextLine::Reply(reply, _) => return Some(reply),
        NextLine::Held(_) => return None,
        NextLine::Unended => {}
    }
    if session.is_held() || !desk.is_whole {
        return None;
    }
    match last_told(&mut session, alloc, desk) {
        NextLine::Reply(reply, _) => Some(reply),
        _ => None,
    }
}

/// A text, the reply to its first line, if it has one, and what the desk keeps of it.
const ROWS: &[(&str, Option<&str>, &[(bool, u64)])] = &[
    (
        "totals\ntotals\n",
        Some("totals up 7 down 0\n"),
        &[(false, 7)],
    ),
    ("totals", Some("totals up 7 down 0\n"), &[(false, 7)]),
    ("close 5\n", None, &[]),
    ("frob\n", Some("error 400 bad command\n"), &[]),
];

fn goes(alloc: Global, row: &(&str, Option<&str>, &[(bool, u64)])) -> bool {
    let mut desk = TellingDesk {
        asked: Vec::new(alloc),
        is_whole: true,
        up: 0,
    };
    let is_so = match (comes_of(alloc, &mut desk, row.0), row.1) {
        (Some(reply), Some(text)) => is_text(&reply, text),
        (None, None) => true,
        _ => false,
    };
    is_so && desk.asked.as_slice() == row.2
}

#[test]
fn a_telling_desk_keeps_what_the_replies_say(rt: HostRuntime) {
    for row in ROWS {
        assert!(rt; goes(rt.alloc(), row), "{}", row.0);
    }
}

/// What a desk keeps of the parts of a listing of these ids, at none of which anything stands.
fn looks_at(alloc: Global, ids: &[u64]) -> Option<Vec<(bool, u64)>> {
    let ids = Vec::from_slice(alloc, ids).ok()?;
    let mut desk = TellingDesk {
        asked: Vec::new(alloc),
        is_whole: true,
        up: 0,
    };
    let LineReply::Each(listing) = line_reply_to(alloc, &Command::ShowAll, DeskAnswer::Ids(ids))
    else {
        return None;
    };
    let mut listing = listing;
    match part_told(&mut listing, alloc, &mut desk) {
        Part::Gone => Some(desk.asked),
        _ => None,
    }
}

#[test]
fn a_part_of_a_listing_looks_once(rt: HostRuntime) {
    let looks = looks_at(rt.alloc(), &[4, 9]).expect(&rt, "memory");
    assert!(rt; looks.as_slice() == [(true, 4)].as_slice());
}
