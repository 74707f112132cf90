//! What an admin session does: it reads, writes a reply, has a listing made, or waits for an answer.

ghost use Rattle.std.specs.Prelude.{◌≡◌, drop, false};
ghost use Rattle.relay_main.specs.Session as spec;

use relay_admin::{AdminEnd, LineReply, Listing, Part, Reply, SessionDesk};
use std::alloc::Global;

/// A reply, or a line of a listing, that is being written, and how much of it is.
#[derive(Drop)]
pub(crate) struct Writing {
    pub(crate) reply: Reply<Global>,
    pub(crate) written: usize,
}

/// What a session does. Where it ends behind what it does, it is said how.
#[derive(Drop)]
pub(crate) enum State {
    /// It reads, and has its next line answered.
    Reading,
    /// It writes the reply to a line.
    Replying(Writing, Option<AdminEnd>),
    /// It has more of a listing made, once its last line is out, if one is being written.
    Listing(Listing, Option<Writing>, Option<AdminEnd>),
    /// Its line is answered later.
    Held,
}

/// A reply or a line of which nothing is written yet.
pub(crate) fn unwritten(reply: Reply<Global>) -> Writing
    ensures reply { result.reply ≡ reply }
    ensures nothing { result.written ≡ 0 }
{
    Writing { reply, written: 0 }
}

/// What a session does that begins the reply to a line.
pub(crate) fn begun(reply: LineReply<Global>, end: Option<AdminEnd>) -> State
    ensures free { spec.is_held result ≡ false }
    ensures end { spec.end_behind result ≡ end }
    ensures whole { spec.to_write result ≡ spec.whole_text reply }
{
    match reply {
        LineReply::Whole(reply) => State::Replying(unwritten(reply), end),
        LineReply::Each(listing) => State::Listing(listing, None, end),
    }
}

/// What one does that goes on with a listing, once its next part is made.
pub(crate) fn shown_on<D: SessionDesk>(
    alloc: Global,
    desk: &mut D,
    listing: Listing,
    end: Option<AdminEnd>,
) -> State
    ensures free { spec.is_held result ≡ false }
    ensures end { spec.end_behind result ≡ end }
{
    let mut listing = listing;
    match listing.next_part(alloc, desk) {
        Part::Gone => State::Listing(listing, None, end),
        Part::Line(reply) => State::Listing(listing, Some(unwritten(reply)), end),
        Part::Last(reply) => State::Replying(unwritten(reply), end),
    }
}

/// What is left of a reply of which so much is written.
pub(crate) fn rest_of(reply: &[u8], written: usize) -> &[u8]
    ensures { result.now ≡ drop written reply.now }
{
    if written > reply.len() {
        return &[];
    }
    &reply[written..]
}
