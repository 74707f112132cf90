//! What admin sessions ask of connections, and the slots in which sessions wait for the answers.
//!
//! A connection belongs to its loop. The main thread begins a request in the slot of its session,
//! leaves it in the inbox of that loop, and wakes the loop, which carries it out between two of its
//! turns, puts the answer into the slot, and wakes the main thread. So each request that a loop has
//! taken is answered once, also where its connection has ended meanwhile, and a connection that ends
//! looks for nobody who waits.
//!
//! Each request has a number of its own, which is never given again. The answer to a request for
//! which its session doesn't wait any more, as it has ended, is dropped.

ghost use Rattle.std.specs.Prelude.{◌≡◌, ◌↔◌, true, false, IfOk, IfErr, IfSome, IfNone};
ghost use Rattle.relay_shared.specs.Requests.{NobodyWaits, CannotBegin, HasAsked, HasAnswer};
ghost use Rattle.relay_shared.specs.Requests.{Does, Began, Answered, Took, Withdrew};
ghost use Rattle.relay_shared.specs.Requests.{SlotSays, ticket_place, ticket_number};
ghost use Rattle.relay_shared.specs.Requests.{unknown_answer};

use crate::index::Gone;
use base_types::OutOfMemory;
use deadline_core::Deadline;
use relay_core::MAX_SESSIONS;
use rwloops::Fault;
use std::alloc::Global;

/// What is asked of a side of a connection.
#[derive(Clone, Copy)]
pub enum Asks {
    /// To end the connection, with both its sides.
    Close,
    /// To let this side end the read and the write that it has begun, and begin none.
    Drain,
    /// To set the deadline of this side's reads and writes, which was asked at the moment `now`.
    Deadline { deadline: Deadline, now: u64 },
}

/// A question to the loop of a connection.
#[derive(Clone, Copy)]
pub struct Question {
    /// The id of the connection on the side that is asked.
    pub id: u64,
    /// The token of the connection's task on that side.
    pub token: u64,
    pub asks: Asks,
}

/// What came of a request, by what was asked.
#[derive(Clone, Copy, Debug, PartialEq, Eq, Drop)]
pub enum Answer {
    /// That the connection has ended; none where there was no such connection any more.
    Close(Option<Gone>),
    /// What the drain told; none where there was no such connection any more.
    Drain(Option<Result<(), Fault>>),
    /// The same of the call that sets a deadline.
    Deadline(Option<Result<(), Fault>>),
}

impl Asks {
    /// The answer where there is no such connection any more.
    pub fn unknown(self) -> Answer
        ensures { result ≡ unknown_answer self }
    {
        match self {
            Asks::Close => Answer::Close(None),
            Asks::Drain => Answer::Drain(None),
            Asks::Deadline { .. } => Answer::Deadline(None),
        }
    }
}

/// That an answer is owed to a session: to its request of this number. It can't be dropped or
/// copied. It is spent by the answer, or where the request reaches no loop.
pub struct Ticket {
    place: usize,
    number: u64,
}

/// A request, which is to be answered.
pub struct Request {
    pub ticket: Ticket,
    pub question: Question,
}

/// A request as it lies in an inbox, where it may be left as the relay ends.
#[derive(Clone, Copy)]
pub struct Posted {
    place: usize,
    number: u64,
    question: Question,
}

/// What a session waits for.
#[derive(Clone, Copy, Debug, PartialEq, Eq, Drop)]
pub enum Slot {
    /// Nothing.
    Free,
    /// The answer to the request of this number.
    Asked(u64),
    /// That it takes this answer.
    Answered(Answer),
}

/// The slots of all sessions, by their places.
#[derive(Drop)]
pub struct Slots {
    slots: Vec<Slot>,
    next: u64,
}

impl Request {
    /// The same in an inbox.
    pub(crate) fn post(self) -> Posted
        ensures place { result.place ≡ ticket_place self.ticket }
        ensures number { result.number ≡ ticket_number self.ticket }
        ensures question { result.question ≡ self.question }
    {
        let Request { ticket, question } = self;
        let Ticket { place, number } = ticket;
        Posted {
            place,
            number,
            question,
        }
    }
}

impl Posted {
    /// The same, which is to be answered from then on.
    pub(crate) fn taken(self) -> Request
        ensures place { ticket_place result.ticket ≡ self.place }
        ensures number { ticket_number result.ticket ≡ self.number }
        ensures question { result.question ≡ self.question }
    {
        let Posted {
            place,
            number,
            question,
        } = self;
        Request {
            ticket: Ticket { place, number },
            question,
        }
    }
}

impl Slots {
    /// Nobody waits.
    pub fn none(alloc: Global) -> Result<Slots, OutOfMemory>
        ensures none { IfOk result NobodyWaits }
    {
        let mut slots = Vec::new(alloc);
        for _ in 0..MAX_SESSIONS {
            slots.push(Slot::Free)?;
        }
        Ok(Slots { slots, next: 0 })
    }

    /// Begins a request of the session at this place. What it waited for before is answered to
    /// nobody. It is refused where there is no such place, or the last number was given.
    pub fn begin(&mut self, place: usize) -> Option<Ticket>
        ensures place { IfSome result (λ ticket. ticket_place ticket ≡ place) }
        ensures begun { IfSome result (λ ticket.
            Does (Began place (ticket_number ticket)) self.old self.new) }
        ensures refused { IfNone result (CannotBegin self.old place) }
        ensures kept { IfNone result (self.new ≡ self.old) }
    {
        let number = self.next;
        let next = number.checked_add(1)?;
        let slot = self.slots.get_mut(place)?;
        *slot = Slot::Asked(number);
        self.next = next;
        Some(Ticket { place, number })
    }

    // Whether the session at this place waits for the answer to the request of this number.
    fn has_asked(&self, place: usize, number: u64) -> bool
        ensures { result ≡ true ↔ HasAsked self.now place number }
    {
        match self.slots.get(place) {
            Some(slot) => *slot == Slot::Asked(number),
            None => false,
        }
    }

    // Has the slot at a place say this, if there is one.
    fn put(&mut self, place: usize, now: Slot)
        ensures put { SlotSays self.old self.new place now }
    {
        if let Some(slot) = self.slots.get_mut(place) {
            *slot = now;
        }
    }

    /// Gives the answer to a request, and says whether its session waits for that; else nothing
    /// changes.
    pub fn answer(&mut self, ticket: Ticket, answer: Answer) -> bool
        ensures waits { result ≡ true
            ↔ HasAsked self.old (ticket_place ticket) (ticket_number ticket) }
        ensures answered { result ≡ true →
            Does (Answered (ticket_place ticket) (ticket_number ticket) answer) self.old self.new }
        ensures late { result ≡ false → self.new ≡ self.old }
    {
        let Ticket { place, number } = ticket;
        if !self.has_asked(place, number) {
            return false;
        }
        self.put(place, Slot::Answered(answer));
        true
    }

    /// Takes the answer that the session at this place has, if it has one; else nothing changes.
    pub fn take(&mut self, place: usize) -> Option<Answer>
        ensures taken { IfSome result (λ answer. Does (Took place answer) self.old self.new) }
        ensures none { IfNone result ((answer : Answer) → HasAnswer self.old place answer → ⊥) }
        ensures kept { IfNone result (self.new ≡ self.old) }
    {
        let answer = match *self.slots.get(place)? {
            Slot::Answered(answer) => answer,
            _ => return None,
        };
        self.put(place, Slot::Free);
        Some(answer)
    }

    /// The session at this place waits for nothing more.
    pub fn withdraw(&mut self, place: usize)
        ensures { Does (Withdrew place) self.old self.new }
    {
        self.put(place, Slot::Free);
    }

    /// A request that reached no loop is taken back: its session waits for nothing more.
    pub fn take_back(&mut self, request: Request)
        ensures { Does (Withdrew (ticket_place request.ticket)) self.old self.new }
    {
        let Request {
            ticket,
            question: _,
        } = request;
        let Ticket { place, number: _ } = ticket;
        self.withdraw(place);
    }
}
