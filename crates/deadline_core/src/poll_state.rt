//! Whether a read or a write of one descriptor may go on: closing, expired, or ready.
//!
//! Each direction has a `Side` of its own; `closing` is of both. `closing` is never cleared,
//! `expired` is cleared by a `set` alone, `ready` by a `prepare` answered Ok and a `look` answered
//! `Go`.
ghost use Rattle.std.specs.Prelude.{◌≡◌, ◌||◌, ◌&&◌, not, List, [], ◌∷◌, false, true, is_err};
ghost use Rattle.deadline_core.specs.PollHistory.{Call, Prepared, Looked, Readied, DeadlineSet};
ghost use Rattle.deadline_core.specs.PollHistory.{Ticked, Evicted, StandsFor};
ghost use Rattle.deadline_core.specs.PollHistory.{prepare_answer, look_answer, set_answer, closing};
ghost use Rattle.deadline_core.specs.PollHistory.{passed, why_refused, ok_unless, look_at, is_go};

use crate::deadline::{Deadline, Dirs};
use crate::refusal::Refusal;
use base_types::Dir;

/// What a caller finds who looks whether waiting is over.
#[derive(Clone, Copy, Debug, PartialEq, Eq)]
pub enum Look {
    /// It may not go on, for this reason.
    Refused(Refusal),
    /// The direction was ready: try again. The notice is used up.
    Go,
    /// Nothing came: wait on.
    Park,
}

// What is kept of one direction.
#[derive(Debug, Drop)]
struct Side {
    deadline: Deadline,
    expired: bool,
    ready: bool,
}

impl Side {
    fn new() -> Side
        ensures { result ≡ record { deadline = Deadline.Never; expired = false; ready = false } }
    {
        Side {
            deadline: Deadline::Never,
            expired: false,
            ready: false,
        }
    }

    fn refusal(&self, closing: bool) -> Option<Refusal>
        ensures { result ≡ why_refused closing self.now.expired }
    {
        if closing {
            Some(Refusal::Closed)
        } else if self.expired {
            Some(Refusal::DeadlineExceeded)
        } else {
            None
        }
    }

    fn prepare(&mut self, closing: bool) -> Result<(), Refusal>
        ensures answer { result ≡ ok_unless (why_refused closing self.old.expired) }
        ensures side { self.new ≡ record self.old { ready = self.old.ready && is_err result } }
    {
        match self.refusal(closing) {
            Some(refusal) => Err(refusal),
            None => {
                self.ready = false;
                Ok(())
            }
        }
    }

    fn look(&mut self, closing: bool) -> Look
        ensures answer { result ≡ look_at (why_refused closing self.old.expired) self.old.ready }
        ensures side { self.new ≡ record self.old { ready = self.old.ready && not (is_go result) } }
    {
        match self.refusal(closing) {
            Some(refusal) => Look::Refused(refusal),
            None if self.ready => {
                self.ready = false;
                Look::Go
            }
            None => Look::Park,
        }
    }

    fn set(&mut self, deadline: Deadline, now: u64)
        ensures { let has_passed = passed deadline (now ∷ []) in
            self.new ≡ record self.old { deadline = deadline; expired = has_passed } }
    {
        self.deadline = deadline;
        self.expired = deadline.has_passed(now);
    }

    fn tick(&mut self, now: u64)
        ensures { let has_passed = passed self.old.deadline (now ∷ []) in
            self.new ≡ record self.old { expired = has_passed || self.old.expired } }
    {
        if self.deadline.has_passed(now) {
            self.expired = true;
        }
    }
}

/// The deadlines and the readiness of one descriptor, as Go's poll descriptor keeps them.
///
/// It stands for the list of the calls made on it, newest first (`StandsFor`), and answers what
/// that list says. Nothing here waits or reads a clock. Closing and expiry are tested again after
/// every wake-up, also where readiness woke the caller: that rule is this project's own.
#[derive(Debug, Drop)]
pub struct PollState {
    closing: bool,
    read: Side,
    write: Side,
}

impl PollState {
    /// A state with no deadline and no notice, that isn't closing.
    pub fn new() -> PollState
        ensures stands { StandsFor result [] }
    {
        PollState {
            closing: false,
            read: Side::new(),
            write: Side::new(),
        }
    }

    /// Whether it is closing. What is closing stays so.
    pub fn is_closing(&self) -> bool
        ensures answer { (calls : List Call) → StandsFor self.now calls → result ≡ closing calls }
    {
        self.closing
    }

    /// Begins a read or a write: answers why it is refused, or forgets the notice that an earlier
    /// one left.
    ///
    /// `Closed` comes once the state is closing, else `DeadlineExceeded` while the direction is
    /// expired; a refused call keeps the notice.
    pub fn prepare(&mut self, dir: Dir) -> Result<(), Refusal>
        ensures answer { (calls : List Call) → StandsFor self.old calls
            → result ≡ prepare_answer dir calls }
        ensures stands { (calls : List Call) → StandsFor self.old calls
            → StandsFor self.new (Prepared dir result ∷ calls) }
    {
        match dir {
            Dir::Read => self.read.prepare(self.closing),
            Dir::Write => self.write.prepare(self.closing),
        }
    }

    /// Looks whether a read or a write that waits may go on; `Go` uses the notice up.
    ///
    /// The tests are those of `prepare`, in the same order, and come before the notice.
    pub fn look(&mut self, dir: Dir) -> Look
        ensures answer { (calls : List Call) → StandsFor self.old calls
            → result ≡ look_answer dir calls }
        ensures stands { (calls : List Call) → StandsFor self.old calls
            → StandsFor self.new (Looked dir result ∷ calls) }
    {
        match dir {
            Dir::Read => self.read.look(self.closing),
            Dir::Write => self.write.look(self.closing),
        }
    }

    /// Notes that a direction is ready. One notice stands at a time.
    pub fn ready(&mut self, dir: Dir)
        ensures stands { (calls : List Call) → StandsFor self.old calls
            → StandsFor self.new (Readied dir ∷ calls) }
    {
        match dir {
            Dir::Read => self.read.ready = true,
            Dir::Write => self.write.ready = true,
        }
    }

    /// Sets the deadline of these directions at the moment `now`; one that has come by then is
    /// expired at once, any other is not.
    ///
    /// A state that is closing answers `Closed` and keeps its deadlines, which is this project's
    /// own rule.
    pub fn set(&mut self, dirs: Dirs, deadline: Deadline, now: u64) -> Result<(), Refusal>
        ensures answer { (calls : List Call) → StandsFor self.old calls
            → result ≡ set_answer calls }
        ensures stands { (calls : List Call) → StandsFor self.old calls
            → StandsFor self.new (DeadlineSet dirs deadline now result ∷ calls) }
    {
        if self.closing {
            return Err(Refusal::Closed);
        }
        match dirs {
            Dirs::Read => self.read.set(deadline, now),
            Dirs::Write => self.write.set(deadline, now),
            Dirs::Both => {
                self.read.set(deadline, now);
                self.write.set(deadline, now);
            }
        }
        Ok(())
    }

    /// Shows the state the clock: a direction whose deadline is at most `now` is expired until its
    /// deadline is next set.
    pub fn tick(&mut self, now: u64)
        ensures stands { (calls : List Call) → StandsFor self.old calls
            → StandsFor self.new (Ticked now ∷ calls) }
    {
        self.read.tick(now);
        self.write.tick(now);
    }

    /// Makes the state closing, for good.
    pub fn evict(&mut self)
        ensures stands { (calls : List Call) → StandsFor self.old calls
            → StandsFor self.new (Evicted ∷ calls) }
    {
        self.closing = true;
    }
}
