//! When the calls of one owner give up: a plain value, without a clock or a lock, for whoever makes
//! the calls by itself, as a task of an event loop does.
//!
//! A call that begins with a moment of its own gives up then. One without keeps to what was said
//! last of its direction, by an earlier call or from outside. What was said from outside so lasts
//! until the next call with a moment of its own.
ghost use Rattle.std.specs.Prelude.{◌≡◌, ◌≤◌, ◌↔◌, ℕ, List, [], ◌∷◌, true, Some, None, IfSome};
ghost use Rattle.std.specs.Prelude.{false, if◌then◌else◌};
ghost use Rattle.deadline_core.specs.PollHistory.{passed};
ghost use Rattle.deadline_core.specs.CallHistory.{CallEvent, Begun, Answered, Told};
ghost use Rattle.deadline_core.specs.CallHistory.{HasHistory, IsNext, limit_of, is_under_way};
ghost use Rattle.deadline_core.specs.CallHistory.{moment_of};

use crate::deadline::Deadline;
use crate::moments::earlier;
use base_types::Dir;

// What is kept of one direction.
#[derive(Clone, Copy, Debug, PartialEq, Eq, Drop)]
struct CallTime {
    deadline: Deadline,
    is_under_way: bool,
}

impl CallTime {
    fn new() -> CallTime
        ensures { result ≡ record { deadline = Deadline.Never; is_under_way = false } }
    {
        CallTime {
            deadline: Deadline::Never,
            is_under_way: false,
        }
    }

    fn begin(&mut self, own: Option<u64>)
        ensures under_way { self.new.is_under_way ≡ true }
        ensures own { IfSome own (λ at. self.new.deadline ≡ Deadline.At at) }
        ensures kept { own ≡ None → self.new.deadline ≡ self.old.deadline }
    {
        self.is_under_way = true;
        if let Some(at) = own {
            self.deadline = Deadline::At(at);
        }
    }

    // The moment at which its call gives up that is under way.
    fn awaited(&self) -> Option<u64>
        ensures { result ≡ (if self.now.is_under_way then moment_of self.now.deadline else None) }
    {
        match self.deadline {
            Deadline::At(at) if self.is_under_way => Some(at),
            _ => None,
        }
    }
}

/// When the calls of one owner give up, of which one in each direction may be under way.
///
/// It stands for the list of what happened to them, newest first (`HasHistory`), and answers what
/// that list says.
#[derive(Clone, Copy, Debug, PartialEq, Eq, Drop)]
pub struct CallDeadlines {
    read: CallTime,
    write: CallTime,
}

impl CallDeadlines {
    /// No call has begun, and none will give up.
    pub fn new() -> CallDeadlines
        ensures history { HasHistory result [] }
    {
        CallDeadlines {
            read: CallTime::new(),
            write: CallTime::new(),
        }
    }

    /// A call begins in this direction, which gives up at its own moment, where it has one.
    pub fn begin(&mut self, dir: Dir, own: Option<u64>)
        ensures history { (events : List CallEvent) → HasHistory self.old events
            → HasHistory self.new (Begun dir own ∷ events) }
    {
        match dir {
            Dir::Read => self.read.begin(own),
            Dir::Write => self.write.begin(own),
        }
    }

    /// The call of this direction has its answer.
    pub fn end(&mut self, dir: Dir)
        ensures history { (events : List CallEvent) → HasHistory self.old events
            → HasHistory self.new (Answered dir ∷ events) }
    {
        match dir {
            Dir::Read => self.read.is_under_way = false,
            Dir::Write => self.write.is_under_way = false,
        }
    }

    /// The calls of this direction give up then, the one under way and those that begin without a
    /// moment of their own.
    pub fn tell(&mut self, dir: Dir, deadline: Deadline)
        ensures history { (events : List CallEvent) → HasHistory self.old events
            → HasHistory self.new (Told dir deadline ∷ events) }
    {
        match dir {
            Dir::Read => self.read.deadline = deadline,
            Dir::Write => self.write.deadline = deadline,
        }
    }

    /// Whether a call of this direction gives up at this moment.
    pub fn has_passed(&self, dir: Dir, now: u64) -> bool
        ensures passed { (events : List CallEvent) → HasHistory self.now events
            → result ≡ passed (limit_of dir events) (now ∷ []) }
    {
        match dir {
            Dir::Read => self.read.deadline.has_passed(now),
            Dir::Write => self.write.deadline.has_passed(now),
        }
    }

    /// When the calls of this direction give up.
    pub fn deadline(&self, dir: Dir) -> Deadline
        ensures said { (events : List CallEvent) → HasHistory self.now events
            → result ≡ limit_of dir events }
    {
        match dir {
            Dir::Read => self.read.deadline,
            Dir::Write => self.write.deadline,
        }
    }

    /// Whether a call of this direction is under way.
    pub fn is_under_way(&self, dir: Dir) -> bool
        ensures moved { (events : List CallEvent) → HasHistory self.now events
            → result ≡ is_under_way dir events }
    {
        match dir {
            Dir::Read => self.read.is_under_way,
            Dir::Write => self.write.is_under_way,
        }
    }

    /// The earliest moment at which a call gives up that is under way.
    pub fn next(&self) -> Option<u64>
        ensures next { (events : List CallEvent) → HasHistory self.now events
            → IsNext events result }
    {
        earlier(self.read.awaited(), self.write.awaited())
    }
}
