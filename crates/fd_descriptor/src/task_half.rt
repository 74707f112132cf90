//! A half as a task of an event loop has it, in place of a handle: idle, or with a call under way.

ghost use Rattle.std.specs.Prelude.{◌≡◌};
ghost use Rattle.std.specs.Arc.{arc_value};
ghost use Rattle.lockword.specs.Marks.{marks_of as marks_at};
ghost use Rattle.lockword.specs.Places.{seat_place};
ghost use Rattle.lockword.specs.TransitionOutcomes.{IsSeatOf};
ghost use Rattle.fdmutex.specs.Deeds.{closes, drains};
ghost use Rattle.fd_descriptor.specs.HalfState.{IsAtWord, marks_held, closes_held, drains_held};
ghost use Rattle.fd_descriptor.specs.Marks.{KeepsMarks};

use crate::descriptor::Fd;
use crate::leave::give_back;
use crate::resource::Resource;
use lockword::{Guards, Held, Reading, Seat, Writing};
use std::alloc::{Allocator, Global};
use std::sync::{Arc, Wait};

/// Where the seat of a half is.
pub(crate) enum HalfState<D: Guards<R, W>, R, W> {
    /// It is free, for the next call.
    Idle(Seat<R, W>),
    /// It is in the half's lock, which the call under way has.
    UnderWay(Held<D, R, W>),
}

/// One half of a descriptor, as a task has it whose calls don't wait for the half. A call that would
/// wait is under way from then on, with its half's lock, and goes on when it is made again: a drain
/// lets it end, and a close waits for its end. A half that is let go ends it.
pub struct TaskHalf<D: Guards<X::R, X::W>, X: Resource, T: Wait + Copy, A: Allocator = Global> {
    pub(crate) rt: T,
    pub(crate) fd: Arc<Fd<X, A>, A>,
    // It isn't there only within a call.
    pub(crate) state: Option<HalfState<D, X::R, X::W>>,
    ghost seated: { IsAtWord (arc_value fd).word state },
}

/// What a task reads, or accepts from.
pub type TaskReader<X, T, A = Global> = TaskHalf<Reading, X, T, A>;

/// What a task writes to, and shuts.
pub type TaskWriter<X, T, A = Global> = TaskHalf<Writing, X, T, A>;

impl<D: Guards<X::R, X::W>, X: Resource, T: Wait + Copy, A: Allocator> TaskHalf<D, X, T, A> {
    /// Ends the call under way, if there is one: what a handle is made of is left.
    pub(crate) fn end(self) -> (Arc<Fd<X, A>, A>, Seat<X::R, X::W>)
        ensures fd { result.0 ≡ self.fd }
        ensures seat { IsSeatOf (arc_value self.fd).word (seat_place result.1) }
        ensures marks { KeepsMarks (marks_held self.state) (marks_at (seat_place result.1)) }
        ensures no_close { closes (seat_place result.1) ≡ closes_held self.state }
        ensures no_drain { drains (seat_place result.1) ≡ drains_held self.state }
    {
        let TaskHalf { rt, fd, state } = self;
        let Some(now) = state else { unreachable!() };
        let left = match now {
            HalfState::Idle(free) => free,
            HalfState::UnderWay(held) => give_back::<D, X, T>(&rt, &fd.word, held),
        };
        (fd, left)
    }
}

impl<D: Guards<X::R, X::W>, X: Resource, T: Wait + Copy, A: Allocator> Drop
    for TaskHalf<D, X, T, A> {
    // A task that is dropped in mid-call must not keep its lock: a close would wait for good.
    fn drop(self) {
        let _ = self.end();
    }
}
