//! Signals and wakes: one load and at most one exchange of a semaphore a call.

ghost use Rattle.std.specs.Prelude.{◌≡◌, ◌<◌, ◌-◌, true};
ghost use Rattle.base_types.specs.declared.direction.Dir.TheVariants.{Read, Write};
ghost use Rattle.lockword_core.specs.Word.{bit};
ghost use Rattle.lockword_core.specs.LockState.{is_same, owed_part};
ghost use Rattle.lockword_core.specs.Transition.{allows};
ghost use Rattle.lockword.specs.Steps.{op_at, answer_at, Signalled};
ghost use Rattle.lockword.specs.TransitionOutcomes.{IsSeatOf, AnswersSignal, AnswersSignalClosing};
ghost use Rattle.lockword.specs.TransitionOutcomes.{AnswersWake};
ghost use Rattle.lockword.specs.Places.{owing_place, closing_place, owed_by, wait_place};

use crate::directions::Direction;
use crate::holders::{
    Closing, LockWord, Owing, Place, ReadWait, Seat, Signal, SignalClosing, Waiting, Wake,
    WakeRead, WakeWrite, WriteWait,
};
use crate::shared_rule::semaphore;
use crate::transitions::{Count, GiveSignal, SignalMove, SignalStep, Signalling, TakeSignal};
use base_types::Dir;
use std::sync::Wait;

/// What a try at a semaphore came to.
pub(crate) enum SignalTry {
    Done,
    Refused,
    Lost,
}

/// The signals that are owed to readers and to writers, once one of a direction was given.
pub(crate) fn one_less(dir: Dir, owed_read: u32, owed_write: u32) -> (u32, u32)
    requires { 0 < owed_part dir owed_read owed_write }
    ensures read { result.0 ≡ owed_read - bit (is_same dir Read) }
    ensures write { result.1 ≡ owed_write - bit (is_same dir Write) }
{
    match dir {
        Dir::Read => (owed_read - 1, owed_write),
        Dir::Write => (owed_read, owed_write - 1),
    }
}

impl<R: Drop, W: Drop> LockWord<R, W> {
    /// One load of a semaphore, and at most one exchange, by which a signal is given or taken; one
    /// that is given wakes one thread that is parked on the semaphore.
    pub(crate) fn try_change<M: SignalStep>(&self, place: &mut Place<R, W>, dir: Dir) -> SignalTry
        requires word { place.old.table_id ≡ self.now.table.shared.table_id }
        requires allowed { allows place.old.me.0.stake (op_at M.way dir) ≡ true }
        ensures word { place.new.table_id ≡ place.old.table_id }
        ensures step { Signalled (op_at M.way) (answer_at M.way) dir place.old place.new result }
    {
        let shared = &self.table.shared;
        let word = semaphore(dir);
        let found = shared.load::<Count>(place, word);
        let Some(next) = M::next(found) else {
            return SignalTry::Refused;
        };
        if shared.compare_exchange::<Signalling<M>>(place, word, found, next) == found {
            if let SignalMove::Gives = M::way() {
                shared.wake_one(word);
            }
            SignalTry::Done
        } else {
            SignalTry::Lost
        }
    }

    /// Gives the signal that is owed, and wakes one thread that is parked on the semaphore.
    pub fn try_signal(&self, owing: Owing<R, W>) -> Signal<R, W>
        requires { IsSeatOf self.now (owing_place owing) }
        ensures { AnswersSignal owing result }
    {
        let Owing { mut place, dir } = owing;
        match self.try_change::<GiveSignal>(&mut place, dir) {
            SignalTry::Done => Signal::Signalled(Seat { place }),
            SignalTry::Refused => Signal::Full(Owing { place, dir }),
            SignalTry::Lost => Signal::Lost(Owing { place, dir }),
        }
    }

    /// Gives one of the signals that a closer owes, and wakes one thread that is parked on the
    /// semaphore.
    pub fn try_signal_closing(&self, closing: Closing<R, W>, dir: Dir) -> SignalClosing<R, W>
        requires word { IsSeatOf self.now (closing_place closing) }
        requires owes { 0 < owed_by closing dir }
        ensures { AnswersSignalClosing closing dir result }
    {
        let Closing {
            mut place,
            owed_read,
            owed_write,
        } = closing;
        match self.try_change::<GiveSignal>(&mut place, dir) {
            SignalTry::Done => {
                let (owed_read, owed_write) = one_less(dir, owed_read, owed_write);
                SignalClosing::Signalled(Closing {
                    place,
                    owed_read,
                    owed_write,
                })
            }
            SignalTry::Refused => SignalClosing::Full(Closing {
                place,
                owed_read,
                owed_write,
            }),
            SignalTry::Lost => SignalClosing::Lost(Closing {
                place,
                owed_read,
                owed_write,
            }),
        }
    }

    /// Takes a signal to a waiter of a direction, after which its holder has nothing and contends
    /// again.
    pub fn try_wake<D: Direction>(&self, wait: Waiting<D, R, W>) -> Wake<D, R, W>
        requires { IsSeatOf self.now (wait_place wait) }
        ensures { AnswersWake wait result }
    {
        let Waiting { mut place, marker } = wait;
        match self.try_change::<TakeSignal>(&mut place, D::dir()) {
            SignalTry::Done => Wake::Woken(Seat { place }),
            SignalTry::Refused => Wake::NotYet(Waiting { place, marker }),
            SignalTry::Lost => Wake::Lost(Waiting { place, marker }),
        }
    }

    /// Takes a signal to a reader.
    pub fn try_wake_read(&self, wait: ReadWait<R, W>) -> WakeRead<R, W>
        requires { IsSeatOf self.now (wait_place wait) }
        ensures { AnswersWake wait result }
    {
        self.try_wake(wait)
    }

    /// Takes a signal to a writer.
    pub fn try_wake_write(&self, wait: WriteWait<R, W>) -> WakeWrite<R, W>
        requires { IsSeatOf self.now (wait_place wait) }
        ensures { AnswersWake wait result }
    {
        self.try_wake(wait)
    }

    /// Sleeps while no signal is there for this direction, or returns for no reason. It changes
    /// nothing and tells nothing: try to wake, park, and try again.
    pub fn park_for_signal<T: Wait>(&self, rt: &T, dir: Dir) {
        self.table.shared.park(rt, semaphore(dir), 0);
    }
}
