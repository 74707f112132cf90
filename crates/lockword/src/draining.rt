//! The drain: one load and at most one exchange a call.

ghost use Rattle.std.specs.Prelude.{◌≡◌, ◌<◌};
ghost use Rattle.lockword.specs.TransitionOutcomes.{IsSeatOf, AnswersDrain, AnswersSignalDrains};
ghost use Rattle.lockword.specs.Places.{seat_place, drains_place, drains_owed};

use crate::holders::{Drain, Drains, LockWord, Seat, SignalDrains};
use crate::signals::{SignalTry, one_less};
use crate::transitions::{Advance, GiveSignal, SetDraining};
use base_types::Dir;
use lockword_core::{After, Kind};

impl<R: Drop, W: Drop> LockWord<R, W> {
    /// Sets the drain flag for good, and takes over the signals of all waiters: from then on nobody
    /// takes a reference, a lock or a place in a queue, what was taken ends as ever, and a close
    /// still works. Go has no such call: this is this project's own, after the form of
    /// `increfAndClose`. It takes no reference, so it meets no limit.
    pub fn try_drain(&self, seat: Seat<R, W>) -> Drain<R, W>
        requires { IsSeatOf self.now (seat_place seat) }
        ensures { AnswersDrain (seat_place seat) result }
    {
        let Seat { mut place } = seat;
        match self.try_step::<SetDraining>(&mut place, Kind::Drain) {
            Advance::Done(After::Drained { read, write }) => {
                if read == 0 && write == 0 {
                    Drain::Drained(Seat { place })
                } else {
                    Drain::Owes(Drains {
                        place,
                        owed_read: read,
                        owed_write: write,
                    })
                }
            }
            Advance::Done(_) | Advance::TooMany(_) => unreachable!(),
            Advance::Closed => Drain::Closed(Seat { place }),
            Advance::Draining => Drain::Draining(Seat { place }),
            Advance::Lost => Drain::Lost(Seat { place }),
        }
    }

    /// Gives one of the signals that a drainer owes, and wakes one thread that is parked on the
    /// semaphore, as `try_signal_closing` does for a closer; the last that is owed leaves the seat
    /// alone.
    pub fn try_signal_drains(&self, drains: Drains<R, W>, dir: Dir) -> SignalDrains<R, W>
        requires word { IsSeatOf self.now (drains_place drains) }
        requires owes { 0 < drains_owed drains dir }
        ensures { AnswersSignalDrains drains dir result }
    {
        let Drains {
            mut place,
            owed_read,
            owed_write,
        } = drains;
        match self.try_change::<GiveSignal>(&mut place, dir) {
            SignalTry::Done => {
                let (owed_read, owed_write) = one_less(dir, owed_read, owed_write);
                if owed_read == 0 && owed_write == 0 {
                    SignalDrains::Signalled(Seat { place })
                } else {
                    SignalDrains::More(Drains {
                        place,
                        owed_read,
                        owed_write,
                    })
                }
            }
            SignalTry::Refused => SignalDrains::Full(Drains {
                place,
                owed_read,
                owed_write,
            }),
            SignalTry::Lost => SignalDrains::Lost(Drains {
                place,
                owed_read,
                owed_write,
            }),
        }
    }
}

impl<R, W> Drains<R, W> {
    /// The signals that this drainer still owes to the waiters of a direction.
    pub fn owed(&self, dir: Dir) -> u32
        ensures { result ≡ drains_owed self.now dir }
    {
        match dir {
            Dir::Read => self.owed_read,
            Dir::Write => self.owed_write,
        }
    }
}
