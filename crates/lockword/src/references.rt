//! Taking a reference: one load and at most one exchange.

ghost use Rattle.lockword.specs.TransitionOutcomes.{IsSeatOf, AnswersIncref};
ghost use Rattle.lockword.specs.Places.{seat_place};

use crate::holders::{Incref, LockWord, Ref, Seat};
use crate::transitions::{Advance, TakeReference};
use lockword_core::Kind;

impl<R: Drop, W: Drop> LockWord<R, W> {
    /// Takes a reference, as `incref` of Go's `fd_mutex.go`; where Go panics this answers
    /// `TooMany`. That a draining word is refused, after the test of the closed flag and before the
    /// limit, is this project's own. The refusals are told as in `try_close`: each call has an
    /// answer of its own, so each has its arms.
    pub fn try_incref(&self, seat: Seat<R, W>) -> Incref<R, W>
        requires { IsSeatOf self.now (seat_place seat) }
        ensures { AnswersIncref (seat_place seat) result }
    {
        let Seat { mut place } = seat;
        match self.try_step::<TakeReference>(&mut place, Kind::Incref) {
            Advance::Done(_) => Incref::Held(Ref { place }),
            Advance::Closed => Incref::Closed(Seat { place }),
            Advance::TooMany(word) => Incref::TooMany(Seat { place }, word),
            Advance::Lost => Incref::Lost(Seat { place }),
            Advance::Draining => Incref::Draining(Seat { place }),
        }
    }
}
