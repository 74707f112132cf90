//! The close: one load and at most one exchange a call.

ghost use Rattle.std.specs.Prelude.{◌≡◌};
ghost use Rattle.lockword.specs.TransitionOutcomes.{IsSeatOf, AnswersClose};
ghost use Rattle.lockword.specs.Places.{seat_place, owed_by};

use crate::holders::{Close, Closing, LockWord, Seat};
use crate::transitions::{Advance, SetClosed};
use base_types::Dir;
use lockword_core::{After, Kind};

impl<R: Drop, W: Drop> LockWord<R, W> {
    /// Closes the word, takes a reference, and takes over the signals of all waiters, as
    /// `increfAndClose` of Go's `fd_mutex.go`; where Go panics this answers `TooMany`. A draining
    /// word is closed as any other, and stays draining.
    pub fn try_close(&self, seat: Seat<R, W>) -> Close<R, W>
        requires { IsSeatOf self.now (seat_place seat) }
        ensures { AnswersClose (seat_place seat) result }
    {
        let Seat { mut place } = seat;
        match self.try_step::<SetClosed>(&mut place, Kind::Close) {
            Advance::Done(After::Closing { read, write }) => Close::Closing(Closing {
                place,
                owed_read: read,
                owed_write: write,
            }),
            Advance::Done(_) | Advance::Draining => unreachable!(),
            Advance::Closed => Close::Closed(Seat { place }),
            Advance::TooMany(word) => Close::TooMany(Seat { place }, word),
            Advance::Lost => Close::Lost(Seat { place }),
        }
    }
}

impl<R, W> Closing<R, W> {
    /// The signals that this closer still owes to the waiters of a direction.
    pub fn owed(&self, dir: Dir) -> u32
        ensures { result ≡ owed_by self.now dir }
    {
        match dir {
            Dir::Read => self.owed_read,
            Dir::Write => self.owed_write,
        }
    }
}
