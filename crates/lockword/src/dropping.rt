//! A reference that is given back, also the closer's: one subtraction, which is never lost. The
//! word that it found decides what is left.

ghost use Rattle.std.specs.Prelude.{◌≡◌, true, []};
ghost use Rattle.base_types.specs.declared.direction.Dir.TheVariants.{Read, Write};
ghost use Rattle.lockword_core.specs.declared.stake.Op.TheVariants as op;
ghost use Rattle.lockword_core.specs.Transition.{allows};
ghost use Rattle.lockword.specs.Dropping.{Decides, IsDecided, Leaves, LeavesClosed};
ghost use Rattle.lockword.specs.Places.{ref_place, closing_place, owed_by};
ghost use Rattle.lockword.specs.Steps.{Came};
ghost use Rattle.lockword.specs.TransitionOutcomes.{IsSeatOf};

use crate::holders::{Closing, Freed, Last, LockWord, Place, Ref, Seat};
use crate::shared_rule::STATE;
use crate::transitions::Subtract;
use lockword_core::{After, Kind, REFERENCE, word_step};

impl<R: Drop, W: Drop> LockWord<R, W> {
    /// Subtracts a reference, and says what the word that was found makes of it.
    fn subtract_reference(&self, place: &mut Place<R, W>) -> After
        requires word { place.old.table_id ≡ self.now.table.shared.table_id }
        requires allowed { allows place.old.me.0.stake op.Decref ≡ true }
        ensures word { place.new.table_id ≡ place.old.table_id }
        ensures step { Came Kind.Decref result place.old place.new }
        ensures decided { Decides place.old place.new result }
    {
        let found = self
            .table
            .shared
            .fetch_sub::<Subtract>(place, STATE, REFERENCE);
        let Ok((_, after)) = word_step(found, Kind::Decref) else {
            unreachable!()
        };
        after
    }

    /// Gives the reference of a seat back.
    fn give_back(&self, place: Place<R, W>) -> Freed<R, W>
        requires word { place.table_id ≡ self.now.table.shared.table_id }
        requires allowed { allows place.me.0.stake op.Decref ≡ true }
        requires no_slots { place.me.1 ≡ [] }
        ensures left { Leaves place result }
        ensures decided { IsDecided place result }
    {
        let mut place = place;
        match self.subtract_reference(&mut place) {
            After::Last => Freed::Last(Last { place }),
            _ => Freed::Kept(Seat { place }),
        }
    }

    /// Gives a reference back, as `decref` of Go's `fd_mutex.go`.
    pub fn drop_ref(&self, held: Ref<R, W>) -> Freed<R, W>
        requires { IsSeatOf self.now (ref_place held) }
        ensures left { Leaves (ref_place held) result }
        ensures decided { IsDecided (ref_place held) result }
    {
        let Ref { place } = held;
        self.give_back(place)
    }

    /// Gives the closer's reference back, once it owes no signal.
    pub fn drop_closing(&self, closing: Closing<R, W>) -> Freed<R, W>
        requires word { IsSeatOf self.now (closing_place closing) }
        requires no_reader_owed { owed_by closing Read ≡ 0 }
        requires no_writer_owed { owed_by closing Write ≡ 0 }
        ensures left { LeavesClosed (closing_place closing) result }
        ensures decided { IsDecided (closing_place closing) result }
    {
        let Closing {
            place: closer,
            owed_read: _,
            owed_write: _,
        } = closing;
        self.give_back(closer)
    }
}
