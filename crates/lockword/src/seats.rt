//! The beginning of a word: a new word with its first seat, and more seats.

ghost use Rattle.std.specs.Prelude.{◌≡◌, false, [], IfOk};
ghost use Rattle.lockword.specs.Marks.{saw_closed, saw_draining, saw_done, deeds, heard_by};
ghost use Rattle.lockword.specs.Marks.{SameMarks, SameDeeds, SameHeard};
ghost use Rattle.lockword.specs.Places.{seat_place, lock_place};
ghost use Rattle.lockword.specs.Lent.{SameHalf};
ghost use Rattle.lockword.specs.TransitionOutcomes.{IsSeatOf};

use crate::directions::Guards;
use crate::holders::{Held, LockWord, Seat};
use crate::shared_rule::Half;
use crate::transitions::Another;
use atomic_table::Table;
use base_types::OutOfMemory;
use std::alloc::{AllocFailed, Global};

impl<R: Drop, W: Drop> LockWord<R, W> {
    /// A word with no holder, and its first seat. Where there is no memory the halves are dropped.
    pub fn new(
        alloc: Global,
        read: R,
        write: W,
    ) -> Result<(LockWord<R, W>, Seat<R, W>), OutOfMemory>
        ensures word { IfOk result (λ made. IsSeatOf made.0 (seat_place made.1)) }
        ensures open { IfOk result (λ made. saw_closed (seat_place made.1) ≡ false) }
        ensures undrained { IfOk result (λ made. saw_draining (seat_place made.1) ≡ false) }
        ensures not_done { IfOk result (λ made. saw_done (seat_place made.1) ≡ false) }
        ensures no_deeds { IfOk result (λ made. deeds (seat_place made.1) ≡ []) }
        ensures none_heard { IfOk result (λ made. heard_by (seat_place made.1) ≡ []) }
    {
        let mut halves = Vec::with_capacity(alloc, 2)?;
        if let Err(AllocFailed { value: _ }) = halves.push(Half::Read(read)) {
            return Err(OutOfMemory);
        }
        if let Err(AllocFailed { value: _ }) = halves.push(Half::Write(write)) {
            return Err(OutOfMemory);
        }
        match Table::new(alloc, &[0, 0, 0, 0], halves, &()) {
            Ok((table, place)) => Ok((LockWord { table }, Seat { place })),
            Err(_) => Err(OutOfMemory),
        }
    }

    /// The seat, and another that has seen the same.
    pub fn split(&self, seat: Seat<R, W>) -> (Seat<R, W>, Seat<R, W>)
        requires { IsSeatOf self.now (seat_place seat) }
        ensures first { SameMarks (seat_place seat) (seat_place result.0) }
        ensures second { SameMarks (seat_place seat) (seat_place result.1) }
        ensures same_deeds { SameDeeds (seat_place seat) (seat_place result.0) }
        ensures no_deeds { deeds (seat_place result.1) ≡ [] }
        ensures first_heard { SameHeard (seat_place seat) (seat_place result.0) }
        ensures second_heard { SameHeard (seat_place seat) (seat_place result.1) }
    {
        let Seat { mut place } = seat;
        let other = self.table.shared.split_seat::<Another>(&mut place);
        (Seat { place }, Seat { place: other })
    }

    /// The lock of a direction, which stays held, and another seat, which has nothing and has seen
    /// the same.
    pub fn split_held<D: Guards<R, W>>(&self, held: Held<D, R, W>) -> (Held<D, R, W>, Seat<R, W>)
        requires { IsSeatOf self.now (lock_place held) }
        ensures first { SameMarks (lock_place held) (lock_place result.0) }
        ensures second { SameMarks (lock_place held) (seat_place result.1) }
        ensures same_deeds { SameDeeds (lock_place held) (lock_place result.0) }
        ensures no_deeds { deeds (seat_place result.1) ≡ [] }
        ensures first_heard { SameHeard (lock_place held) (lock_place result.0) }
        ensures second_heard { SameHeard (lock_place held) (seat_place result.1) }
        ensures half { SameHalf held result.0 }
    {
        let Held { mut place, half } = held;
        let other = self.table.shared.split_seat::<Another>(&mut place);
        (Held { place, half }, Seat { place: other })
    }
}
