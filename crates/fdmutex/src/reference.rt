//! References: a try to take one that was lost is made again.

ghost use Rattle.lockword_core.specs.declared.stake.Op.TheVariants as op;
ghost use Rattle.lockword_core.specs.declared.stake.Answer.TheVariants as answer;
ghost use Rattle.lockword.specs.Marks.{SameMarks};
ghost use Rattle.lockword.specs.Places.{seat_place, ref_place};
ghost use Rattle.lockword.specs.TransitionOutcomes.{IsSeatOf};
ghost use Rattle.lockword.specs.Dropping.{IsDecided, Leaves};
ghost use Rattle.fdmutex.specs.Deeds.{TakesWithoutEnd, LeavesWithoutEnd};
ghost use Rattle.fdmutex.specs.Did.{DidOrNothing, TellsHeardWord};
ghost use Rattle.fdmutex.specs.Heard.{TakesHearing, LeavesHearing};
ghost use Rattle.fdmutex.specs.Refusal.{IsReferenceFull, IsTakenOrRefused};

use crate::Refusal;
use lockword::{Freed, Incref, LockWord, Ref, Seat};
use std::sync::Wait;

/// Takes a reference. The loop is that of `close::take_over`, which says why both stand.
pub fn incref<R: Drop, W: Drop, T: Wait>(
    rt: &T,
    word: &LockWord<R, W>,
    seat: Seat<R, W>,
) -> Result<Ref<R, W>, (Seat<R, W>, Refusal)>
    requires seat { IsSeatOf word.now (seat_place seat) }
    ensures answer { IsTakenOrRefused SameMarks ref_place IsReferenceFull seat result }
    ensures no_end { TakesWithoutEnd ref_place seat result }
    ensures did { DidOrNothing op.Incref answer.Held ref_place seat result }
    ensures heard { TakesHearing ref_place seat result }
    ensures told { TellsHeardWord seat result }
{
    let mut seat = seat;
    for _ in rt.forever() {
        match word.try_incref(seat) {
            Incref::Held(held) => return Ok(held),
            Incref::Closed(back) => return Err((back, Refusal::Closed)),
            Incref::TooMany(back, found) => return Err((back, Refusal::TooMany(found))),
            Incref::Draining(back) => return Err((back, Refusal::Draining)),
            Incref::Lost(back) => seat = back,
        }
    }
    unreachable!()
}

/// Gives a reference back. It can't be lost, so that nothing is waited for.
pub fn decref<R: Drop, W: Drop>(word: &LockWord<R, W>, held: Ref<R, W>) -> Freed<R, W>
    requires seat { IsSeatOf word.now (ref_place held) }
    ensures left { Leaves (ref_place held) result }
    ensures decided { IsDecided (ref_place held) result }
    ensures no_end { LeavesWithoutEnd (ref_place held) result }
    ensures heard { LeavesHearing (ref_place held) result }
{
    word.drop_ref(held)
}
