//! The drain. Who drains takes over the signals of all waiters, as a closer does, and gives them
//! before it returns. The woken contend again, and find the word draining.

ghost use Rattle.std.specs.Prelude.{IfOk, IfErr};
ghost use Rattle.lockword.specs.Marks.{NowDraining, SameDeeds, HeardOn};
ghost use Rattle.lockword.specs.Places.{seat_place, drains_place};
ghost use Rattle.lockword.specs.TransitionOutcomes.{IsSeatOf};
ghost use Rattle.fdmutex.specs.Deeds.{MadeNoEnd, MadeTheDrain};
ghost use Rattle.fdmutex.specs.Heard.{TakesHearing};
ghost use Rattle.fdmutex.specs.Refusal.{IsNever, IsTakenOrRefused};

use crate::Refusal;
use base_types::Dir;
use lockword::{Drain, Drains, LockWord, Seat, SignalDrains};
use std::sync::Wait;

/// Gives all signals of both directions, after which the drainer has nothing. It stands beside the
/// closer's `signal_all`, which gives a value back that owes none. A semaphore at its limit is
/// tried again: only the drainer can give what it owes, and each waiter that wakes makes room.
fn signal_both<R: Drop, W: Drop, T: Wait>(
    rt: &T,
    word: &LockWord<R, W>,
    drains: Drains<R, W>,
) -> Seat<R, W>
    requires seat { IsSeatOf word.now (drains_place drains) }
    ensures draining { NowDraining (drains_place drains) (seat_place result) }
    ensures no_end { MadeNoEnd (drains_place drains) (seat_place result) }
    ensures heard { HeardOn (drains_place drains) (seat_place result) }
{
    let mut drains = drains;
    for _ in rt.forever() {
        let dir = if drains.owed(Dir::Read) > 0 {
            Dir::Read
        } else {
            Dir::Write
        };
        match word.try_signal_drains(drains, dir) {
            SignalDrains::Signalled(seat) => return seat,
            SignalDrains::More(back) | SignalDrains::Full(back) | SignalDrains::Lost(back) => {
                drains = back
            }
        }
    }
    unreachable!()
}

/// Sets the drain flag, for good, and gives the signals of all waiters: from then on nobody takes a
/// reference or a lock, and who has one gives it back as before. It takes no reference, so that it
/// meets no limit. Refused it is as `Closed`, or as `Draining` where another drained before. Go has
/// no such call: the rule is this project's own.
pub fn drain<R: Drop, W: Drop, T: Wait>(
    rt: &T,
    word: &LockWord<R, W>,
    seat: Seat<R, W>,
) -> Result<Seat<R, W>, (Seat<R, W>, Refusal)>
    requires seat { IsSeatOf word.now (seat_place seat) }
    ensures answer { IsTakenOrRefused NowDraining seat_place IsNever seat result }
    ensures made { IfOk result (λ after. MadeTheDrain (seat_place seat) (seat_place after)) }
    ensures refused { IfErr result (λ back. SameDeeds (seat_place seat) (seat_place back.0)) }
    ensures heard { TakesHearing seat_place seat result }
{
    let mut seat = seat;
    for _ in rt.forever() {
        match word.try_drain(seat) {
            Drain::Drained(drained) => return Ok(drained),
            Drain::Owes(drains) => return Ok(signal_both(rt, word, drains)),
            Drain::Closed(back) => return Err((back, Refusal::Closed)),
            Drain::Draining(back) => return Err((back, Refusal::Draining)),
            Drain::Lost(back) => seat = back,
        }
    }
    unreachable!()
}
