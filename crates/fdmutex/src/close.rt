//! The close. Who closes takes over the signals of all waiters, and gives them before it returns.
//! The woken contend again, and find the word closed.

ghost use Rattle.std.specs.Prelude.{◌≡◌, false, IfOk, IfErr};
ghost use Rattle.base_types.specs.declared.direction.Dir.{Dir};
ghost use Rattle.base_types.specs.declared.direction.Dir.TheVariants.{Read, Write};
ghost use Rattle.lockword_core.specs.LockState.{is_same};
ghost use Rattle.lockword.specs.Marks.{NowClosed, SameDeeds, HeardOn};
ghost use Rattle.lockword.specs.Places.{seat_place, closing_place, owed_by};
ghost use Rattle.lockword.specs.TransitionOutcomes.{IsSeatOf};
ghost use Rattle.lockword.specs.Dropping.{IsDecided, LeavesClosed};
ghost use Rattle.fdmutex.specs.Deeds.{MadeNoEnd, MadeTheClose, LeavesWithoutEnd};
ghost use Rattle.fdmutex.specs.Did.{TellsHeardWord};
ghost use Rattle.fdmutex.specs.Heard.{TakesHearing, LeavesHearing};
ghost use Rattle.fdmutex.specs.Refusal.{IsClosingOrRefused, close_answer};

use crate::Refusal;
use base_types::Dir;
use lockword::{Close, Closing, Freed, LockWord, Seat, SignalClosing};
use std::sync::Wait;

/// What a try to close is answered, or the seat that tries again. Only a try that was lost is made
/// again: at the limit of references a close that tried again would do so for ever.
fn answer_of<R, W>(
    tried: Close<R, W>,
) -> Result<Result<Closing<R, W>, (Seat<R, W>, Refusal)>, Seat<R, W>>
    ensures { result ≡ close_answer tried }
{
    match tried {
        Close::Closing(closing) => Ok(Ok(closing)),
        Close::Closed(back) => Ok(Err((back, Refusal::Closed))),
        Close::TooMany(back, found) => Ok(Err((back, Refusal::TooMany(found)))),
        Close::Lost(back) => Err(back),
    }
}

/// Sets the flag, and takes over the signals of all waiters.
fn take_over<R: Drop, W: Drop, T: Wait>(
    rt: &T,
    word: &LockWord<R, W>,
    seat: Seat<R, W>,
) -> Result<Closing<R, W>, (Seat<R, W>, Refusal)>
    requires seat { IsSeatOf word.now (seat_place seat) }
    ensures answer { IsClosingOrRefused seat result }
    ensures made { IfOk result (λ closing. MadeTheClose (seat_place seat) (closing_place closing)) }
    ensures refused { IfErr result (λ back. SameDeeds (seat_place seat) (seat_place back.0)) }
    ensures heard { TakesHearing closing_place seat result }
    ensures told { TellsHeardWord seat result }
{
    let mut seat = seat;
    for _ in rt.forever() {
        match answer_of(word.try_close(seat)) {
            Ok(answer) => return answer,
            Err(back) => seat = back,
        }
    }
    unreachable!()
}

/// Gives all signals of one direction. A semaphore at its limit is tried again: only the closer can
/// give what it owes, and each waiter that wakes makes room.
fn signal_all<R: Drop, W: Drop, T: Wait>(
    rt: &T,
    word: &LockWord<R, W>,
    closing: Closing<R, W>,
    dir: Dir,
) -> Closing<R, W>
    requires seat { IsSeatOf word.now (closing_place closing) }
    ensures closed { NowClosed (closing_place closing) (closing_place result) }
    ensures given { owed_by result dir ≡ 0 }
    ensures other_way { (d : Dir) → is_same dir d ≡ false → owed_by result d ≡ owed_by closing d }
    ensures made { MadeNoEnd (closing_place closing) (closing_place result) }
    ensures heard { HeardOn (closing_place closing) (closing_place result) }
{
    let mut closing = closing;
    for _ in rt.forever() {
        if closing.owed(dir) == 0 {
            return closing;
        }
        match word.try_signal_closing(closing, dir) {
            SignalClosing::Signalled(back)
            | SignalClosing::Full(back)
            | SignalClosing::Lost(back) => closing = back,
        }
    }
    unreachable!()
}

/// Closes the word, takes a reference, and gives the signals of all waiters. A word that is
/// draining is closed as any other.
pub fn close_mark<R: Drop, W: Drop, T: Wait>(
    rt: &T,
    word: &LockWord<R, W>,
    seat: Seat<R, W>,
) -> Result<Closing<R, W>, (Seat<R, W>, Refusal)>
    requires seat { IsSeatOf word.now (seat_place seat) }
    ensures answer { IsClosingOrRefused seat result }
    ensures no_reader_owed { IfOk result (λ closing. owed_by closing Read ≡ 0) }
    ensures no_writer_owed { IfOk result (λ closing. owed_by closing Write ≡ 0) }
    ensures made { IfOk result (λ closing. MadeTheClose (seat_place seat) (closing_place closing)) }
    ensures refused { IfErr result (λ back. SameDeeds (seat_place seat) (seat_place back.0)) }
    ensures heard { TakesHearing closing_place seat result }
    ensures told { TellsHeardWord seat result }
{
    let closing = take_over(rt, word, seat)?;
    let closing = signal_all(rt, word, closing, Dir::Read);
    Ok(signal_all(rt, word, closing, Dir::Write))
}

/// Gives the closer's reference back. It can't be lost, so that nothing is waited for.
pub fn drop_closing<R: Drop, W: Drop>(word: &LockWord<R, W>, closing: Closing<R, W>) -> Freed<R, W>
    requires seat { IsSeatOf word.now (closing_place closing) }
    requires no_reader_owed { owed_by closing Read ≡ 0 }
    requires no_writer_owed { owed_by closing Write ≡ 0 }
    ensures left { LeavesClosed (closing_place closing) result }
    ensures decided { IsDecided (closing_place closing) result }
    ensures no_end { LeavesWithoutEnd (closing_place closing) result }
    ensures heard { LeavesHearing (closing_place closing) result }
{
    word.drop_closing(closing)
}
