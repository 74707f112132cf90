//! The rounds of one thread. Each round ends with the holder's seat, which the next one needs;
//! where a round leaves none, or the word refuses, the thread stops.

ghost use Rattle.std.specs.Prelude.{◌≡◌, ◌≤◌, true, false, IfSome};
ghost use Rattle.lockword.specs.Marks.{saw_closed};
ghost use Rattle.lockword.specs.Places.{seat_place};
ghost use Rattle.lockword.specs.TransitionOutcomes.{IsSeatOf};
ghost use Rattle.fdmutex.specs.Refusal.{IsFreedOf};

use fdmutex::{Freed, decref, incref, read_lock, read_unlock};
use lockword::{LockWord, Seat};
use std::sync::Wait;

/// A word whose halves are counters.
pub type Counters = LockWord<u64, u64>;
/// A seat of such a word.
pub type CounterSeat = Seat<u64, u64>;

/// The seat, where there is one. The last holder of a closed word destroys it, and has done.
fn seat_of(word: &Counters, freed: Freed<u64, u64>) -> Option<CounterSeat>
    requires { IsFreedOf word.now freed }
    ensures { IfSome result (λ seat. IsSeatOf word.now (seat_place seat)) }
{
    match freed {
        Freed::Kept(seat) => Some(seat),
        Freed::Last(mut last) => {
            let _halves = last.halves(word);
            let _seat = word.mark_done(last);
            None
        }
    }
}

/// Takes a reference, and drops it. No round is made on a word that was seen closed.
pub fn take_and_drop<T: Wait>(rt: &T, word: &Counters, seat: CounterSeat) -> Option<CounterSeat>
    requires { IsSeatOf word.now (seat_place seat) }
    ensures same { IfSome result (λ seat. IsSeatOf word.now (seat_place seat)) }
    ensures open { IfSome result (λ _. saw_closed (seat_place seat) ≡ false) }
{
    match incref(rt, word, seat) {
        Ok(held) => seat_of(word, decref(word, held)),
        Err(_) => None,
    }
}

/// Takes the read lock, adds 1 to the read half, and unlocks, likewise.
pub fn add_under_lock<T: Wait>(rt: &T, word: &Counters, seat: CounterSeat) -> Option<CounterSeat>
    requires { IsSeatOf word.now (seat_place seat) }
    ensures same { IfSome result (λ seat. IsSeatOf word.now (seat_place seat)) }
    ensures open { IfSome result (λ _. saw_closed (seat_place seat) ≡ false) }
{
    match read_lock(rt, word, seat) {
        Ok(mut held) => {
            let half = held.half(word);
            *half = half.wrapping_add(1);
            seat_of(word, read_unlock(rt, word, held))
        }
        Err(_) => None,
    }
}

/// Takes and drops references, and says how many.
pub fn references<T: Wait>(rt: &T, word: &Counters, seat: CounterSeat, rounds: u64) -> u64
    requires { IsSeatOf word.now (seat_place seat) }
    ensures most { result ≤ rounds }
    ensures closed { saw_closed (seat_place seat) ≡ true → result ≡ 0 }
{
    let mut seat = seat;
    for made in 0..rounds {
        match take_and_drop(rt, word, seat) {
            Some(back) => seat = back,
            None => return made,
        }
    }
    rounds
}

/// Adds to the read half, and says how often.
pub fn reads<T: Wait>(rt: &T, word: &Counters, seat: CounterSeat, rounds: u64) -> u64
    requires { IsSeatOf word.now (seat_place seat) }
    ensures most { result ≤ rounds }
    ensures closed { saw_closed (seat_place seat) ≡ true → result ≡ 0 }
{
    let mut seat = seat;
    for made in 0..rounds {
        match add_under_lock(rt, word, seat) {
            Some(back) => seat = back,
            None => return made,
        }
    }
    rounds
}

/// The read half, or 0 where it can't be had.
pub fn half_of<T: Wait>(rt: &T, word: &Counters, seat: CounterSeat) -> u64
    requires { IsSeatOf word.now (seat_place seat) }
    ensures closed { saw_closed (seat_place seat) ≡ true → result ≡ 0 }
{
    let Ok(mut held) = read_lock(rt, word, seat) else {
        return 0;
    };
    let half = *held.half(word);
    let _seat = seat_of(word, read_unlock(rt, word, held));
    half
}
