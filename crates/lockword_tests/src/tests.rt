//! The single tries by one thread, threads at one word with the calls that wait, and the drops of
//! the halves.

/// The value in the answer that is wanted; any other answer ends the test.
macro_rules! want {
    ($rt:expr; $call:expr, $answer:path) => {
        match $call {
            $answer(value) => value,
            other => wrong($rt, stringify!($call), other),
        }
    };
}

mod halves;
mod rounds;
mod tries;
mod workers;

ghost use Rattle.lockword.specs.Places.{seat_place, last_place};
ghost use Rattle.lockword.specs.TransitionOutcomes.{IsSeatOf, HasNotTaken};

use lockword::{Last, LockWord, Seat};
use std::alloc::Global;
use std::process::Abort;

/// A word whose halves are numbers.
type Counters = LockWord<u64, u64>;

/// A seat of such a word.
type CounterSeat = Seat<u64, u64>;

/// Ends the test at a value that it did not want.
fn wrong<T, U, R: Abort>(rt: &R, what: &str, _value: T) -> U
    ensures never { ⊥ }
{
    panic!(rt; "another answer than is wanted: {what}")
}

/// A word with these halves, and a seat.
fn word_of<R: Abort>(rt: &R, alloc: Global, read: u64, write: u64) -> (Counters, CounterSeat)
    ensures seat { IsSeatOf result.0 (seat_place result.1) }
{
    match LockWord::new(alloc, read, write) {
        Ok(made) => made,
        Err(_) => panic!(rt; "no memory for a word"),
    }
}

/// Destroys the resource, and gives the halves.
fn destroy(word: &Counters, last: Last<u64, u64>) -> (u64, u64)
    requires seat { IsSeatOf word.now (last_place last) }
    requires not_taken { HasNotTaken (last_place last) }
{
    let mut last = last;
    let halves = last.halves(word);
    let _seat = word.mark_done(last);
    halves
}
