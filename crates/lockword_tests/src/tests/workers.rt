//! What threads do at a word by the calls that wait, each with a seat of its own.

ghost use Rattle.std.specs.Prelude.{◌≡◌, IfSome, IfOk};
ghost use Rattle.base_types.specs.declared.direction.Dir.TheVariants.{Read, Write};
ghost use Rattle.fdmutex.specs.Refusal.{IsFreedOf};
ghost use Rattle.lockword.specs.Marks.{NowClosed};
ghost use Rattle.lockword.specs.Places.{seat_place, closing_place, owed_by};
ghost use Rattle.lockword.specs.TransitionOutcomes.{IsSeatOf};

use super::{CounterSeat, Counters, destroy, wrong};
use fdmutex::{
    Freed, Refusal, close_mark, decref, drain, drop_closing, incref, read_lock, read_unlock,
    wait_done, write_lock, write_unlock,
};
use lockword::Closing;
use std::process::Abort;
use std::sync::Wait;
use std::sync::atomic::{AtomicU64, Ordering};
use std::thread;
use std::time::{Clock, Duration};

/// What the threads of a round saw, all together, and why each is refused at its end.
#[derive(Drop)]
pub(super) struct Tally {
    pub(super) want: Refusal,
    pub(super) refused: AtomicU64,
    /// Those who hold a lock until they are told to go, and that they are.
    pub(super) holding: AtomicU64,
    pub(super) released: AtomicU64,
    /// What was taken and given back, and of it the additions under each lock.
    pub(super) taken: AtomicU64,
    pub(super) read_added: AtomicU64,
    pub(super) write_added: AtomicU64,
    /// Those who waited for the end.
    pub(super) woken: AtomicU64,
    /// Who was the last, and what the halves were then.
    pub(super) lasts: AtomicU64,
    pub(super) read_half: AtomicU64,
    pub(super) write_half: AtomicU64,
}

/// What a thread takes and gives back.
#[derive(Clone, Copy)]
pub(super) enum Way {
    Reads,
    Writes,
    Refers,
}

/// What a thread does.
#[derive(Clone, Copy)]
pub(super) enum Role {
    /// Takes and gives back in turn, until it is refused.
    Takes(Way),
    /// Holds a lock until it is told to go.
    Holds(Way),
    /// Asks for a lock once two are held.
    Queues(Way),
    /// Waits for the end.
    Waits,
}

/// Waits until the count is reached; a thread that stays parked fails the test here.
pub(super) fn wait_for<R: Abort + Clock>(rt: &R, count: &AtomicU64, want: u64) {
    for _ in 0..10_000 {
        if count.load(Ordering::SeqCst) >= want {
            return;
        }
        thread::sleep(rt, Duration::from_millis(1));
    }
    panic!(rt; "waited 10,000 turns")
}

/// Adds one, lets other threads run between the load and the store, and counts it. Who stays then
/// waits until it is told to go.
fn add<R: Abort + Clock>(rt: &R, half: &mut u64, added: &AtomicU64, stays: bool, tally: &Tally) {
    let before = *half;
    thread::yield_now();
    *half = before.wrapping_add(1);
    added.fetch_add(1, Ordering::SeqCst);
    if stays {
        tally.holding.fetch_add(1, Ordering::SeqCst);
        wait_for(rt, &tally.released, 1);
    }
}

/// Takes once and gives back, or is refused.
fn take<R: Wait + Abort + Clock>(
    rt: &R,
    word: &Counters,
    seat: CounterSeat,
    way: Way,
    stays: bool,
    tally: &Tally,
) -> Result<Freed<u64, u64>, Refusal>
    requires seat { IsSeatOf word.now (seat_place seat) }
    ensures seat { IfOk result (λ freed. IsFreedOf word.now freed) }
{
    match way {
        Way::Reads => match read_lock(rt, word, seat) {
            Ok(mut held) => {
                add(rt, held.half(word), &tally.read_added, stays, tally);
                Ok(read_unlock(rt, word, held))
            }
            Err((_seat, why)) => Err(why),
        },
        Way::Writes => match write_lock(rt, word, seat) {
            Ok(mut held) => {
                add(rt, held.half(word), &tally.write_added, stays, tally);
                Ok(write_unlock(rt, word, held))
            }
            Err((_seat, why)) => Err(why),
        },
        Way::Refers => match incref(rt, word, seat) {
            Ok(held) => Ok(decref(word, held)),
            Err((_seat, why)) => Err(why),
        },
    }
}

/// Leaves the word: whoever is the last destroys, and writes down what the halves were.
fn leave(word: &Counters, freed: Freed<u64, u64>, tally: &Tally) -> Option<CounterSeat>
    requires seat { IsFreedOf word.now freed }
    ensures seat { IfSome result (λ back. IsSeatOf word.now (seat_place back)) }
{
    match freed {
        Freed::Kept(back) => Some(back),
        Freed::Last(last) => {
            let (read, write) = destroy(word, last);
            tally.read_half.store(read, Ordering::SeqCst);
            tally.write_half.store(write, Ordering::SeqCst);
            tally.lasts.fetch_add(1, Ordering::SeqCst);
            None
        }
    }
}

/// Takes in turn until the word is closed or draining; who stays takes once.
fn take_until_refused<R: Wait + Abort + Clock>(
    rt: &R,
    word: &Counters,
    seat: CounterSeat,
    way: Way,
    stays: bool,
    tally: &Tally,
)
    requires seat { IsSeatOf word.now (seat_place seat) }
{
    let mut seat = seat;
    for _ in rt.forever() {
        match take(rt, word, seat, way, stays, tally) {
            Ok(freed) => {
                tally.taken.fetch_add(1, Ordering::SeqCst);
                match leave(word, freed, tally) {
                    Some(back) if !stays => seat = back,
                    _ => return,
                }
            }
            Err(why) => {
                assert_eq!(rt; why, tally.want);
                tally.refused.fetch_add(1, Ordering::SeqCst);
                return;
            }
        }
    }
}

/// Plays a role.
pub(super) fn work<R: Wait + Abort + Clock>(
    rt: &R,
    word: &Counters,
    seat: CounterSeat,
    role: Role,
    tally: &Tally,
)
    requires seat { IsSeatOf word.now (seat_place seat) }
{
    match role {
        Role::Takes(way) => take_until_refused(rt, word, seat, way, false, tally),
        Role::Holds(way) => take_until_refused(rt, word, seat, way, true, tally),
        Role::Queues(way) => {
            wait_for(rt, &tally.holding, 2);
            take_until_refused(rt, word, seat, way, false, tally);
        }
        Role::Waits => {
            let _seat = wait_done(rt, word, seat);
            tally.woken.fetch_add(1, Ordering::SeqCst);
        }
    }
}

/// How a round ends: once so many wait for each lock and so much was taken, after a pause, by a close,
/// or by a drain and then a close. So many are refused by it.
#[derive(Clone, Copy)]
pub(super) struct Ending {
    pub(super) queued: u32,
    pub(super) taken: u64,
    pub(super) pause_ms: u64,
    pub(super) drains: bool,
    pub(super) refused: u64,
}

/// Waits until so many wait for each lock.
fn wait_for_queues<R: Abort + Clock>(
    rt: &R,
    word: &Counters,
    seat: CounterSeat,
    queued: u32,
) -> CounterSeat
    requires seat { IsSeatOf word.now (seat_place seat) }
    ensures seat { IsSeatOf word.now (seat_place result) }
{
    let mut seat = seat;
    for _ in 0..10_000 {
        let seen = word.look(&mut seat);
        if seen.rwait >= queued && seen.wwait >= queued {
            return seat;
        }
        thread::sleep(rt, Duration::from_millis(1));
    }
    panic!(rt; "waited 10,000 turns")
}

/// Drains where the round ends so, and waits until all are refused.
fn drained<R: Wait + Abort + Clock>(
    rt: &R,
    word: &Counters,
    seat: CounterSeat,
    ending: Ending,
    tally: &Tally,
) -> CounterSeat
    requires seat { IsSeatOf word.now (seat_place seat) }
    ensures seat { IsSeatOf word.now (seat_place result) }
{
    if !ending.drains {
        return seat;
    }
    match drain(rt, word, seat) {
        Ok(seat) => {
            wait_for(rt, &tally.refused, ending.refused);
            seat
        }
        Err(back) => wrong(rt, "the drain", back),
    }
}

/// The close, or the test ends.
fn closed<R: Wait + Abort>(rt: &R, word: &Counters, seat: CounterSeat) -> Closing<u64, u64>
    requires seat { IsSeatOf word.now (seat_place seat) }
    ensures closed { NowClosed (seat_place seat) (closing_place result) }
    ensures no_reader_owed { owed_by result Read ≡ 0 }
    ensures no_writer_owed { owed_by result Write ≡ 0 }
{
    match close_mark(rt, word, seat) {
        Ok(closing) => closing,
        Err(back) => wrong(rt, "the close", back),
    }
}

/// Ends a round, and lets the holders go once all were refused.
pub(super) fn end<R: Wait + Abort + Clock>(
    rt: &R,
    word: &Counters,
    seat: CounterSeat,
    ending: Ending,
    tally: &Tally,
)
    requires seat { IsSeatOf word.now (seat_place seat) }
{
    wait_for(rt, &tally.taken, ending.taken);
    if ending.pause_ms > 0 {
        thread::sleep(rt, Duration::from_millis(ending.pause_ms));
    }
    let seat = wait_for_queues(rt, word, seat, ending.queued);
    let seat = drained(rt, word, seat, ending, tally);
    let closing = closed(rt, word, seat);
    let _seat = leave(word, drop_closing(word, closing), tally);
    wait_for(rt, &tally.refused, ending.refused);
    tally.released.store(1, Ordering::SeqCst);
}
