//! Tries by one thread with a seat for each holder: undisturbed none is lost, of which no clause
//! speaks.

ghost use Rattle.lockword.specs.Places.{seat_place, lock_place, wait_place, owing_place};
ghost use Rattle.lockword.specs.TransitionOutcomes.{IsSeatOf};

use super::{CounterSeat, Counters, word_of, wrong};
use lockword::{
    Freed, Incref, LockRead, LockWrite, Owing, ReadLock, ReadWait, Signal, UnlockRead, UnlockWrite,
    WakeRead,
};
use lockword_core::pack;
use std::process::Abort;

/// The word is this one, to whoever looks.
fn shows<R: Abort>(rt: &R, word: &Counters, spare: &mut CounterSeat, want: u64)
    requires { IsSeatOf word.now (seat_place spare.old) }
    ensures { IsSeatOf word.now (seat_place spare.new) }
{
    let found = pack(word.look(spare));
    assert!(rt; found == want, "{found:x} in place of {want:x}");
}

/// Takes the read lock and gives it back.
fn reads<R: Abort>(rt: &R, word: &Counters, seat: CounterSeat) -> CounterSeat
    requires { IsSeatOf word.now (seat_place seat) }
    ensures { IsSeatOf word.now (seat_place result) }
{
    let reader = want!(rt; word.try_lock_read(seat), LockRead::Held);
    want!(rt; word.try_unlock_read(reader), UnlockRead::Free)
}

/// Takes the write lock and gives it back.
fn writes<R: Abort>(rt: &R, word: &Counters, seat: CounterSeat) -> CounterSeat
    requires { IsSeatOf word.now (seat_place seat) }
    ensures { IsSeatOf word.now (seat_place result) }
{
    let writer = want!(rt; word.try_lock_write(seat), LockWrite::Held);
    want!(rt; word.try_unlock_write(writer), UnlockWrite::Free)
}

/// One seat takes and gives back a reference and each lock, again and again.
fn rounds<R: Abort>(rt: &R, word: &Counters, seat: CounterSeat, count: u64) -> CounterSeat
    requires { IsSeatOf word.now (seat_place seat) }
    ensures { IsSeatOf word.now (seat_place result) }
{
    let mut seat = seat;
    for _ in 0..count {
        let held = want!(rt; word.try_incref(seat), Incref::Held);
        let free = want!(rt; word.drop_ref(held), Freed::Kept);
        let free = reads(rt, word, free);
        seat = writes(rt, word, free);
    }
    seat
}

#[test]
fn no_refusal_without_cause(rt: HostRuntime) {
    let (word, seat) = word_of(&rt, rt.alloc(), 1, 2);
    let mut seat = rounds(&rt, &word, seat, 10_000);
    shows(&rt, &word, &mut seat, 0);
}

/// A reader, and another who is queued behind it.
fn queued<R: Abort>(
    rt: &R,
    word: &Counters,
    seat: CounterSeat,
) -> (ReadLock<u64, u64>, ReadWait<u64, u64>)
    requires { IsSeatOf word.now (seat_place seat) }
    ensures lock { IsSeatOf word.now (lock_place result.0) }
    ensures wait { IsSeatOf word.now (wait_place result.1) }
{
    let (first, second) = word.split(seat);
    let reader = want!(rt; word.try_lock_read(first), LockRead::Held);
    let waiting = want!(rt; word.try_lock_read(second), LockRead::Queued);
    (reader, waiting)
}

/// The reader gives its lock back and owes a signal, for which the other waits yet.
fn owed<R: Abort>(
    rt: &R,
    word: &Counters,
    reader: ReadLock<u64, u64>,
    waiting: ReadWait<u64, u64>,
) -> (Owing<u64, u64>, ReadWait<u64, u64>)
    requires lock { IsSeatOf word.now (lock_place reader) }
    requires wait { IsSeatOf word.now (wait_place waiting) }
    ensures owing { IsSeatOf word.now (owing_place result.0) }
    ensures wait { IsSeatOf word.now (wait_place result.1) }
{
    let owing = want!(rt; word.try_unlock_read(reader), UnlockRead::Owes);
    let waiting = want!(rt; word.try_wake_read(waiting), WakeRead::NotYet);
    (owing, waiting)
}

/// The signal is given and taken.
fn woken<R: Abort>(rt: &R, word: &Counters, owing: Owing<u64, u64>, waiting: ReadWait<u64, u64>)
    requires owing { IsSeatOf word.now (owing_place owing) }
    requires wait { IsSeatOf word.now (wait_place waiting) }
{
    let _seat = want!(rt; word.try_signal(owing), Signal::Signalled);
    let _seat = want!(rt; word.try_wake_read(waiting), WakeRead::Woken);
}

#[test]
fn a_queued_reader_wakes_once_it_is_signalled(rt: HostRuntime) {
    let (word, seat) = word_of(&rt, rt.alloc(), 1, 2);
    let (mut spare, seat) = word.split(seat);
    let (reader, waiting) = queued(&rt, &word, seat);
    shows(&rt, &word, &mut spare, 0x800_000a);
    let (owing, waiting) = owed(&rt, &word, reader, waiting);
    woken(&rt, &word, owing, waiting);
    shows(&rt, &word, &mut spare, 0);
}
