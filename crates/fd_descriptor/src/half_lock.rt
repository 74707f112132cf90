//! The lock of a task's half, as each call takes it and leaves it: a call that is over gives it
//! back, and one that would wait keeps it.

ghost use Rattle.std.specs.Prelude.{◌≡◌, true, false, Some, None, [], Err, IfOk, IfErr};
ghost use Rattle.lockword.specs.Lent.{half_in};
ghost use Rattle.lockword.specs.Marks.{deeds, heard_by, marks_of as marks_at};
ghost use Rattle.lockword.specs.Places.{seat_place, lock_place};
ghost use Rattle.lockword.specs.TransitionOutcomes.{IsSeatOf};
ghost use Rattle.fdmutex.specs.Deeds.{closes, destroys, drains};
ghost use Rattle.fd_descriptor.specs.HalfState.{IsAtWord, MayCall, is_calling, marks_held};
ghost use Rattle.fd_descriptor.specs.HalfState.{operations_held, closes_held, destroys_held};
ghost use Rattle.fd_descriptor.specs.HalfState.{drains_held, heard_held, half_held, HadHalf, HasHalf};
ghost use Rattle.fd_descriptor.specs.HandleCalls.{IsLockFault, IsRefusedEntry};
ghost use Rattle.fd_descriptor.specs.Marks.{KeepsMarks};

use crate::descriptor::Fd;
use crate::leave::{give_back, lock_fault};
use crate::resource::Resource;
use crate::task_half::HalfState;
use fdmutex::lock;
use lockword::{Guards, Held, LockWord, Seat};
use rwloops::Fault;
use std::alloc::Allocator;
use std::sync::Wait;

/// Puts a seat back.
pub(crate) fn put<D: Guards<R, W>, R, W>(
    state: &mut Option<HalfState<D, R, W>>,
    now: HalfState<D, R, W>,
)
    requires none { state.old ≡ None }
    ensures { state.new ≡ Some now }
{
    match state.replace(now) {
        None => {}
        Some(_) => unreachable!(),
    }
}

/// The lock of a half: that of the call under way, or else that of a call which begins now, after
/// whoever has it.
pub(crate) fn hold<D: Guards<X::R, X::W>, X: Resource, T: Wait, A: Allocator>(
    rt: &T,
    fd: &Fd<X, A>,
    state: &mut Option<HalfState<D, X::R, X::W>>,
) -> Result<Held<D, X::R, X::W>, Fault>
    requires seat { IsAtWord fd.now.word state.old }
    ensures taken { IfOk result (λ held. state.new ≡ None) }
    ensures word { IfOk result (λ held. IsSeatOf fd.now.word (lock_place held)) }
    ensures marks { IfOk result (λ held. marks_at (lock_place held) ≡ marks_held state.old) }
    ensures closes { IfOk result (λ held. closes (lock_place held) ≡ closes_held state.old) }
    ensures destroys { IfOk result (λ held. destroys (lock_place held) ≡ destroys_held state.old) }
    ensures drains { IfOk result (λ held. drains (lock_place held) ≡ drains_held state.old) }
    ensures may { IfOk result (λ held. MayCall state.old) }
    ensures half { IfOk result (λ held. HadHalf state.old (half_in held)) }
    ensures was_idle { IfErr result (λ fault. is_calling state.old ≡ false) }
    ensures idle { IfErr result (λ fault. is_calling state.new ≡ false) }
    ensures seat { IfErr result (λ fault. IsAtWord fd.now.word state.new) }
    ensures keeps { IfErr result (λ fault. KeepsMarks (marks_held state.old) (marks_held state.new)) }
    ensures no_close { IfErr result (λ fault. closes_held state.new ≡ closes_held state.old) }
    ensures no_destroy { IfErr result (λ fault. destroys_held state.new ≡ destroys_held state.old) }
    ensures no_drain { IfErr result (λ fault. drains_held state.new ≡ drains_held state.old) }
    ensures closed { is_calling state.old ≡ false → (marks_held state.old).closed ≡ true
        → result ≡ Err Fault.Closed }
    ensures draining { is_calling state.old ≡ false → (marks_held state.old).draining ≡ true
        → IsRefusedEntry result }
    ensures refused { IfErr result (IsLockFault (marks_held state.old) (marks_held state.new)) }
{
    let Some(now) = state.take() else {
        unreachable!()
    };
    let seat = match now {
        HalfState::UnderWay(held) => return Ok(held),
        HalfState::Idle(seat) => seat,
    };
    match lock::<D, X::R, X::W, T>(rt, &fd.word, seat) {
        Ok(held) => Ok(held),
        Err((left, refusal)) => {
            put(state, HalfState::Idle(left));
            Err(lock_fault(refusal))
        }
    }
}

/// Leaves the lock: a call that is over gives it back, and else stays under way.
pub(crate) fn rest<D: Guards<X::R, X::W>, X: Resource, T: Wait, A: Allocator>(
    rt: &T,
    fd: &Fd<X, A>,
    state: &mut Option<HalfState<D, X::R, X::W>>,
    held: Held<D, X::R, X::W>,
    is_over: bool,
)
    requires none { state.old ≡ None }
    requires word { IsSeatOf fd.now.word (lock_place held) }
    ensures seat { IsAtWord fd.now.word state.new }
    ensures keeps { KeepsMarks (marks_at (lock_place held)) (marks_held state.new) }
    ensures no_close { closes_held state.new ≡ closes (lock_place held) }
    ensures no_drain { drains_held state.new ≡ drains (lock_place held) }
    ensures over { is_over ≡ true → is_calling state.new ≡ false }
    ensures stays { is_over ≡ false → state.new ≡ Some (HalfState.UnderWay held) }
    ensures half { HasHalf state.new (half_in held) }
{
    if is_over {
        let left = give_back::<D, X, T>(rt, &fd.word, held);
        put(state, HalfState::Idle(left));
    } else {
        put(state, HalfState::UnderWay(held));
    }
}

/// Another seat, which has seen the same; a call that is under way keeps its lock.
pub(crate) fn another<D: Guards<R, W>, R: Drop, W: Drop>(
    word: &LockWord<R, W>,
    state: &mut Option<HalfState<D, R, W>>,
) -> Seat<R, W>
    requires { IsAtWord word.now state.old }
    ensures seat { IsAtWord word.now state.new }
    ensures calling { is_calling state.new ≡ is_calling state.old }
    ensures marks { marks_held state.new ≡ marks_held state.old }
    ensures operations { operations_held state.new ≡ operations_held state.old }
    ensures no_close { closes_held state.new ≡ closes_held state.old }
    ensures no_destroy { destroys_held state.new ≡ destroys_held state.old }
    ensures no_drain { drains_held state.new ≡ drains_held state.old }
    ensures half { half_held state.new ≡ half_held state.old }
    ensures heard { heard_held state.new ≡ heard_held state.old }
    ensures word { IsSeatOf word.now (seat_place result) }
    ensures seen { marks_at (seat_place result) ≡ marks_held state.old }
    ensures idle { deeds (seat_place result) ≡ [] }
    ensures told { heard_by (seat_place result) ≡ heard_held state.old }
{
    let Some(now) = state.take() else {
        unreachable!()
    };
    match now {
        HalfState::Idle(seat) => {
            let (mine, other) = word.split(seat);
            put(state, HalfState::Idle(mine));
            other
        }
        HalfState::UnderWay(held) => {
            let (mine, other) = word.split_held(held);
            put(state, HalfState::UnderWay(mine));
            other
        }
    }
}
