//! Steps on the packed word alone: adds, masks and compares by the units and limits of the layout,
//! with no unpacking, since the running word makes one between its load and its exchange. All units
//! are powers of two, so that the divisions and remainders below are shifts and masks.

ghost use Rattle.std.specs.Prelude.{◌≡◌, ◌≢◌, ◌≤◌, ℕ, true};
ghost use Rattle.base_types.specs.declared.direction.Dir.{Dir};
ghost use Rattle.lockword_core.specs.declared.stake.Stake.{Stake};
ghost use Rattle.lockword_core.specs.Word.{IsWord, packed, lock_unit, waiter_unit, closed_in};
ghost use Rattle.lockword_core.specs.Word.{drain_in, lock_in, references_in, waiters_in};
ghost use Rattle.lockword_core.specs.LockState.{LockState, Census, census, stake_of, encoded};
ghost use Rattle.lockword_core.specs.LockInvariant.{IsConsistent, IsConsistentCensus, IsCounted};
ghost use Rattle.lockword_core.specs.Transition.{allows, outcome, transition};
ghost use Rattle.lockword_core.specs.FieldStep.{guards, first_refusal, left, field_step};
ghost use Rattle.lockword_core.specs.FieldStep.{packed_result, fields_in, stepped_word};
ghost use Rattle.lockword_core.specs.WordStep.{op_of, Tells, TellsTransition};

use crate::word::{
    CLOSED, DRAIN, MAX_REFERENCES, MAX_WAITERS, READ_LOCK, READ_WAITER, REFERENCE, WRITE_LOCK,
    WRITE_WAITER, Word,
};
use base_types::Dir;

/// A step on the word.
#[derive(Clone, Copy, Debug, PartialEq, Eq, Drop)]
pub enum Kind {
    /// Take a reference.
    Incref,
    /// Give a reference back.
    Decref,
    /// Take the lock of a direction, or a place in its queue.
    Lock(Dir),
    /// Give the lock of a direction back.
    Unlock(Dir),
    /// Close.
    Close,
    /// Drain: let nobody in any more.
    Drain,
}

/// What a step came to.
#[derive(Clone, Copy, Debug, PartialEq, Eq, Drop)]
pub enum After {
    /// The reference or the lock is taken.
    Held,
    /// The lock is taken by another; the word counts one waiter more.
    Queued,
    /// The reference or the lock is given back, and nothing more is to be done.
    Kept,
    /// The lock is given back; one waiter is no longer counted, and has to be signalled.
    Owes,
    /// The last reference after the close is given back.
    Last,
    /// The word is closed and counts no waiters; these many have to be signalled.
    Closing { read: u32, write: u32 },
    /// The word is drained and counts no waiters; these many have to be signalled.
    Drained { read: u32, write: u32 },
}

/// Why a step was refused. A refused step leaves the word as it is.
#[derive(Clone, Copy, Debug, PartialEq, Eq, Drop)]
pub enum Refused {
    /// The word is closed.
    Closed,
    /// The references, or the waiters where the lock is taken, are at their limit.
    TooMany,
    /// There is no reference or lock to give back.
    Misuse,
    /// The word is drained, and not closed.
    Draining,
}

fn lock_unit(dir: Dir) -> u64
    ensures { result ≡ lock_unit dir }
{
    match dir {
        Dir::Read => READ_LOCK,
        Dir::Write => WRITE_LOCK,
    }
}

fn waiter_unit(dir: Dir) -> u64
    ensures { result ≡ waiter_unit dir }
{
    match dir {
        Dir::Read => READ_WAITER,
        Dir::Write => WRITE_WAITER,
    }
}

fn is_closed(word: u64) -> bool
    ensures { result ≡ closed_in word }
{
    word % READ_LOCK == CLOSED
}

fn is_draining(word: u64) -> bool
    ensures { result ≡ drain_in word }
{
    word >= DRAIN
}

fn lock_bit(word: u64, dir: Dir) -> u64
    ensures { result ≡ lock_in dir word }
{
    match dir {
        Dir::Read => word / READ_LOCK % 2,
        Dir::Write => word / WRITE_LOCK % 2,
    }
}

fn references(word: u64) -> u64
    ensures { result ≡ references_in word }
{
    word / REFERENCE % (MAX_REFERENCES as u64 + 1)
}

fn waiters(word: u64, dir: Dir) -> u64
    ensures value { result ≡ waiters_in dir word }
    ensures fits { result ≤ MAX_WAITERS }
{
    match dir {
        Dir::Read => word / READ_WAITER % (MAX_WAITERS as u64 + 1),
        Dir::Write => word / WRITE_WAITER % (MAX_WAITERS as u64 + 1),
    }
}

/// Why no reference can be taken, where none can.
fn reference_refusal(word: u64) -> Option<Refused>
    ensures { result ≡ first_refusal (guards (fields_in word) Kind.Incref) }
{
    if is_closed(word) {
        Some(Refused::Closed)
    } else if is_draining(word) {
        Some(Refused::Draining)
    } else if references(word) == MAX_REFERENCES as u64 {
        Some(Refused::TooMany)
    } else {
        None
    }
}

fn incref(word: u64) -> Result<(u64, After), Refused>
    ensures { result ≡ stepped_word word Kind.Incref }
{
    match reference_refusal(word) {
        Some(refused) => Err(refused),
        None => Ok((word + REFERENCE, After::Held)),
    }
}

/// What a reference that is given back comes to.
fn left(word: u64) -> After
    ensures { result ≡ left (fields_in word) }
{
    if is_closed(word) && references(word) == 1 {
        After::Last
    } else {
        After::Kept
    }
}

fn decref(word: u64) -> Result<(u64, After), Refused>
    ensures { result ≡ stepped_word word Kind.Decref }
{
    if references(word) == 0 {
        return Err(Refused::Misuse);
    }
    Ok((word - REFERENCE, left(word)))
}

/// The lock is free, and is taken with its reference.
fn grant(word: u64, dir: Dir) -> Result<(u64, After), Refused>
    requires { lock_in dir word ≡ 0 }
    ensures { result ≡ stepped_word word (Kind.Lock dir) }
{
    match reference_refusal(word) {
        Some(refused) => Err(refused),
        None => Ok((word + REFERENCE + lock_unit(dir), After::Held)),
    }
}

/// Somebody has the lock, and a place in its queue is taken.
fn queue(word: u64, dir: Dir) -> Result<(u64, After), Refused>
    requires { lock_in dir word ≢ 0 }
    ensures { result ≡ stepped_word word (Kind.Lock dir) }
{
    if is_closed(word) {
        Err(Refused::Closed)
    } else if is_draining(word) {
        Err(Refused::Draining)
    } else if waiters(word, dir) == MAX_WAITERS as u64 {
        Err(Refused::TooMany)
    } else {
        Ok((word + waiter_unit(dir), After::Queued))
    }
}

fn lock(word: u64, dir: Dir) -> Result<(u64, After), Refused>
    ensures { result ≡ stepped_word word (Kind.Lock dir) }
{
    if lock_bit(word, dir) == 0 {
        grant(word, dir)
    } else {
        queue(word, dir)
    }
}

fn unlock(word: u64, dir: Dir) -> Result<(u64, After), Refused>
    ensures { result ≡ stepped_word word (Kind.Unlock dir) }
{
    if lock_bit(word, dir) == 0 || references(word) == 0 {
        return Err(Refused::Misuse);
    }
    let rest = word - REFERENCE - lock_unit(dir);
    if waiters(word, dir) == 0 {
        return Ok((rest, left(word)));
    }
    Ok((rest - waiter_unit(dir), After::Owes))
}

/// A drained word may still be closed, and stays drained.
fn close(word: u64) -> Result<(u64, After), Refused>
    ensures { result ≡ stepped_word word Kind.Close }
{
    if is_closed(word) {
        return Err(Refused::Closed);
    }
    if references(word) == MAX_REFERENCES as u64 {
        return Err(Refused::TooMany);
    }
    Ok((
        word % READ_WAITER + word / DRAIN * DRAIN + REFERENCE + CLOSED,
        After::Closing {
            read: waiters(word, Dir::Read) as u32,
            write: waiters(word, Dir::Write) as u32,
        },
    ))
}

fn drain(word: u64) -> Result<(u64, After), Refused>
    ensures { result ≡ stepped_word word Kind.Drain }
{
    if is_closed(word) {
        return Err(Refused::Closed);
    }
    if is_draining(word) {
        return Err(Refused::Draining);
    }
    Ok((
        word % READ_WAITER + DRAIN,
        After::Drained {
            read: waiters(word, Dir::Read) as u32,
            write: waiters(word, Dir::Write) as u32,
        },
    ))
}

fn step(word: u64, kind: Kind) -> Result<(u64, After), Refused>
    ensures { result ≡ stepped_word word kind }
{
    match kind {
        Kind::Incref => incref(word),
        Kind::Decref => decref(word),
        Kind::Lock(dir) => lock(word, dir),
        Kind::Unlock(dir) => unlock(word, dir),
        Kind::Close => close(word),
        Kind::Drain => drain(word),
    }
}

/// One step on the packed word, as Go's `fd_mutex.go` makes it, to which the drain is added; where
/// Go panics this answers [`Refused::TooMany`] or [`Refused::Misuse`].
pub fn word_step(word: u64, kind: Kind) -> Result<(u64, After), Refused>
    // A step changes the fields that it names, and no other.
    ensures fields { (f : Word) → IsWord f → packed f ≡ word
        → result ≡ packed_result (field_step f kind) }
    // It is the operation of a holder, whoever the others are.
    ensures census { (c : Census) (own : Stake) → IsConsistentCensus c → IsCounted c own
        → word ≡ encoded c
        → allows own (op_of kind) ≡ true → Tells c own kind (outcome c own (op_of kind)) result }
    // The same with the holders' names.
    ensures state { (s : LockState) (holder : ℕ) → IsConsistent s → word ≡ encoded (census s)
        → allows (stake_of s holder) (op_of kind) ≡ true
        → TellsTransition s kind (transition s holder (op_of kind)) result }
{
    step(word, kind)
}
