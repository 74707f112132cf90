//! The atomic steps: what each tells the seat that makes it.

ghost use Rattle.std.specs.Prelude.{◌≡◌, true, IfSome};
ghost use Rattle.lockword_core.specs.Word.{IsWord, packed};
ghost use Rattle.lockword_core.specs.Transition.{allows};
ghost use Rattle.lockword_core.specs.WordStep.{op_of};
ghost use Rattle.lockword.specs.Steps.{looked, moved, subtracted, asked, emptied, marked};
ghost use Rattle.lockword.specs.Steps.{counted, op_at, answer_at, Changes, signalled};
ghost use Rattle.lockword.specs.Steps.{HasSlots, Keeps, Advanced};
ghost use Rattle.lockword.specs.TransitionOutcomes.{Looks};
ghost use Rattle.lockword.specs.declared.transitions.SignalMove.{SignalMove};
ghost use Rattle.lockword.specs.declared.transitions.SignalMove.TheVariants as signal_move;
ghost use Rattle.lockword_core.specs.declared.transition.Kind.{Kind};
ghost use Rattle.lockword_core.specs.declared.transition.Kind.TheVariants as kind;

use crate::directions::Direction;
use crate::holders::{LockWord, Place};
use crate::local_view::LocalView;
use crate::shared_rule::{Half, STATE};
use atomic_table::{Play, Split};
use lockword_core::{After, Kind, Refused, Word, signal_add, signal_take, unpack, word_step};
use std::marker::PhantomData;

/// A load of the state, at which the seat hears what all seats did.
pub(crate) struct Look;

impl<R, W> Play<Half<R, W>, LocalView> for Look {
    ghost then = { looked };
}

/// A kind of step on the state word, as a type.
pub(crate) trait StateStep {
    ghost kind: { Kind };
}

/// An exchange of the state word, as a step of the kind `M`.
pub(crate) struct Move<M: StateStep> {
    marker: PhantomData<M>,
}

impl<R, W, M: StateStep> Play<Half<R, W>, LocalView> for Move<M> {
    ghost then = { moved M.kind };
}

pub(crate) struct TakeReference;

impl StateStep for TakeReference {
    ghost kind = { kind.Incref };
}

pub(crate) struct SetClosed;

impl StateStep for SetClosed {
    ghost kind = { kind.Close };
}

pub(crate) struct SetDraining;

impl StateStep for SetDraining {
    ghost kind = { kind.Drain };
}

/// The lock of the direction `D`.
pub(crate) struct Locking<D: Direction> {
    marker: PhantomData<D>,
}

impl<D: Direction> StateStep for Locking<D> {
    ghost kind = { kind.Lock D.dir };
}

/// The unlock of the direction `D`.
pub(crate) struct Unlocking<D: Direction> {
    marker: PhantomData<D>,
}

impl<D: Direction> StateStep for Unlocking<D> {
    ghost kind = { kind.Unlock D.dir };
}

/// A subtraction of a reference.
pub(crate) struct Subtract;

impl<R, W> Play<Half<R, W>, LocalView> for Subtract {
    ghost then = { subtracted };
}

/// A load of a semaphore.
pub(crate) struct Count;

impl<R, W> Play<Half<R, W>, LocalView> for Count {
    ghost then = { counted };
}

/// What an exchange of a semaphore does with one signal.
#[derive(Drop)]
pub(crate) enum SignalMove {
    Gives,
    Takes,
}

/// What an exchange of a semaphore does, as a type.
pub(crate) trait SignalStep {
    ghost way: { SignalMove };

    fn way() -> SignalMove
        ensures { result ≡ way };

    /// The signals once one was given or taken, or `None` where the semaphore is full or empty.
    fn next(found: u64) -> Option<u64>
        ensures { IfSome result (Changes way found) };
}

/// An exchange of a semaphore, as a step of the sort `M`.
pub(crate) struct Signalling<M: SignalStep> {
    marker: PhantomData<M>,
}

impl<R, W, M: SignalStep> Play<Half<R, W>, LocalView> for Signalling<M> {
    ghost then = { signalled (op_at M.way) (answer_at M.way) };
}

pub(crate) struct GiveSignal;

impl SignalStep for GiveSignal {
    ghost way = { signal_move.Gives };

    fn way() -> SignalMove {
        SignalMove::Gives
    }

    fn next(found: u64) -> Option<u64> {
        signal_add(found)
    }
}

pub(crate) struct TakeSignal;

impl SignalStep for TakeSignal {
    ghost way = { signal_move.Takes };

    fn way() -> SignalMove {
        SignalMove::Takes
    }

    fn next(found: u64) -> Option<u64> {
        signal_take(found)
    }
}

/// A load of the done word.
pub(crate) struct Ask;

impl<R, W> Play<Half<R, W>, LocalView> for Ask {
    ghost then = { asked };
}

/// A load of the done word, with which the last holder takes both halves.
pub(crate) struct Empty;

impl<R, W> Play<Half<R, W>, LocalView> for Empty {
    ghost then = { emptied };
}

/// A store of the done word.
pub(crate) struct Mark;

impl<R, W> Play<Half<R, W>, LocalView> for Mark {
    ghost then = { marked };
}

/// A new seat, which has seen what the other has seen.
pub(crate) struct Another;

impl Split<LocalView> for Another {
    ghost use Rattle.lockword.specs.LocalView.{without_stake};

    ghost left = { λ v. v };

    ghost right = { without_stake };
}

/// What a try at a step on the state word came to.
pub(crate) enum Advance {
    Done(After),
    Closed,
    TooMany(Word),
    Lost,
    Draining,
}

/// The fields of a word.
fn fields_of(word: u64) -> Word
    ensures fits { IsWord result }
    ensures same { packed result ≡ word }
{
    let Some(fields) = unpack(word) else {
        unreachable!()
    };
    fields
}

impl<R: Drop, W: Drop> LockWord<R, W> {
    /// One load of the state, the decision of `word_step`, and at most one exchange.
    pub(crate) fn try_step<M: StateStep>(&self, place: &mut Place<R, W>, kind: Kind) -> Advance
        requires word { place.old.table_id ≡ self.now.table.shared.table_id }
        requires kind { kind ≡ M.kind }
        requires allowed { allows place.old.me.0.stake (op_of kind) ≡ true }
        requires slots { HasSlots kind place.old.me.1 }
        ensures word { place.new.table_id ≡ place.old.table_id }
        ensures step { Advanced kind place.old place.new result }
    {
        let shared = &self.table.shared;
        let found = shared.load::<Look>(place, STATE);
        match word_step(found, kind) {
            Ok((next, after)) => {
                if shared.compare_exchange::<Move<M>>(place, STATE, found, next) == found {
                    Advance::Done(after)
                } else {
                    Advance::Lost
                }
            }
            Err(Refused::Closed) => Advance::Closed,
            Err(Refused::TooMany) => Advance::TooMany(fields_of(found)),
            Err(Refused::Misuse) => unreachable!(),
            Err(Refused::Draining) => Advance::Draining,
        }
    }

    /// The state word, as it was found.
    pub(crate) fn look_at(&self, place: &mut Place<R, W>) -> Word
        requires { place.old.table_id ≡ self.now.table.shared.table_id }
        ensures looks { Looks place.old place.new result }
        ensures keeps { Keeps place.old place.new }
    {
        fields_of(self.table.shared.load::<Look>(place, STATE))
    }
}
