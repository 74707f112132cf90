//! What a stake allows, and what comes of a step: the rules that a machine asks for one holder.

ghost use Rattle.std.specs.Prelude.{◌≡◌, true};
ghost use Rattle.lockword_core.specs.declared.stake.Op.{Op};
ghost use Rattle.lockword_core.specs.declared.stake.Op.TheVariants as op;
ghost use Rattle.lockword_core.specs.LockState.{is_same, owed_part};
ghost use Rattle.lockword_core.specs.Transition.{allows, lock_stake, drains_stake};
ghost use Rattle.lockword_core.specs.Transition.{stake_after_signal};
ghost use Rattle.lockword_core.specs.WordStep.{gained, refusal_of};

use crate::stake::{Answer, Op, Stake};
use crate::transition::{After, Kind, Refused};
use base_types::Dir;

fn is_same(one: Dir, other: Dir) -> bool
    ensures { result ≡ is_same one other }
{
    match one {
        Dir::Read => match other {
            Dir::Read => true,
            Dir::Write => false,
        },
        Dir::Write => match other {
            Dir::Read => false,
            Dir::Write => true,
        },
    }
}

fn owed_part(dir: Dir, read: u32, write: u32) -> u32
    ensures { result ≡ owed_part dir read write }
{
    match dir {
        Dir::Read => read,
        Dir::Write => write,
    }
}

/// A holder with this stake may ask this.
pub(crate) fn allows(own: Stake, op: Op) -> bool
    ensures { result ≡ allows own op }
{
    match (own, op) {
        (Stake::Free, Op::Incref) => true,
        (Stake::Free, Op::Lock(_)) => true,
        (Stake::Free, Op::Close) => true,
        (Stake::Free, Op::Drain) => true,
        (Stake::Ref, Op::Decref) => true,
        (Stake::Closing { read, write }, Op::Decref) => read == 0 && write == 0,
        (Stake::Read, Op::Unlock(dir)) => is_same(dir, Dir::Read),
        (Stake::Write, Op::Unlock(dir)) => is_same(dir, Dir::Write),
        (Stake::Owes(owed), Op::Signal(dir)) => is_same(dir, owed),
        (Stake::Closing { read, write }, Op::Signal(dir)) => owed_part(dir, read, write) > 0,
        (Stake::Drains { read, write }, Op::Signal(dir)) => owed_part(dir, read, write) > 0,
        (Stake::Waits(waited), Op::Wake(dir)) => is_same(dir, waited),
        (Stake::Last, Op::Destroy) => true,
        _ => false,
    }
}

/// What a holder has that drained and owes these signals: nothing where it owes none.
pub(crate) fn drains_stake(read: u32, write: u32) -> Stake
    ensures { result ≡ drains_stake read write }
{
    if read == 0 && write == 0 {
        Stake::Free
    } else {
        Stake::Drains { read, write }
    }
}

/// The stake once one signal of this direction was given.
pub(crate) fn stake_after_signal(dir: Dir, own: Stake) -> Stake
    requires { allows own (Op.Signal dir) ≡ true }
    ensures { result ≡ stake_after_signal dir own }
{
    match (dir, own) {
        (Dir::Read, Stake::Closing { read, write }) => Stake::Closing {
            read: read - 1,
            write,
        },
        (Dir::Write, Stake::Closing { read, write }) => Stake::Closing {
            read,
            write: write - 1,
        },
        (Dir::Read, Stake::Drains { read, write }) => drains_stake(read - 1, write),
        (Dir::Write, Stake::Drains { read, write }) => drains_stake(read, write - 1),
        _ => Stake::Free,
    }
}

pub(crate) fn lock_stake(dir: Dir) -> Stake
    ensures { result ≡ lock_stake dir }
{
    match dir {
        Dir::Read => Stake::Read,
        Dir::Write => Stake::Write,
    }
}

/// What a step of the word gained its holder.
pub(crate) fn gained(kind: Kind, after: After) -> (Answer, Stake)
    ensures { result ≡ gained kind after }
{
    match (kind, after) {
        (Kind::Incref, After::Held) => (Answer::Held, Stake::Ref),
        (Kind::Lock(dir), After::Held) => (Answer::Held, lock_stake(dir)),
        (Kind::Lock(dir), After::Queued) => (Answer::Queued, Stake::Waits(dir)),
        (Kind::Unlock(dir), After::Owes) => (Answer::Owes, Stake::Owes(dir)),
        (Kind::Unlock(_), After::Kept) => (Answer::Kept, Stake::Free),
        (Kind::Unlock(_), After::Last) => (Answer::Last, Stake::Last),
        (Kind::Decref, After::Kept) => (Answer::Kept, Stake::Free),
        (Kind::Decref, After::Last) => (Answer::Last, Stake::Last),
        (Kind::Close, After::Closing { read, write }) => {
            (Answer::Closing, Stake::Closing { read, write })
        }
        (Kind::Drain, After::Drained { read, write }) => {
            (Answer::Drained, drains_stake(read, write))
        }
        _ => (Answer::Misuse, Stake::Free),
    }
}

pub(crate) fn refusal_of(refused: Refused) -> Answer
    ensures { result ≡ refusal_of refused }
{
    match refused {
        Refused::Closed => Answer::Closed,
        Refused::TooMany => Answer::TooMany,
        Refused::Misuse => Answer::Misuse,
        Refused::Draining => Answer::Draining,
    }
}
