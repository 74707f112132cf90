//! What a dial knows of the targets beside its own, and how its loop hears that the next one is to
//! be tried.

ghost use Rattle.std.specs.Prelude.{◌≡◌, ◌++◌, ◌∷◌, [], true, false, IfSome, IfNone};
ghost use Rattle.relay_conn.specs.Connection.{given_up_at};
ghost use Rattle.relay_conn.specs.Others as spec;

use crate::dialing::Dialing;
use relay_facts::target_list::Picked;
use std::alloc::Global;
use std::sync::Wait;
use std::sync::ledger::Ledger;
use std::time::Clock;
use target_pick::{Tried, moves_on_at};

/// The targets that may take a client beside the one that is dialled: there is one at least.
#[derive(Clone, Copy, Debug, PartialEq, Eq, Drop)]
pub(crate) struct Others {
    /// The token under which the poller tells of the target's socket, whichever that is.
    pub(crate) token: u64,
    /// The targets that were tried, the one that is dialled among them.
    pub(crate) tried: Tried,
    /// The moment at which the next one is tried, where this one isn't connected by then.
    pub(crate) moves_on_at: Option<u64>,
}

/// Those beside the target that was picked, and is dialled now by a socket with this token, for a
/// client that has until that moment for all; none where it is the last.
pub(crate) fn others_of(picked: &Picked, token: u64, now: u64, until: Option<u64>) -> Option<Others>
    ensures { result ≡ spec.others_of picked.now token now until }
{
    if picked.others == 0 {
        return None;
    }
    Some(Others {
        token,
        tried: picked.tried,
        moves_on_at: moves_on_at(now, until, picked.others),
    })
}

impl<U: Ledger, D: Ledger, R: Wait + Clock + Copy> Dialing<U, D, R> {
    /// Knows from now on which targets may be tried in place of the one that was picked, whose socket
    /// has this token.
    pub(crate) fn keep_others(&mut self, picked: &Picked, token: u64, now: u64)
        ensures others { self.new.others
            ≡ spec.others_of picked.now token now (given_up_at self.new) }
        ensures kept { self.new ≡ record self.old { others = self.new.others } }
    {
        self.others = others_of(picked, token, now, self.given_up_at());
    }
}

/// What the dials of a loop go on by: its runtime, and which connections are to try another target
/// before its next turn, by the tokens of their targets' sides.
#[derive(Drop)]
pub struct Dials<R> {
    pub rt: R,
    seekers: Vec<u64>,
}

impl<R> Dials<R> {
    /// None seeks a target. It takes no memory.
    pub fn new(rt: R, alloc: Global) -> Dials<R>
        ensures rt { result.rt ≡ rt }
        ensures none { spec.seekers_in result ≡ [] }
    {
        Dials {
            rt,
            seekers: Vec::new(alloc),
        }
    }

    /// One more seeks; or there is no memory to note it.
    pub(crate) fn note(&mut self, token: u64) -> bool
        ensures noted { result ≡ true
            → spec.seekers_in self.new ≡ spec.seekers_in self.old ++ token ∷ [] }
        ensures kept { result ≡ false → spec.seekers_in self.new ≡ spec.seekers_in self.old }
        ensures rt { self.new.rt ≡ self.old.rt }
    {
        self.seekers.push(token).is_ok()
    }

    /// Takes one that seeks out.
    pub fn next(&mut self) -> Option<u64>
        ensures next { IfSome result (λ token.
            spec.seekers_in self.old ≡ spec.seekers_in self.new ++ token ∷ []) }
        ensures none { IfNone result (spec.seekers_in self.old ≡ []) }
        ensures kept { IfNone result (spec.seekers_in self.new ≡ []) }
        ensures rt { self.new.rt ≡ self.old.rt }
    {
        self.seekers.pop()
    }
}
