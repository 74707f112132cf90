//! What an operator sets of a rule's targets, by the words of a command. It holds until the next one, or
//! until a reload.

ghost use Rattle.std.specs.Prelude.{◌≡◌, ◌<◌, ℕ, true, false, Some, IsSomeAnd, IfSome, IfNone};
ghost use Rattle.std.specs.Prelude.{is_some, slice_get};
ghost use Rattle.relay_facts.specs.KnownTargets.{listed_at};
ghost use Rattle.relay_facts.specs.Steering.{names};
ghost use Rattle.relay_facts.specs.Targets.{targets_of};
ghost use Rattle.relay_settings.specs.declared.targets.Target.{Target};

use crate::known_targets::target_at;
use crate::shown_targets::state_now;
use crate::target_list::Targets;
use itoa::Buffer;
use relay_admin::{Addr, Order, TargetState};
use relay_settings::Target;

// Whether the word names the target at this place: by its address, or by its place from 1 on.
fn is_named(word: &[u8], place: usize, target: &Target) -> bool
    requires { place < 64 }
    ensures { result ≡ names word.now place target.now }
{
    let mut digits = Buffer::new();
    word == target.at.text().as_bytes() || word == digits.format(place as u64 + 1).as_bytes()
}

impl Targets {
    /// The first place whose target this word names.
    pub fn place_named(&self, word: &[u8]) -> Option<usize>
        ensures named { IfSome result (λ place. IsSomeAnd (slice_get (targets_of self.now) place)
            (λ target. names word.now place target ≡ true)) }
        ensures none { IfNone result ((place : ℕ) → (target : Target)
            → slice_get (targets_of self.now) place ≡ Some target
            → names word.now place target ≡ false) }
    {
        for place in 0..self.all.len() {
            if is_named(word, place, &self.all[place].target) {
                return Some(place);
            }
        }
        None
    }

    /// Sets this of the target at this place, and so of all at its address. Where that changes its state,
    /// it has come to it at this moment by the calendar.
    pub fn set(&self, place: usize, order: Order, now: u64) {
        let Some(counted) = self.all.get(place) else {
            return;
        };
        let before = state_now(counted);
        counted.counts.order.set(order);
        if state_now(counted) != before {
            counted.counts.begin(now);
        }
    }

    // The state now of the target at this address, if there is one.
    fn state_at(&self, at: &Addr) -> Option<TargetState>
        ensures { is_some result ≡ is_some (listed_at at.now self.now.all.items) }
    {
        Some(state_now(target_at(self.all.as_slice(), at)?))
    }

    /// They are the targets of their rule from this moment on, by the calendar, where these were before:
    /// what an operator has set of them is over. One that is new, or that comes to another state by
    /// this, comes to it now.
    pub fn follow(&self, before: Option<&Targets>, now: u64) {
        for counted in self.all.iter() {
            let was = match before {
                Some(before) => before.state_at(&counted.target.at),
                None => None,
            };
            counted.counts.order.set(Order::Auto);
            if was != Some(state_now(counted)) {
                counted.counts.begin(now);
            }
        }
    }

    /// They are the targets of their rule from this moment on, by the calendar, since a host was looked up,
    /// where these were before: what an operator has set of them stays. One that is new comes to its state
    /// now.
    pub fn come(&self, before: &Targets, now: u64) {
        for counted in self.all.iter() {
            if before.state_at(&counted.target.at) != Some(state_now(counted)) {
                counted.counts.begin(now);
            }
        }
    }

    /// The health of the target at this place has changed at this moment, by the calendar: so has its
    /// state, unless an operator has set it.
    pub(crate) fn begin_anew(&self, place: usize, now: u64) {
        let Some(counted) = self.all.get(place) else {
            return;
        };
        match counted.counts.order.get() {
            Order::Auto | Order::Drain => counted.counts.begin(now),
            Order::Up | Order::Down => {}
        }
    }
}
