//! The health of a checked target: one word, which loops and checks change and picks look at. What
//! it comes to after an outcome is decided in `target_pick` (`Health::after`).
//!
//! | Bits | Field | Greatest |
//! |---|---|---|
//! | 0 to 7 | how many checks passed since the last failure | 100 |
//! | 8 to 15 | how many failures stand at the end | 100 |
//! | 16 to 23 | so many passed checks bring it up | 100 |
//! | 24 to 31 | so many failures bring it down | 100 |
//! | 32 | it is up | 1 |
//!
//! Each word that is stored says what some outcomes come to by its own limits, whichever thread
//! stores it: `IsHealth`.

ghost use Rattle.std.specs.Prelude.{◌≡◌, ◌<◌, IfSome, IfErr};
ghost use Rattle.relay_facts.specs.SharedHealth.{AreSmall, IsHealth, IsNoted, TellsChange};
ghost use Rattle.relay_facts.specs.SharedHealth.{change_of};
ghost use Rattle.relay_facts.specs.SharedHealth as spec;

use relay_config::MAX_IN_A_ROW;
use relay_settings::Checks;
use std::sync::atomic::{AtomicIn, Ordering, Rule};
use target_pick::{Health, Limits, Outcome};

/// What a failure adds to a word. Each count and each limit has eight bits.
const FAILURE: u64 = 1 << 8;
/// What the limit of passed checks is multiplied with.
const RISE: u64 = FAILURE << 8;
/// What the limit of failures is multiplied with.
const FALL: u64 = RISE << 8;
/// What being up adds.
const UP: u64 = FALL << 8;

/// How a target's state has changed.
#[derive(Clone, Copy, Debug, PartialEq, Eq, Drop)]
pub enum Change {
    /// It was up, and is down.
    Down,
    /// It was down, and is up.
    Up,
}

// The limits of these checks, which a configuration has from 1 to 100.
fn limits_of(checks: &Checks) -> Limits
    ensures limits { result ≡ spec.limits_of checks.now }
    ensures small { AreSmall result }
{
    Limits {
        fall: checks.fall.min(MAX_IN_A_ROW),
        rise: checks.rise.min(MAX_IN_A_ROW),
    }
}

// The word of this health by these limits.
fn word_of(limits: &Limits, health: &Health) -> u64
    requires small { AreSmall limits.now }
    requires failures { health.now.failures < 256 }
    requires passes { health.now.passes < 256 }
    ensures limits { spec.limits_in result ≡ limits.now }
    ensures health { spec.health_in result ≡ health.now }
{
    let up = if health.is_up { UP } else { 0 };
    up + FALL * u64::from(limits.fall)
        + RISE * u64::from(limits.rise)
        + FAILURE * u64::from(health.failures)
        + u64::from(health.passes)
}

// The limits that a word has.
fn limits_in(word: u64) -> Limits
    ensures limits { result ≡ spec.limits_in word }
    ensures small { AreSmall result }
{
    Limits {
        fall: (word / FALL % 256) as u32,
        rise: (word / RISE % 256) as u32,
    }
}

// The health that it has.
fn health_in(word: u64) -> Health
    ensures { result ≡ spec.health_in word }
{
    Health {
        is_up: word / UP % 2 == 1,
        failures: (word / FAILURE % 256) as u32,
        passes: (word % 256) as u32,
    }
}

// Whether it says that the target is up.
fn is_up(word: u64) -> bool
    ensures { result ≡ spec.is_up word }
{
    health_in(word).is_up
}

// The word of a target with this state, whose outcomes are counted from now on.
fn word_anew(is_up: bool, limits: &Limits) -> u64
    requires small { AreSmall limits.now }
    ensures health { IsHealth result }
    ensures state { spec.is_up result ≡ is_up }
    ensures limits { spec.limits_in result ≡ limits.now }
{
    let mut health = Health::new(limits);
    health.is_up = is_up;
    word_of(limits, &health)
}

// The word after one outcome more.
fn word_after(word: u64, outcome: Outcome) -> u64
    requires { IsHealth word }
    ensures noted { IsNoted outcome word result }
    ensures health { IsHealth result }
{
    let limits = limits_in(word);
    let health = health_in(word).after(&limits, outcome);
    word_of(&limits, &health)
}

// How the state has changed from one word to another.
fn change_of(old: u64, new: u64) -> Option<Change>
    ensures { result ≡ change_of (spec.is_up old) (spec.is_up new) }
{
    match (is_up(old), is_up(new)) {
        (true, false) => Some(Change::Down),
        (false, true) => Some(Change::Up),
        _ => None,
    }
}

/// What holds of each word that stands for a target's health.
struct HealthRule;

impl Rule for HealthRule {
    ghost use Rattle.relay_facts.specs.SharedHealth.{IsHealth};

    ghost invariant = { λ word. IsHealth word };
}

/// The health of a target.
#[derive(Drop)]
pub struct TargetHealth {
    word: AtomicIn<HealthRule>,
}

impl TargetHealth {
    /// That of a target with this state, whose outcomes are counted from now on by the limits of these
    /// checks.
    pub(crate) fn of_state(is_up: bool, checks: &Checks) -> TargetHealth {
        let limits = limits_of(checks);
        TargetHealth {
            word: AtomicIn::new(word_anew(is_up, &limits)),
        }
    }

    /// Whether these checks have its limits.
    pub(crate) fn has_limits_of(&self, checks: &Checks) -> bool {
        limits_in(self.word.load(Ordering::SeqCst)) == limits_of(checks)
    }

    /// Whether the target is up.
    pub(crate) fn is_up(&self) -> bool {
        is_up(self.word.load(Ordering::SeqCst))
    }

    /// Notes an outcome, and says how that has changed the target's state, if it has. Where another
    /// thread notes one at the same time, each is noted, and a change is told to one of them.
    pub fn note(&self, outcome: Outcome) -> Option<Change>
        ensures { IfSome result (TellsChange outcome) }
    {
        let mut found = self.word.load(Ordering::SeqCst);
        for _ in 0..u64::MAX {
            let next = word_after(found, outcome);
            if next == found {
                return None;
            }
            match self.try_note(found, next) {
                Ok(()) => return change_of(found, next),
                Err(now) => found = now,
            }
        }
        None
    }

    // Has a word follow this one, unless another thread has changed it: then it is told.
    fn try_note(&self, found: u64, next: u64) -> Result<(), u64>
        requires { IsHealth next }
        ensures { IfErr result IsHealth }
    {
        match self
            .word
            .compare_exchange(found, next, Ordering::SeqCst, Ordering::SeqCst)
        {
            Ok(_) => Ok(()),
            Err(now) => Err(now),
        }
    }
}
