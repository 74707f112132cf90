//! The two semaphores of a lock word: for each direction the signals that were given and that no
//! waiter has taken yet, 0 to [`MAX_SIGNALS`].

ghost use Rattle.std.specs.Prelude.{◌≡◌, ◌+◌, ◌-◌, ◌<◌, ◌≤◌, IfNone, IfSome};
ghost use Rattle.lockword_core.specs.Signals.{signals_in, with_signals};

use base_types::Dir;

/// The greatest number of signals in a semaphore.
pub const MAX_SIGNALS: u64 = 4_294_967_295;

/// The signals of both directions.
#[derive(Clone, Copy, Debug, Default, PartialEq, Eq, Drop)]
pub struct Signals {
    pub read: u64,
    pub write: u64,
}

impl Signals {
    /// The signals of this direction.
    pub fn of(self, dir: Dir) -> u64
        ensures { result ≡ signals_in dir self }
    {
        match dir {
            Dir::Read => self.read,
            Dir::Write => self.write,
        }
    }

    /// The same, with this number of signals in one direction.
    pub fn with(self, dir: Dir, signals: u64) -> Signals
        ensures { result ≡ with_signals dir signals self }
    {
        match dir {
            Dir::Read => Signals {
                read: signals,
                write: self.write,
            },
            Dir::Write => Signals {
                read: self.read,
                write: signals,
            },
        }
    }
}

/// One signal more, or `None` where a semaphore is at [`MAX_SIGNALS`] or above.
pub fn signal_add(signals: u64) -> Option<u64>
    ensures full { IfNone result (MAX_SIGNALS ≤ signals) }
    ensures room { IfSome result (λ more. signals < MAX_SIGNALS) }
    ensures adds_one { IfSome result (λ more. more ≡ signals + 1) }
{
    if signals < MAX_SIGNALS {
        Some(signals + 1)
    } else {
        None
    }
}

/// One signal less, or `None` where there is none.
pub fn signal_take(signals: u64) -> Option<u64>
    ensures none { IfNone result (signals ≡ 0) }
    ensures some { IfSome result (λ left. 0 < signals) }
    ensures takes_one { IfSome result (λ left. left ≡ signals - 1) }
{
    if signals == 0 {
        None
    } else {
        Some(signals - 1)
    }
}
