//! A line that is written once a second at most, however often there is something to tell.

ghost use Rattle.std.specs.Prelude.{◌≡◌};
ghost use Rattle.client_sources.specs.Paced as spec;

/// The time between two lines, in nanoseconds.
const BETWEEN: u64 = 1_000_000_000;

/// When a line was written last.
#[derive(Clone, Copy, Debug, PartialEq, Eq, Drop)]
pub struct Paced {
    last: Option<u64>,
}

impl Paced {
    /// None was.
    pub fn new() -> Paced
        ensures { spec.last_told result ≡ spec.never }
    {
        Paced { last: None }
    }

    /// Whether one may be written at this moment, and then it counts as written.
    pub fn tells(&mut self, now: u64) -> bool
        ensures may { result ≡ spec.may_tell (spec.last_told self.old) now }
        ensures last { spec.last_told self.new ≡ spec.last_told_by (spec.last_told self.old) now }
    {
        let tells = match self.last {
            Some(last) => now.saturating_sub(last) >= BETWEEN,
            None => true,
        };
        if tells {
            self.last = Some(now);
        }
        tells
    }
}
