//! Which targets were tried for a client: a bit for each place below 64, which is never cleared.

ghost use Rattle.std.specs.Prelude.{◌≡◌, ◌≢◌, ◌<◌, ℕ, true, false};
ghost use Rattle.target_pick.specs.Tried.{untried, was_tried};

/// The targets that were tried for a client, by their places.
#[derive(Clone, Copy, Debug, PartialEq, Eq, Drop)]
pub struct Tried {
    bits: u64,
}

impl Tried {
    /// None was.
    pub fn none() -> Tried
        ensures { (place : ℕ) → was_tried result place ≡ false }
    {
        Tried { bits: 0 }
    }

    /// Whether the one at this place was.
    pub fn has(self, place: usize) -> bool
        requires { place < 64 }
        ensures { result ≡ was_tried self place }
    {
        self.bits >> place & 1 == 1
    }

    /// The one at this place was tried too.
    pub fn with(self, place: usize) -> Tried
        requires { place < 64 }
        ensures own { was_tried result place ≡ true }
        ensures others { (other : ℕ) → other ≢ place
            → was_tried result other ≡ was_tried self other }
        ensures fewer { was_tried self place ≡ false → untried result < untried self }
    {
        Tried {
            bits: self.bits | 1 << place,
        }
    }
}
