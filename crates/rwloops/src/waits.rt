//! How a call waits until a half is ready.
ghost use Rattle.std.specs.Prelude.{List, ◌∷◌};
ghost use Rattle.rwloops.specs.Waits.{WaitCall, Prepared, Waited};

use base_types::Dir;
use deadline_core::Refusal;

/// How a call waits for the readiness of one direction: Go's `pollDesc`, with `prepareRead`,
/// `waitRead` and their like.
pub trait Waits {
    /// This list is told: each call so far with its answer, newest first.
    ghost tells: { Self → List WaitCall → Type 0 };

    /// Says that tries in this direction begin, unless it may not go on.
    fn prepare(&mut self, dir: Dir) -> Result<(), Refusal>
        ensures told { (calls : List WaitCall) → tells self.old calls
            → tells self.new (Prepared dir result ∷ calls) };

    /// Waits until the direction may be ready, unless it may not go on.
    fn wait(&mut self, dir: Dir) -> Result<(), Refusal>
        ensures told { (calls : List WaitCall) → tells self.old calls
            → tells self.new (Waited dir result ∷ calls) };
}
