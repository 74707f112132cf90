//! Where a task accepts by calls that don't wait, and to whom it delivers.

ghost use Rattle.std.specs.Prelude.{List, ◌∷◌, IfSome, IfNone};
ghost use Rattle.relay_core.specs.AcceptTrace.{AcceptCall, Accepted, Delivered};

use rwloops::Fault;

/// Where a task accepts, by calls that answer at once, and to whom it delivers. It isn't asked to
/// pause: that is for whoever resumes the task.
pub trait PollAcceptGate {
    /// What is accepted.
    type T;

    /// This list is told: each finished call so far with its answer, newest first. A call that
    /// isn't finished leaves it.
    ghost tells: { Self → List (AcceptCall Self.T) → Type 0 };

    /// The last accept isn't finished.
    ghost blocked: { Self → Type 0 };

    /// Accepts one, or says why it can't. `None` is "not yet": the call did nothing, and whoever
    /// accepts is woken when it may be made again.
    fn poll_accept(&mut self) -> Option<Result<Self::T, Fault>>
        ensures told { IfSome result (λ answer. (calls : List (AcceptCall Self.T))
            → tells self.old calls → tells self.new (Accepted answer ∷ calls)) }
        ensures silent { IfNone result ((calls : List (AcceptCall Self.T)) → tells self.old calls
            → tells self.new calls) }
        ensures not_yet { IfNone result (blocked self.new) };

    /// Hands on what was accepted.
    fn deliver(&mut self, taken: Self::T)
        ensures told { (calls : List (AcceptCall Self.T)) → tells self.old calls
            → tells self.new (Delivered taken ∷ calls) };
}
