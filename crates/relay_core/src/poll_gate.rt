//! What a copy goes through whose calls don't wait.

ghost use Rattle.std.specs.Prelude.{◌<◌, ◌≤◌, ℕ, length, List, ◌∷◌, IfOk, IfErr, IfSome, IfNone};
ghost use Rattle.base_types.specs.declared.direction.Dir.{Dir};
ghost use Rattle.relay_core.specs.CopyTrace.{GateCall, Wrote, ClosedWrite, read_call};

use base_types::Dir;
use rwloops::{Fault, WriteFault};

/// Where a copy reads bytes and writes them, by calls that answer at once. `None` is "not yet": the
/// call did nothing, and whoever copies is woken when it may be made again.
pub trait PollGate {
    /// This list is told: each finished call so far with its bytes and its answer, newest first. A
    /// call that isn't finished leaves it.
    ghost tells: { Self → List GateCall → Type 0 };

    /// Of so many bytes that it is offered, a write that is Ok may take so many.
    ghost takes: { ℕ → ℕ → Type 0 };

    /// The last call was in this direction, and isn't finished.
    ghost blocked: { Self → Dir → Type 0 };

    /// Reads at least one byte, or says why there is none.
    fn poll_read(&mut self, buf: &mut [u8]) -> Option<Result<usize, Fault>>
        requires room { 0 < length buf.old }
        ensures within { IfSome result (λ answer. IfOk answer (λ count. count ≤ length buf.new)) }
        ensures some { IfSome result (λ answer. IfOk answer (λ count. 0 < count)) }
        ensures told { IfSome result (λ answer. (calls : List GateCall) → tells self.old calls
            → tells self.new (read_call buf.new answer ∷ calls)) }
        ensures silent { IfNone result ((calls : List GateCall) → tells self.old calls
            → tells self.new calls) }
        ensures not_yet { IfNone result (blocked self.new Dir.Read) };

    /// Writes some bytes from the front, or says why not, and how many were taken before.
    fn poll_write(&mut self, bytes: &[u8]) -> Option<Result<usize, WriteFault>>
        requires some { 0 < length bytes.now }
        ensures within { IfSome result (λ answer. IfOk answer (λ count. count ≤ length bytes.now)) }
        ensures part { IfSome result (λ answer.
            IfErr answer (λ failed. failed.count ≤ length bytes.now)) }
        ensures takes { IfSome result (λ answer. IfOk answer (takes (length bytes.now))) }
        ensures told { IfSome result (λ answer. (calls : List GateCall) → tells self.old calls
            → tells self.new (Wrote bytes.now answer ∷ calls)) }
        ensures silent { IfNone result ((calls : List GateCall) → tells self.old calls
            → tells self.new calls) }
        ensures not_yet { IfNone result (blocked self.new Dir.Write) };

    /// Says to where it writes that no more bytes come.
    fn poll_close_write(&mut self) -> Option<Result<(), Fault>>
        ensures told { IfSome result (λ answer. (calls : List GateCall) → tells self.old calls
            → tells self.new (ClosedWrite answer ∷ calls)) }
        ensures silent { IfNone result ((calls : List GateCall) → tells self.old calls
            → tells self.new calls) }
        ensures not_yet { IfNone result (blocked self.new Dir.Write) };
}
