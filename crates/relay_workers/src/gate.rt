//! What a worker copies through.

ghost use Rattle.std.specs.Prelude.{◌≡◌, ◌<◌, ◌≤◌, length, List, ◌∷◌, IfOk, IfErr};
ghost use Rattle.relay_core.specs.CopyTrace.{GateCall, Wrote, ClosedWrite, read_call};

use rwloops::{Fault, WriteFault};

/// Where a worker reads bytes, and where it writes them.
pub trait CopyGate {
    /// This list is told: each call so far with its bytes and its answer, newest first.
    ghost tells: { Self → List GateCall → Type 0 };

    /// Reads at least one byte, or says why there is none.
    fn read(&mut self, buf: &mut [u8]) -> Result<usize, Fault>
        requires room { 0 < length buf.old }
        ensures within { IfOk result (λ count. count ≤ length buf.new) }
        ensures some { IfOk result (λ count. 0 < count) }
        ensures told { (calls : List GateCall) → tells self.old calls
            → tells self.new (read_call buf.new result ∷ calls) };

    /// Writes all bytes, or says why not, and how many were taken from the front.
    fn write(&mut self, bytes: &[u8]) -> Result<usize, WriteFault>
        ensures whole { IfOk result (λ count. count ≡ length bytes.now) }
        ensures part { IfErr result (λ failed. failed.count ≤ length bytes.now) }
        ensures told { (calls : List GateCall) → tells self.old calls
            → tells self.new (Wrote bytes.now result ∷ calls) };

    /// Says to where it writes that no more bytes come.
    fn close_write(&mut self) -> Result<(), Fault>
        ensures told { (calls : List GateCall) → tells self.old calls
            → tells self.new (ClosedWrite result ∷ calls) };
}
