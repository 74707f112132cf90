//! What a loop lends to each copy in turn.

ghost use Rattle.std.specs.Prelude.{◌≡◌, ◌<◌, ◌≤◌, ℕ, [], length, take, drop};
ghost use Rattle.std.specs.Prelude.{IfOk, IfErr, IfSome, IfNone};
ghost use Rattle.relay_core.specs.Passing.{Bytes, Close, IsPassing, IsPassed, IsStop};
ghost use Rattle.base_types.specs.declared.direction.Dir.{Dir};

use crate::buffers::LOOP_BUFFER_BYTES;
use crate::kept::PendingBytes;
use crate::passing::{Step, read_once};
use crate::poll_gate::PollGate;
use base_types::OutOfMemory;
use std::alloc::{Allocator, Global};
use std::marker::Model;
use std::mem;

/// The memory of a loop that it lends to the copy that goes on: a buffer of `LOOP_BUFFER_BYTES` to
/// read into, and room for what a write doesn't take. A copy that has to keep more than its own
/// room holds takes the loop's in exchange, and the loop takes new memory before the next read. So
/// a copy that never had to keep anything has no memory for it, a read takes no more than can be
/// kept, and where memory is refused copies go on by smaller reads. Contracts see the buffer's bytes
/// and the room beside it.
#[derive(Drop)]
pub struct LoopMemory<A: Allocator = Global> {
    buffer: Vec<u8, A>,
    spare: PendingBytes<A>,
}

impl<A: Allocator> Model for LoopMemory<A> {
    ghost use Rattle.std.specs.Prelude.{◌≡◌, [], length};
    ghost use Rattle.relay_core.specs.Lending.{Lending};

    ghost Value = { Lending };

    ghost view = { λ m. record { buffer = m.buffer.items; room = m.spare.room } };

    ghost invariant = { λ m. (length m.buffer.items ≡ 65536) × (m.spare.bytes ≡ []) };
}

impl<A: Allocator + Copy> LoopMemory<A> {
    /// All bytes of the buffer are there, so that lending them takes no memory. The clause has the
    /// figure itself, so that a constant of another value is refused.
    pub fn new(alloc: A) -> Result<LoopMemory<A>, OutOfMemory>
        ensures whole { IfOk result (λ memory. length memory.buffer ≡ 65536) }
    {
        let mut buffer = Vec::with_capacity(alloc, LOOP_BUFFER_BYTES)?;
        buffer.resize(LOOP_BUFFER_BYTES, 0)?;
        let spare = PendingBytes::new(alloc)?;
        Ok(LoopMemory { buffer, spare })
    }
}

impl<A: Allocator> LoopMemory<A> {
    /// Reads once, into the front of the buffer, and no more than there is room for beside it.
    pub(crate) fn read<G: PollGate>(&mut self, gate: &mut G) -> Result<Option<usize>, Step>
        ensures within { IfOk result (λ read. IfSome read (λ count.
            count ≤ length self.new.buffer)) }
        ensures fits { IfOk result (λ read. IfSome read (λ count. count ≤ self.new.room)) }
        ensures some { IfOk result (λ read. IfSome read (λ count. 0 < count)) }
        ensures bytes { IfOk result (λ read. IfSome read (λ count. (amount : ℕ)
            → IsPassing G.takes (G.tells gate.old) (G.tells gate.new) amount amount (Bytes [])
            (Bytes (take count self.new.buffer)) 1 1)) }
        ensures end { IfOk result (λ read. IfNone read ((amount : ℕ)
            → IsPassing G.takes (G.tells gate.old) (G.tells gate.new) amount amount (Bytes [])
            Close 1 1)) }
        ensures stopped { IfErr result (IsStop Dir.Read (G.blocked gate.new)
            ((amount : ℕ) → IsPassing G.takes (G.tells gate.old) (G.tells gate.new) amount amount
            (Bytes []) (Bytes []) 0 0)
            (λ ended. (amount : ℕ) → IsPassed G.takes (G.tells gate.old) (G.tells gate.new)
            amount amount (Bytes []) ended 1)) }
    {
        let _ = self.spare.enlarge();
        let most = self.spare.room().min(LOOP_BUFFER_BYTES);
        read_once(gate, self.buffer.as_mut_slice(), most)
    }

    /// So many bytes from the front of the buffer.
    pub(crate) fn first(&self, count: usize) -> &[u8]
        requires within { count ≤ length self.now.buffer }
        ensures { result.now ≡ take count self.now.buffer }
    {
        &self.buffer[..count]
    }

    /// A copy that keeps nothing keeps these bytes of the buffer, in room of its own or in the
    /// loop's.
    pub(crate) fn keep(&mut self, from: usize, to: usize, kept: &mut PendingBytes<A>)
        requires order { from ≤ to }
        requires within { to ≤ length self.old.buffer }
        requires fits { to ≤ self.old.room }
        requires nothing { kept.old.bytes ≡ [] }
        ensures kept { kept.new.bytes ≡ drop from (take to self.old.buffer) }
        ensures stays { self.new.buffer ≡ self.old.buffer }
    {
        let bytes = &self.buffer[from..to];
        if kept.room() < bytes.len() {
            mem::swap(kept, &mut self.spare);
        }
        kept.keep(bytes);
    }
}
