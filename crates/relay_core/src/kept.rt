//! The bytes that a copy has read and couldn't write yet.

ghost use Rattle.std.specs.Prelude.{◌≡◌, ◌≤◌, [], length, drop, true, ◌↔◌, IfOk};

use crate::buffers::LOOP_BUFFER_BYTES;
use base_types::OutOfMemory;
use std::alloc::{Allocator, Global};
use std::marker::Model;

/// The bytes for which each copy has room of its own. It is little, since an idle connection has it
/// twice, and enough to go on with where memory for more is refused. This project's own rule.
const OWN_ROOM_BYTES: usize = 256;

/// Bytes that wait to be written, and room for them. Contracts see the bytes, and how many there is
/// room for: keeping so many takes no memory.
#[derive(Drop)]
pub(crate) struct PendingBytes<A: Allocator = Global> {
    bytes: Vec<u8, A>,
    written: usize,
}

impl<A: Allocator> Model for PendingBytes<A> {
    ghost use Rattle.std.specs.Prelude.{ℕ, ◌≤◌, List, drop, vec_len, vec_capacity};
    ghost use Rattle.relay_core.specs.Lending.{Keeping};

    ghost Value = { Keeping };

    ghost view = { λ k. record {
      bytes = drop k.written k.bytes.items;
      room = vec_capacity k.bytes;
    } };

    ghost invariant = { λ k. (k.written ≤ vec_len k.bytes) × (256 ≤ vec_capacity k.bytes) };
}

impl<A: Allocator> PendingBytes<A> {
    /// Nothing is kept.
    pub(crate) fn new(alloc: A) -> Result<PendingBytes<A>, OutOfMemory>
        ensures nothing { IfOk result (λ kept. kept.bytes ≡ []) }
        ensures room { IfOk result (λ kept. kept.room ≡ 256) }
    {
        let bytes = Vec::with_capacity(alloc, OWN_ROOM_BYTES)?;
        Ok(PendingBytes { bytes, written: 0 })
    }

    /// The bytes that are kept.
    pub(crate) fn as_slice(&self) -> &[u8]
        ensures { result.now ≡ self.now.bytes }
    {
        &self.bytes[self.written..]
    }

    /// Whether nothing is kept.
    pub(crate) fn is_empty(&self) -> bool
        ensures { result ≡ true ↔ self.now.bytes ≡ [] }
    {
        self.written == self.bytes.len()
    }

    /// For how many bytes there is room, which is at least its own.
    pub(crate) fn room(&self) -> usize
        ensures room { result ≡ self.now.room }
        ensures own { 256 ≤ result }
    {
        self.bytes.capacity()
    }

    /// Room for a loop's whole buffer, where nothing is kept. It says whether there was memory for
    /// that; where there wasn't, the room is what it was.
    pub(crate) fn enlarge(&mut self) -> bool
        requires nothing { self.old.bytes ≡ [] }
        ensures nothing { self.new.bytes ≡ [] }
        ensures whole { result ≡ true → 65536 ≤ self.new.room }
        ensures least { self.old.room ≤ self.new.room }
    {
        self.written = 0;
        self.bytes.clear();
        self.bytes.reserve(LOOP_BUFFER_BYTES).is_ok()
    }

    /// Keeps these bytes, and nothing of what was kept before.
    pub(crate) fn keep(&mut self, bytes: &[u8])
        requires fits { length bytes.now ≤ self.old.room }
        ensures kept { self.new.bytes ≡ bytes.now }
        ensures least { self.old.room ≤ self.new.room }
    {
        self.written = 0;
        self.bytes.clear();
        let Ok(()) = self.bytes.extend_from_slice(bytes) else {
            unreachable!()
        };
    }

    /// So many bytes from the front are written.
    pub(crate) fn advance(&mut self, count: usize)
        requires { count ≤ length self.old.bytes }
        ensures rest { self.new.bytes ≡ drop count self.old.bytes }
        ensures room { self.new.room ≡ self.old.room }
    {
        self.written += count;
    }
}
