//! Bytes that go out as the peer takes them, for a task that may not wait.

ghost use Rattle.std.specs.Prelude.{◌≡◌, ◌≢◌, ◌≤◌, ◌++◌, [], true, false, List, ℕ, OnOk, OnErr, drop, length};
ghost use Rattle.net.specs.Outgoing.{HasSent};

use crate::poll_write::PollWrite;
use std::alloc::{AllocError, Global};
use std::marker::Model;
use std::{io, mem};

/// Bytes to send, of which a front is sent.
#[derive(Drop)]
pub struct Outgoing {
    bytes: Vec<u8>,
    sent: usize,
}

impl Model for Outgoing {
    ghost Value = { List ℕ };

    // What isn't sent yet.
    ghost view = { λ out. drop out.sent out.bytes.items };

    ghost invariant = { λ out. out.sent ≤ length out.bytes.items };
}

impl Outgoing {
    /// Nothing to send.
    pub fn new(alloc: Global) -> Outgoing
        ensures { result ≡ [] }
    {
        Outgoing::of(Vec::new(alloc))
    }

    /// These bytes, of which none is sent.
    pub fn of(bytes: Vec<u8>) -> Outgoing
        ensures { result ≡ bytes.items }
    {
        Outgoing { bytes, sent: 0 }
    }

    /// Whether all is sent.
    pub fn is_sent(&self) -> bool
        ensures sent { result ≡ true → self.now ≡ [] }
        ensures unsent { result ≡ false → self.now ≢ [] }
    {
        self.sent == self.bytes.len()
    }

    /// Adds bytes behind those that are left. Where memory is refused none is added.
    pub fn push(&mut self, bytes: &[u8]) -> Result<(), AllocError>
        ensures more { OnOk result (self.new ≡ self.old ++ bytes.now) }
        ensures kept { OnErr result (self.new ≡ self.old) }
    {
        self.bytes.extend_from_slice(bytes)
    }

    /// Drops what is left, and gives its room, empty, for the next bytes.
    pub fn reuse(&mut self, alloc: Global) -> Vec<u8>
        ensures empty { result.items ≡ [] }
        ensures none { self.new ≡ [] }
    {
        let old = mem::replace(self, Outgoing::new(alloc));
        let Outgoing { bytes, sent: _ } = old;
        let mut bytes = bytes;
        bytes.clear();
        bytes
    }

    /// Sends as much of what is left as is taken at once, by one write. `None` says that some is
    /// left: the task waits for a write. Where nothing is left it writes nothing.
    pub fn poll<W: PollWrite>(&mut self, sink: &mut W) -> Option<io::Result<()>>
        ensures sent { HasSent result self.old self.new
            (W.written sink.old) (W.written sink.new) }
    {
        if self.is_sent() {
            return Some(Ok(()));
        }
        match sink.poll_write(&self.bytes.as_slice()[self.sent..])? {
            Ok(count) => self.sent += count,
            Err(error) => return Some(Err(error)),
        }
        if self.is_sent() { Some(Ok(())) } else { None }
    }
}
