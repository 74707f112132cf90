//! A gate that gives and takes a few bytes at a time, and says "not yet".

ghost use Rattle.std.specs.Prelude.{◌≤◌, ⊤};

use relay_core::PollGate;
use rwloops::{DevKind, Fault, WriteFault};

/// A gate that gives so many bytes by each read, 0 for "not yet", and the reader's end after its
/// reads; it takes so many by each write, 0 for "not yet", and all after its writes. The bytes are
/// counted up from 0, which the writes check. It tells nothing, as a socket.
#[derive(Drop)]
pub(super) struct PacedGate {
    pub(super) reads: &'static [usize],
    pub(super) writes: &'static [usize],
    // The closes that say "not yet" before one is done.
    pub(super) late_closes: u32,
    // A write after this list of writes fails, having taken one byte.
    pub(super) fails: bool,
    pub(super) next_read: u8,
    pub(super) next_written: u8,
    pub(super) in_order: bool,
    // The fewest and the most bytes that a read asked for.
    pub(super) asked: (usize, usize),
}

impl PacedGate {
    fn take(&mut self, bytes: &[u8]) {
        for byte in bytes {
            if *byte != self.next_written {
                self.in_order = false;
            }
            self.next_written = self.next_written.wrapping_add(1);
        }
    }
}

impl PollGate for PacedGate {
    ghost tells = { λ _ _. ⊥ };

    ghost takes = { λ offered count. count ≤ offered };

    ghost blocked = { λ _ _. ⊤ };

    fn poll_read(&mut self, buf: &mut [u8]) -> Option<Result<usize, Fault>> {
        let (fewest, most) = self.asked;
        self.asked = (fewest.min(buf.len()), most.max(buf.len()));
        let Some((count, later)) = self.reads.split_first() else {
            return Some(Err(Fault::EndOfFile));
        };
        self.reads = later;
        let count = (*count).min(buf.len());
        if count == 0 {
            return None;
        }
        for byte in buf[..count].iter_mut() {
            *byte = self.next_read;
            self.next_read = self.next_read.wrapping_add(1);
        }
        Some(Ok(count))
    }

    fn poll_write(&mut self, bytes: &[u8]) -> Option<Result<usize, WriteFault>> {
        let mut most = bytes.len();
        if let Some((count, later)) = self.writes.split_first() {
            self.writes = later;
            most = *count;
        } else if self.fails {
            self.take(&bytes[..1]);
            return Some(Err(WriteFault {
                fault: Fault::Device(DevKind::Reset),
                count: 1,
            }));
        }
        let count = most.min(bytes.len());
        if count == 0 {
            return None;
        }
        self.take(&bytes[..count]);
        Some(Ok(count))
    }

    fn poll_close_write(&mut self) -> Option<Result<(), Fault>> {
        if self.late_closes > 0 {
            self.late_closes -= 1;
            return None;
        }
        Some(Ok(()))
    }
}
