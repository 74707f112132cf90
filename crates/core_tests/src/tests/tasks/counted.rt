//! A copy that is resumed over a gate which tells what it wrote: the share grows by that.

ghost use Rattle.std.specs.Prelude.{◌≡◌, ◌+◌, ◌≤◌, IfSome};
ghost use Rattle.relay_core.specs.CopyTrace.{written, uncredited};

use super::OwnBook;
use relay_core::{Copying, Ended, LoopMemory, PollGate, Step};
use relay_ledger::{Book, PARTS, Share};
use rwloops::{DevKind, Fault, WriteFault};
use std::alloc::Global;
use std::marker::Brand;
use std::sync::ledger::{Blank, Ledger};

/// Gives single bytes, takes all that it is offered, and tells how much that was.
#[derive(Drop)]
struct CountingGate {
    bytes_left: u32,
    written: u64,
}

impl PollGate for CountingGate {
    ghost tells = { λ gate calls. gate.written ≡ written calls };

    ghost takes = { λ offered count. count ≤ offered };

    ghost blocked = { λ _ _. ⊥ };

    fn poll_read(&mut self, _buf: &mut [u8]) -> Option<Result<usize, Fault>> {
        if self.bytes_left == 0 {
            return Some(Err(Fault::EndOfFile));
        }
        self.bytes_left -= 1;
        Some(Ok(1))
    }

    fn poll_write(&mut self, bytes: &[u8]) -> Option<Result<usize, WriteFault>> {
        match self.written.checked_add(bytes.len() as u64) {
            Some(sum) => {
                self.written = sum;
                Some(Ok(bytes.len()))
            }
            None => Some(Err(WriteFault {
                fault: Fault::Device(DevKind::Other),
                count: 0,
            })),
        }
    }

    fn poll_close_write(&mut self) -> Option<Result<(), Fault>> {
        Some(Ok(()))
    }
}

// What the contract of a copy says over a gate that tells a part of its calls.
fn resumed_and_counted<L: Ledger>(
    credits: &mut OwnBook<L>,
    share: &mut Share<L>,
    memory: &mut LoopMemory,
    copying: &mut Copying,
    gate: &mut CountingGate,
) -> Option<Ended>
    requires { gate.old.written ≡ 0 }
    ensures { IfSome result (λ ended. share.new + uncredited ended ≡ share.old + gate.new.written) }
{
    match copying.resume(gate, credits, share, memory) {
        Step::Ended(ended) => Some(ended),
        _ => None,
    }
}

fn counted_run<L: Ledger>(alloc: Global, blank: Blank) -> Option<(Ended, u64, u64)>
    requires name { blank.name ≡ L.name }
    requires parts { blank.parts ≡ L.parts }
    requires all { blank.parts ≡ 4294967296 }
{
    let mut memory = LoopMemory::new(alloc).ok()?;
    let mut copying = Copying::new(alloc).ok()?;
    let mut book = Book::<L>::new(blank);
    let Ok(mut share) = book.open_share() else {
        return None;
    };
    let mut book = OwnBook { book };
    let mut gate = CountingGate {
        bytes_left: 5,
        written: 0,
    };
    let ended = resumed_and_counted(&mut book, &mut share, &mut memory, &mut copying, &mut gate);
    let amount = share.amount();
    share.give_up();
    Some((ended?, amount, gate.written))
}

#[test]
fn share_grows_by_what_a_telling_gate_took(rt: HostRuntime) {
    let got = counted_run::<Brand>(rt.alloc(), Blank::new(PARTS));
    assert!(rt; got == Some((Ended::Eof, 5, 5)), "{got:?}");
}
