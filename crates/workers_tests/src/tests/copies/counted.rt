//! A worker over a gate that tells what it wrote: the share grows by that.

ghost use Rattle.std.specs.Prelude.{◌≡◌, ◌+◌};
ghost use Rattle.relay_core.specs.CopyTrace.{written, uncredited};

use relay_core::Ended;
use relay_ledger::{Book, PARTS, Share};
use relay_workers::{CopyGate, copy_worker};
use rwloops::{DevKind, Fault, WriteFault};
use std::marker::Brand;
use std::sync::ledger::{Blank, Ledger};
use std::sync::{Mutex, Wait};

/// Gives single bytes, takes all that it is offered, and tells how much that was.
#[derive(Drop)]
struct CountingGate {
    bytes_left: u32,
    written: u64,
}

impl CopyGate for CountingGate {
    ghost tells = { λ gate calls. gate.written ≡ written calls };

    fn read(&mut self, _buf: &mut [u8]) -> Result<usize, Fault> {
        if self.bytes_left == 0 {
            return Err(Fault::EndOfFile);
        }
        self.bytes_left -= 1;
        Ok(1)
    }

    fn write(&mut self, bytes: &[u8]) -> Result<usize, WriteFault> {
        match self.written.checked_add(bytes.len() as u64) {
            Some(sum) => {
                self.written = sum;
                Ok(bytes.len())
            }
            None => Err(WriteFault {
                fault: Fault::Device(DevKind::Other),
                count: 0,
            }),
        }
    }

    fn close_write(&mut self) -> Result<(), Fault> {
        Ok(())
    }
}

// What the contract of a worker says over a gate that tells a part of its calls.
fn copied_and_counted<L: Ledger, R: Wait>(
    rt: &R,
    book: &Mutex<Book<L>>,
    share: &mut Share<L>,
    gate: &mut CountingGate,
) -> Ended
    requires { gate.old.written ≡ 0 }
    ensures { share.new + uncredited result ≡ share.old + gate.new.written }
{
    let mut buf = [0u8; 8];
    copy_worker(rt, gate, book, share, &mut buf)
}

fn counted_run<L: Ledger, R: Wait>(rt: &R, blank: Blank) -> Option<(Ended, u64, u64)>
    requires name { blank.name ≡ L.name }
    requires parts { blank.parts ≡ L.parts }
    requires all { blank.parts ≡ 4294967296 }
{
    let mut book = Book::<L>::new(blank);
    let Ok(mut share) = book.open_share() else {
        return None;
    };
    let book = Mutex::new(book);
    let mut gate = CountingGate {
        bytes_left: 300,
        written: 0,
    };
    let ended = copied_and_counted(rt, &book, &mut share, &mut gate);
    let amount = share.amount();
    share.give_up();
    Some((ended, amount, gate.written))
}

#[test]
fn share_grows_by_what_a_telling_gate_wrote(rt: HostRuntime) {
    let got = counted_run::<Brand, _>(&rt, Blank::new(PARTS));
    assert!(rt; got == Some((Ended::Eof, 300, 300)), "{got:?}");
}
