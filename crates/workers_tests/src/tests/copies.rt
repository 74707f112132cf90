//! How a worker ends over a scripted gate, what its share and its book then have, and through which
//! buffer it reads; and a gate that tells what it wrote.
mod counted;

ghost use Rattle.std.specs.Prelude.{◌≡◌};

use relay_core::Ended;
use relay_ledger::{Book, PARTS};
use relay_workers::{CopyGate, copy_by_need, copy_worker};
use rwloops::{DevKind, Fault, WriteFault};
use std::marker::Brand;
use std::sync::ledger::{Blank, Ledger};
use std::sync::{Mutex, Wait};

/// Gives the answers of a script, and adds up the rooms that its reads saw. It tells nothing, as a
/// socket.
#[derive(Drop)]
struct ScriptedGate {
    reads: &'static [usize],
    // The writes that succeed before one fails.
    whole_writes: u32,
    // How the reads end.
    read_fault: Fault,
    close: Result<(), Fault>,
    rooms: usize,
}

const RESET: WriteFault = WriteFault {
    fault: Fault::Device(DevKind::Reset),
    count: 2,
};

impl CopyGate for ScriptedGate {
    ghost tells = { λ _ _. ⊥ };

    fn read(&mut self, buf: &mut [u8]) -> Result<usize, Fault> {
        self.rooms = self.rooms.saturating_add(buf.len());
        let Some((count, later)) = self.reads.split_first() else {
            return Err(self.read_fault);
        };
        self.reads = later;
        Ok((*count).max(1).min(buf.len()))
    }

    fn write(&mut self, bytes: &[u8]) -> Result<usize, WriteFault> {
        if self.whole_writes == 0 {
            return Err(WriteFault {
                fault: RESET.fault,
                count: RESET.count.min(bytes.len()),
            });
        }
        self.whole_writes -= 1;
        Ok(bytes.len())
    }

    fn close_write(&mut self) -> Result<(), Fault> {
        self.close
    }
}

/// How the worker ended, its share's amount, the book's total, and the sum of the rooms.
type Course = (Ended, u64, u64, usize);

/// What a worker makes of a gate on a book that has counted this much before: one through a buffer
/// of so many bytes, or one by need.
fn copied<L: Ledger, R: Wait>(
    rt: &R,
    blank: Blank,
    before: u64,
    gate: &mut ScriptedGate,
    is_by_need: bool,
) -> Option<Course>
    requires name { blank.name ≡ L.name }
    requires parts { blank.parts ≡ L.parts }
    requires all { blank.parts ≡ 4294967296 }
{
    let mut book = Book::<L>::new(blank);
    let Ok(mut share) = book.open_share() else {
        return None;
    };
    let _ = book.credit(&mut share, before);
    let book = Mutex::new(book);
    let ended = if is_by_need {
        copy_by_need(rt, gate, &book, &mut share)
    } else {
        copy_worker(rt, gate, &book, &mut share, &mut [0u8; 8])
    };
    let amount = share.amount();
    share.give_up();
    let total = book.lock(rt).total();
    Some((ended, amount.saturating_sub(before), total, gate.rooms))
}

/// A row: its name, what the book has counted before, the gate's reads, its whole writes, the fault
/// of its reads and its close; whether the copy is by need; and what the worker makes of it.
struct Row(
    &'static str,
    u64,
    &'static [usize],
    u32,
    Fault,
    Result<(), Fault>,
    bool,
    Course,
);

const ALL: u32 = u32::MAX;

const EOF: Fault = Fault::EndOfFile;

const BROKEN_PIPE: Fault = Fault::Device(DevKind::BrokenPipe);

const ROWS: &[Row] = &[
    Row(
        "a failed write credits what it took",
        0,
        &[5, 3],
        1,
        EOF,
        Ok(()),
        false,
        (Ended::WriteFault(RESET), 7, 7, 16),
    ),
    Row(
        "a failed close keeps the credit",
        0,
        &[5],
        ALL,
        EOF,
        Err(BROKEN_PIPE),
        false,
        (Ended::CloseFault(BROKEN_PIPE), 5, 5, 16),
    ),
    Row(
        "a full book ends a worker",
        18_446_744_073_709_551_612,
        &[5],
        ALL,
        EOF,
        Ok(()),
        false,
        (Ended::BookFull(5), 0, 18_446_744_073_709_551_612, 8),
    ),
    // That a book which had room isn't called full: no clause can name what is under the lock.
    Row(
        "a book with room takes credit",
        18_446_744_073_709_551_599,
        &[5, 8, 3],
        ALL,
        EOF,
        Ok(()),
        false,
        (Ended::Eof, 16, 18_446_744_073_709_551_615, 32),
    ),
    Row(
        "a failed read ends a worker",
        0,
        &[8],
        ALL,
        Fault::DeadlineExceeded,
        Ok(()),
        false,
        (Ended::ReadFault(Fault::DeadlineExceeded), 8, 8, 16),
    ),
    Row(
        "a first buffer that is never full stays",
        0,
        &[1, 1_023, 7],
        ALL,
        EOF,
        Ok(()),
        true,
        (Ended::Eof, 1_031, 1_031, 4 * 1_024),
    ),
    // The read that ends a copy through the larger buffer has the larger room too.
    Row(
        "a full first buffer is followed by a larger",
        0,
        &[5, 1_024, 16_384, 1],
        ALL,
        EOF,
        Ok(()),
        true,
        (Ended::Eof, 17_414, 17_414, 2 * 1_024 + 3 * 16_384),
    ),
];

fn course_of<R: Wait>(rt: &R, row: &Row) -> Option<Course> {
    let Row(_, before, _, whole_writes, read_fault, close, is_by_need, _) = row;
    let mut gate = ScriptedGate {
        reads: row.2,
        whole_writes: *whole_writes,
        read_fault: *read_fault,
        close: *close,
        rooms: 0,
    };
    copied::<Brand, _>(rt, Blank::new(PARTS), *before, &mut gate, *is_by_need)
}

#[test]
fn a_worker_ends_as_its_rows_say(rt: HostRuntime) {
    for row in ROWS {
        let went = course_of(&rt, row);
        assert!(rt; went == Some(row.7), "{}: {went:?}", row.0);
    }
}
