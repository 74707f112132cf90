//! Both workers of a pair run at once, and each leaves its share and tells its own end.

ghost use Rattle.std.specs.Prelude.{◌≡◌};

use relay_core::Ended;
use relay_ledger::{Book, PARTS, give_up_all};
use relay_workers::{AtEnd, CopyGate, Done, start_pair};
use rwloops::{Fault, WriteFault};
use std::marker::Brand;
use std::process::Abort;
use std::sync::atomic::{AtomicU64, Ordering};
use std::sync::ledger::{Blank, Ledger};
use std::sync::{Arc, Mutex, Wait};
use std::thread;
use std::thread::Threads;
use std::time::{Clock, Duration};

/// How many writes have begun, and a sum of how the workers ended.
#[derive(Drop)]
struct Tally {
    begun: AtomicU64,
    ended: AtomicU64,
}

/// Gives three bytes and then the end. A write says that it has begun, and ends once two have, or
/// 10,000 turns are over.
#[derive(Drop)]
struct OneRound<R: Clock + Drop> {
    rt: R,
    tally: Arc<Tally>,
    was_read: bool,
    close: Result<(), Fault>,
}

impl<R: Clock + Drop> CopyGate for OneRound<R> {
    ghost tells = { λ _ _. ⊥ };

    fn read(&mut self, buf: &mut [u8]) -> Result<usize, Fault> {
        if self.was_read {
            return Err(Fault::EndOfFile);
        }
        self.was_read = true;
        Ok(buf.len().min(3))
    }

    fn write(&mut self, bytes: &[u8]) -> Result<usize, WriteFault> {
        self.tally.begun.fetch_add(1, Ordering::SeqCst);
        for _ in 0..10_000 {
            if self.tally.begun.load(Ordering::SeqCst) > 1 {
                return Ok(bytes.len());
            }
            thread::sleep(&self.rt, Duration::from_millis(1));
        }
        Err(WriteFault {
            fault: Fault::Closed,
            count: 0,
        })
    }

    fn close_write(&mut self) -> Result<(), Fault> {
        self.close
    }
}

/// Adds up the workers that ended, by a number of its own for each way to end.
#[derive(Drop)]
struct Counted {
    tally: Arc<Tally>,
    whole: u64,
    failed: u64,
}

impl AtEnd for Counted {
    fn ended(&self, ended: Ended) {
        let count = if ended == Ended::Eof {
            self.whole
        } else {
            self.failed
        };
        self.tally.ended.fetch_add(count, Ordering::SeqCst);
    }
}

fn shared<R: Abort, T>(rt: &R, one: &Arc<T>) -> Arc<T> {
    Arc::try_clone(one).expect(rt, "shared")
}

/// How a worker ended, if it left its share, which is settled.
fn settled<L: Ledger, R: Wait>(rt: &R, book: &Mutex<Book<L>>, done: Done<L>) -> Option<Ended> {
    let Done { ended, share } = done;
    let Some(share) = share else {
        return None;
    };
    book.lock(rt).settle(share.into_share());
    Some(ended)
}

/// How both workers ended, and the total of their book, from which no share is missing.
type Ends = (Option<Ended>, Option<Ended>, Option<u64>);

/// Runs a pair of which each worker waits in its write for the other's. The second fails at its
/// close.
fn both_run<L, R>(rt: R, blank: Blank, tally: &Arc<Tally>) -> Ends
where
    L: Ledger + Send + Sync + 'static,
    R: Wait + Threads + Clock + Abort + AllocGlobal + Copy + Drop + Send + Sync + 'static,
    requires name { blank.name ≡ L.name }
    requires parts { blank.parts ≡ L.parts }
    requires all { blank.parts ≡ 4294967296 }
{
    let book = Arc::new(rt.alloc(), Mutex::new(Book::<L>::new(blank)));
    let book = book.expect(&rt, "a book");
    let first = OneRound {
        rt,
        tally: shared(&rt, tally),
        was_read: false,
        close: Ok(()),
    };
    let second = OneRound {
        rt,
        tally: shared(&rt, tally),
        was_read: false,
        close: Err(Fault::Closed),
    };
    let first_end = Counted {
        tally: shared(&rt, tally),
        whole: 1,
        failed: 10,
    };
    let second_end = Counted {
        tally: shared(&rt, tally),
        whole: 100,
        failed: 1_000,
    };
    let (ups, downs) = (shared(&rt, &book), shared(&rt, &book));
    let started = start_pair(rt, first, second, ups, downs, first_end, second_end);
    let (first, second) = started.ok().expect(&rt, "threads");
    let first = settled(&rt, &book, first.join(&rt));
    let second = settled(&rt, &book, second.join(&rt));
    let gathered = book.lock(&rt).gather(Vec::new(rt.alloc()));
    match gathered {
        Ok(total) => (first, second, Some(total)),
        Err(back) => {
            give_up_all(back);
            (first, second, None)
        }
    }
}

#[test]
fn both_directions_run_at_once(rt: HostRuntime) {
    let tally = Tally {
        begun: AtomicU64::new(0),
        ended: AtomicU64::new(0),
    };
    let tally = Arc::new(rt.alloc(), tally).expect(&rt, "counts");
    let ends = both_run::<Brand, HostRuntime>(rt, Blank::new(PARTS), &tally);
    let closed = Some(Ended::CloseFault(Fault::Closed));
    assert!(rt; ends == (Some(Ended::Eof), closed, Some(6)), "{ends:?}");
    let ended = tally.ended.load(Ordering::SeqCst);
    assert!(rt; ended == 1_001, "{ended}");
}
