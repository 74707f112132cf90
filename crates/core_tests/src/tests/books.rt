//! Shares that cross threads.

ghost use Rattle.std.specs.Prelude.{◌≡◌};

use relay_ledger::book::{Book, Full, PARTS};
use relay_ledger::share::{CarriedShare, Share, give_up_all};
use std::alloc::Global;
use std::marker::Brand;
use std::process::Abort;
use std::sync::ledger::{Blank, Ledger};
use std::sync::{Arc, Mutex, Wait};
use std::thread;
use std::thread::Threads;

// One share more in the list, or one share less to gather.
fn put_into<L: Ledger>(shares: &mut Vec<Share<L>>, carried: Option<CarriedShare<L>>) {
    if let Some(carried) = carried {
        if let Err(failed) = shares.push(carried.into_share()) {
            failed.value.give_up();
        }
    }
}

// The total, or `None` and the shares are given up.
fn total_of<L: Ledger>(book: &mut Book<L>, shares: Vec<Share<L>>) -> Option<u64> {
    match book.gather(shares) {
        Ok(total) => Some(total),
        Err(back) => {
            give_up_all(back);
            None
        }
    }
}

// A worker on its own thread: it opens its share there, and gives it to the join.
fn work<L: Ledger, R: Wait>(rt: &R, book: &Mutex<Book<L>>, n: u64) -> Option<CarriedShare<L>> {
    let opened = book.lock(rt).open_share();
    match opened {
        Ok(mut share) => {
            for _ in 0..100u32 {
                let _ = book.lock(rt).credit(&mut share, n);
            }
            Some(CarriedShare::new(share))
        }
        Err(Full) => None,
    }
}

// The gathered total of two workers and the book's own, where the last share may be lost.
fn across_threads<L, R>(rt: R, heap: Global, blank: Blank, lose: bool) -> (Option<u64>, u64)
where
    L: Ledger + Send + Sync + 'static,
    R: Threads + Wait + Abort + Copy + Send + 'static,
    requires name { blank.name ≡ L.name }
    requires parts { blank.parts ≡ L.parts }
    requires all { blank.parts ≡ 4294967296 }
{
    let book = Arc::new(heap, Mutex::new(Book::<L>::new(blank))).ok();
    let book = book.expect(&rt, "a book");
    let shared = Arc::try_clone(&book).ok().expect(&rt, "the book");
    let first = thread::spawn(&rt, move || work(&rt, &*shared, 1)).ok();
    let first = first.expect(&rt, "a worker");
    let second = work(&rt, &*book, 100);
    let mut shares = Vec::new(heap);
    put_into(&mut shares, first.join(&rt));
    if !lose {
        put_into(&mut shares, second);
    }
    let mut book = book.lock(&rt);
    let gathered = total_of(&mut *book, shares);
    (gathered, book.total())
}

fn crossed<R>(rt: R, heap: Global, lose: bool) -> (Option<u64>, u64)
where
    R: Threads + Wait + Abort + Copy + Send + 'static,
{
    across_threads::<Brand, _>(rt, heap, Blank::new(PARTS), lose)
}

/// A row: its name, whether a share is lost, and the gathered total.
const CROSSED: [(&str, bool, Option<u64>); 2] = [
    ("shares cross threads and gather", false, Some(10_100)),
    ("a book with a lost share never gathers", true, None),
];

#[test]
fn shares_that_cross_threads_gather_unless_one_is_lost(rt: HostRuntime) {
    for (row, lose, gathered) in CROSSED {
        let got = crossed(rt, rt.alloc(), lose);
        assert!(rt; got == (gathered, 10_100), "{row}: {got:?}");
    }
}
