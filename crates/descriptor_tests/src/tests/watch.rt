//! A watch over a test that waits for calls or threads: it ends the test as failed where that takes
//! too long.
//! `conn_tests` has one too: no crate uses another's tests.

use super::{comes_to, holds};
use std::alloc::Global;
use std::process::Abort;
use std::sync::Arc;
use std::sync::atomic::{AtomicU64, Ordering};
use std::thread;
use std::thread::{JoinHandle, Threads};
use std::time::Clock;

/// A thread that waits for the end of its test, at most `TURNS` turns.
#[derive(Drop)]
pub(super) struct Watch {
    thread: JoinHandle<()>,
    ended: Arc<AtomicU64>,
}

impl Watch {
    /// A watch over a part of a test, which says its name where it ends the test.
    pub(super) fn start<T: Threads + Clock + Abort + Copy + Send + Drop + 'static>(
        rt: T,
        alloc: Global,
        part: &'static str,
    ) -> Watch {
        let ended = Arc::new(alloc, AtomicU64::new(0)).expect(&rt, "watch");
        let seen = Arc::try_clone(&ended).expect(&rt, "watch");
        let thread = thread::spawn(&rt, move || {
            holds(&rt, comes_to(&rt, &seen, 1), part);
        });
        Watch {
            thread: thread.expect(&rt, "watch"),
            ended,
        }
    }

    /// The test has ended.
    pub(super) fn end<T: Threads>(self, rt: &T) {
        let Watch { thread, ended } = self;
        ended.store(1, Ordering::SeqCst);
        thread.join(rt);
    }
}
