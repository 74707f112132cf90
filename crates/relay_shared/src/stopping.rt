//! The stop of a relay: its flag is set before anybody is woken, so that whoever wakes sees it. A
//! loop that looked before would sleep for a second more.

use crate::loop_handle::LoopHandle;
use readiness::LoopRemote;
use std::sync::atomic::{AtomicBool, Ordering};

/// Whether a relay has stopped. It is never unset.
#[derive(Drop)]
pub struct StopFlag {
    is_set: AtomicBool,
}

/// That the flag is set: it alone makes one. Every wake of a stop takes it, so that none comes
/// before the flag.
#[derive(Clone, Copy)]
pub struct Stopped {
    by_flag: (),
}

impl StopFlag {
    pub fn new() -> StopFlag {
        StopFlag {
            is_set: AtomicBool::new(false),
        }
    }

    /// Whoever looks from now on sees that no more turns are wanted.
    pub fn set(&self) -> Stopped {
        self.is_set.store(true, Ordering::SeqCst);
        Stopped { by_flag: () }
    }

    pub fn is_set(&self) -> bool {
        self.is_set.load(Ordering::SeqCst)
    }
}

impl Stopped {
    /// Ends the wait of the main thread's loop and of each other, or its next one.
    pub fn wake_loops(self, main: &LoopRemote, loops: &[LoopHandle]) {
        main.wake();
        for handle in loops {
            handle.remote.wake();
        }
    }
}
