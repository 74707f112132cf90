//! What the tests of connections have in common. What can't be set up ends the test's process there,
//! so that a test is one straight line.
//!
//! | Module | What is tested |
//! |---|---|
//! | `conn` | both ends of a connection, by the subjects of Go's conformance suite of `net.Conn` |
//! | `handles` | handles as readers and writers of the standard library |

mod conn;
mod handles;
mod watch;

use std::process::Abort;
use std::sync::atomic::{AtomicU64, Ordering};
use std::thread;
use std::time::{Clock, Duration};

/// The most turns of one millisecond that a test waits.
const TURNS: u32 = 10_000;

/// Ends the test's process where this doesn't hold, and says what should. A call costs the proof
/// of a test less than a branch does.
fn holds<R: Abort>(rt: &R, is: bool, what: &str) {
    assert!(rt; is, "{what}");
}

fn pause<R: Clock>(rt: &R, ms: u64) {
    thread::sleep(rt, Duration::from_millis(ms));
}

/// Waits until the count is at least so much, and says whether it came to that.
fn comes_to<R: Clock>(rt: &R, count: &AtomicU64, least: u64) -> bool {
    for _ in 0..TURNS {
        if count.load(Ordering::SeqCst) >= least {
            return true;
        }
        pause(rt, 1);
    }
    false
}
