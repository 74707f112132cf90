//! The tests of `relay_log` and of `log_writer`.

/// Ends the test's process where this doesn't hold, and says what should, and of which row. A call
/// costs the proof of a test less than a branch does. `metrics_tests` and others have one too: no
/// crate uses another's tests.
macro_rules! holds {
    ($rt:expr; $is:expr) => {
        $crate::tests::holds(&$rt, $is, stringify!($is), "")
    };
    ($rt:expr; $is:expr, $row:expr) => {
        $crate::tests::holds(&$rt, $is, stringify!($is), $row)
    };
}

mod line_queue;
mod writer_thread;

use std::process::Abort;

fn holds<R: Abort>(rt: &R, is: bool, what: &str, row: &str) {
    assert!(rt; is, "{what}: {row}");
}
