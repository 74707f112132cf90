//! Figures and their pages in memory. What can't be set up ends the test's process there, so that a
//! test is one straight line.

/// Ends the test's process where this doesn't hold, and says what should. A call costs the proof
/// of a test less than a branch does. `workers_tests` and others have one too: no crate uses
/// another's tests.
macro_rules! holds {
    ($rt:expr; $is:expr) => {
        $crate::tests::holds(&$rt, $is, stringify!($is))
    };
    ($rt:expr; $is:expr, $what:expr) => {
        $crate::tests::holds(&$rt, $is, $what)
    };
}

mod memory;
mod meter;
mod pages;
mod text;

use std::process::Abort;

fn holds<R: Abort>(rt: &R, is: bool, what: &str) {
    assert!(rt; is, "{what}");
}
