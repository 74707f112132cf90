//! What a net, its listeners and its connections need of the runtime, under one name.

use std::fs;
use std::fs::Files;
use std::sync::Wait;
use std::time::Clock;

/// What removes the path of a Unix listener that closes: every runtime that has files does.
pub trait Unlinks {
    /// Removes the file at this path, if it can.
    fn unlink(&self, path: &str);
}

impl<R: Files> Unlinks for R {
    fn unlink(&self, path: &str) {
        let _ = fs::remove_file(self, path);
    }
}

/// One bound in place of five, which stands at all that takes a connection. Every runtime that has
/// these is one.
pub trait Runs: Wait + Clock + Unlinks + Copy + Drop {}

impl<R: Wait + Clock + Unlinks + Copy + Drop> Runs for R {}
