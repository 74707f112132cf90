//! Where a copy credits what it wrote.

ghost use Rattle.std.specs.Prelude.{◌≡◌, ◌+◌, OnOk, OnErr};

use relay_ledger::{Full, Share};
use std::sync::ledger::Ledger;

/// A book, however it is reached: a copy credits its share there, for each write.
pub trait Credits<L: Ledger> {
    /// Adds `n` to the book and to the share; or to neither, where the book has no room for it.
    fn credit(&mut self, share: &mut Share<L>, n: u64) -> Result<(), Full>
        ensures amount { OnOk result (share.new ≡ share.old + n) }
        ensures kept { OnErr result (share.new ≡ share.old) };
}
