//! When a pair is closed. This project's own rule.

ghost use Rattle.std.specs.Prelude.{◌≡◌, ◌↔◌};
ghost use Rattle.relay_core.specs.PairTasks.{HasToClose, MayGoOn};

use crate::pair_tasks::{PairNext, PairTasks};

impl PairTasks {
    /// What follows where the ways stand so: the pair is closed once one failed or both ended.
    pub fn next(&self) -> PairNext
        ensures closes { result ≡ PairNext.Closes ↔ HasToClose self.now }
        ensures again { result ≡ PairNext.Again ↔ MayGoOn self.now }
    {
        if self.failed || !self.not_over().any() {
            PairNext::Closes
        } else if self.ready().any() {
            PairNext::Again
        } else {
            PairNext::Waits
        }
    }
}
