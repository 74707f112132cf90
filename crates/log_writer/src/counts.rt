//! How many lines a log was given, and how many of them it lost.

ghost use Rattle.std.specs.Prelude.{◌≡◌, true, false};
ghost use Rattle.relay_log.specs.Queue.{one_more};

/// How many lines were pushed, and how many of those were lost. Both stop at the greatest `u64`.
#[derive(Clone, Copy, Debug, PartialEq, Eq)]
pub struct Counts {
    pub pushed: u64,
    pub lost: u64,
}

impl Counts {
    /// No line was pushed.
    pub fn none() -> Counts
        ensures pushed { result.pushed ≡ 0 }
        ensures lost { result.lost ≡ 0 }
    {
        Counts { pushed: 0, lost: 0 }
    }

    /// One line more was pushed, which was lost or wasn't.
    pub fn count(&mut self, is_lost: bool)
        ensures pushed { self.new.pushed ≡ one_more self.old.pushed }
        ensures lost { is_lost ≡ true → self.new.lost ≡ one_more self.old.lost }
        ensures kept { is_lost ≡ false → self.new.lost ≡ self.old.lost }
    {
        self.pushed = self.pushed.saturating_add(1);
        if is_lost {
            self.lost = self.lost.saturating_add(1);
        }
    }
}
