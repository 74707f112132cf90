//! How far a service has come to its end, as each of its loops sees it.

ghost use Rattle.std.specs.Prelude.{◌≡◌, true, false};
ghost use Rattle.net.specs.Ending.{is_ending, has_ended, with_end};

use crate::limits::earlier;
use fd_descriptor::Deadline;

/// What a loop knows of the end of its service.
#[derive(Clone, Copy, Debug, PartialEq, Eq, Drop)]
pub(crate) struct Phase {
    /// When the tasks are ended that stand then; never, as long as no end was asked for.
    pub(crate) until: Deadline,
    /// Whether connections may still come.
    pub(crate) accepts: bool,
}

impl Phase {
    /// Before its end.
    pub(crate) fn serving() -> Phase
        ensures { result ≡ record { until = Deadline.Never; accepts = true } }
    {
        Phase {
            until: Deadline::Never,
            accepts: true,
        }
    }

    /// Whether an end was asked for.
    pub(crate) fn is_ending(self) -> bool
        ensures { result ≡ is_ending self }
    {
        self.until != Deadline::Never
    }

    /// The phase once an end by this moment is asked for too.
    pub(crate) fn ending_by(self, until: Deadline) -> Phase
        ensures { result ≡ with_end self until }
    {
        Phase {
            until: earlier(self.until, until),
            accepts: self.accepts,
        }
    }

    /// The phase once no connection comes any more.
    pub(crate) fn closed(self) -> Phase
        ensures { result ≡ record { until = self.until; accepts = false } }
    {
        Phase {
            until: self.until,
            accepts: false,
        }
    }

    /// Whether a loop with so many tasks has done its part: its tasks have ended, and none comes, or
    /// their time is over. Without an end that was asked for it never has.
    pub(crate) fn has_ended(self, now: u64, tasks: usize) -> bool
        ensures { result ≡ has_ended self now tasks }
    {
        match self.until {
            Deadline::At(at) => at <= now || (!self.accepts && tasks == 0),
            Deadline::Never => false,
        }
    }
}
