//! The last call at a listener, as its service is ended: who waits there is taken in, and then it is
//! closed. Where a listener is closed at once, the system resets them.

ghost use Rattle.std.specs.Prelude.{◌≡◌, is_some};
ghost use Rattle.net.specs.LastCall.{called_id, was_called};

use crate::entry::{Called, Closer, Entry};
use crate::gone::Absent;
use crate::runs::Runs;
use crate::shared::Shared;
use fd_descriptor::Deadline;

/// That the table of a net has a listener no more, and that who accepts was told to take in those who
/// wait, and to close it. Only a call by the table gives it.
#[derive(Drop)]
pub(crate) struct LastCall {
    absent: Absent,
    called: Option<Called>,
}

impl LastCall {
    // With the call at the entry that was taken out, if there was one.
    fn new(absent: Absent, called: Option<Called>) -> LastCall
        ensures own { called_id result ≡ absent.id }
        ensures called { was_called result ≡ is_some called }
    {
        LastCall { absent, called }
    }

    /// Whether the listener was there until then.
    pub(crate) fn was_open(&self) -> bool
        ensures { result ≡ was_called self.now }
    {
        self.called.is_some()
    }
}

impl<R: Runs> Shared<R> {
    /// Takes a listener's entry out, and has who accepts take in those who wait, and close it. The
    /// path of a Unix one goes at once, so that nobody comes behind them.
    pub(crate) fn call_last(&self, id: u64) -> LastCall
        ensures own { called_id result ≡ id }
    {
        let (absent, entry) = self.take(id);
        let called = match entry {
            Some(entry) => Some(entry.call_last(&self.rt, &self.alarms, self.now())),
            None => None,
        };
        LastCall::new(absent, called)
    }
}
