//! A client that was delivered to its loop, whose rule is to be told what becomes of it.

ghost use Rattle.std.specs.Prelude.{◌≡◌};

use crate::loops::LoopContext;
use relay_conn::refused::Refused;
use relay_facts::connection_facts::Acceptance;
use relay_shared::owed_end::OwedEnd;
use std::sync::Wait;
use std::time::Clock;

/// A client that was accepted. It can't be dropped: it is counted as one that is served, or as
/// refused, which the log is told too.
pub(crate) struct Arrival {
    acceptance: Acceptance,
}

impl Arrival {
    pub(crate) fn new(acceptance: Acceptance) -> Arrival
        ensures { result.acceptance ≡ acceptance }
    {
        Arrival { acceptance }
    }

    pub(crate) fn acceptance(&self) -> &Acceptance
        ensures { result.now ≡ self.now.acceptance }
    {
        &self.acceptance
    }

    /// It is to say first who it is: whoever awaits that makes an arrival of it again, once it has or
    /// fails.
    pub(crate) fn awaited(self) -> Acceptance
        ensures { result ≡ self.acceptance }
    {
        let Arrival { acceptance } = self;
        acceptance
    }

    /// Its connection is served.
    pub(crate) fn served<R: Wait + Clock + Copy>(self, context: &LoopContext<R>) {
        let Arrival { acceptance } = self;
        if let Some(counts) = acceptance.served.counts.of_loop(context.place) {
            counts.note_begin();
        }
    }

    /// It isn't served, for this reason. Nothing counts it any more, which is to be told.
    pub(crate) fn refused<R: Wait + Clock + Copy>(
        self,
        context: &LoopContext<R>,
        why: Refused,
    ) -> OwedEnd {
        let Arrival { acceptance } = self;
        let last = why.place();
        let how = why.how();
        if let Some(counts) = acceptance.served.counts.of_loop(context.place) {
            counts.note_refused(how);
        }
        context.tell_refused(&acceptance, last, how);
        OwedEnd::of_refused()
    }
}
