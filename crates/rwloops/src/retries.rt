//! What a loop says after an outcome, and its count of inconclusive answers in a row.
ghost use Rattle.std.specs.Prelude.{◌≡◌, ◌+◌, ◌<◌, ◌≤◌};

use crate::fault::Fault;
use crate::limits::MAX_RETRIES;

/// What to do after an outcome.
#[derive(Clone, Copy, Debug, PartialEq, Eq, Drop)]
pub enum Next<D> {
    /// Try again at once.
    Try,
    /// Wait until the half is ready, and try again.
    Wait,
    /// The call is over, with this answer.
    Done(D),
    /// The call has failed.
    Failed(Fault),
}

/// The inconclusive answers since the last outcome of another kind, 0 to `MAX_RETRIES`.
#[derive(Debug, Drop)]
pub(crate) struct Retries {
    in_a_row: u32,
}

impl Retries {
    pub(crate) fn new() -> Retries
        ensures { result.in_a_row ≡ 0 }
    {
        Retries { in_a_row: 0 }
    }

    /// One more inconclusive answer.
    pub(crate) fn again<D>(&mut self) -> Next<D>
        ensures tries { self.old.in_a_row < MAX_RETRIES → result ≡ Next.Try }
        ensures counts { self.old.in_a_row < MAX_RETRIES
            → self.new.in_a_row ≡ self.old.in_a_row + 1 }
        ensures fails { MAX_RETRIES ≤ self.old.in_a_row
            → result ≡ Next.Failed Fault.TooManyRetries }
    {
        if self.in_a_row >= MAX_RETRIES {
            return Next::Failed(Fault::TooManyRetries);
        }
        self.in_a_row += 1;
        Next::Try
    }

    /// Another outcome ends the row.
    pub(crate) fn reset(&mut self)
        ensures { self.new.in_a_row ≡ 0 }
    {
        self.in_a_row = 0;
    }
}
