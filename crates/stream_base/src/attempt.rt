//! How reads, writes and flushes went, and how many interruptions in a row are borne.

ghost use Rattle.std.specs.Prelude.{◌≡◌, ◌↔◌, false};
ghost use Rattle.std.specs.IoError.{error_kind};
ghost use Rattle.stream_base.specs.Attempt.{failed_after, interruptions_after};

use std::io::{Error, ErrorKind};

/// A call that is interrupted this often in a row goes on; the next interruption is a fault.
pub const MAX_INTERRUPTIONS: u32 = 1_024;

/// Why one attempt to read, write or flush came to nothing.
#[derive(Clone, Copy, Debug, PartialEq, Eq, Drop)]
pub enum AttemptError {
    /// It was interrupted, and may be made again.
    Interrupted,
    /// The device failed.
    Failed,
}

impl AttemptError {
    /// What an error of std's says of an attempt: each kind but `Interrupted` is a failure.
    pub fn of(error: &Error) -> AttemptError
        ensures { (result ≡ AttemptError.Interrupted)
            ↔ (error_kind error.now ≡ ErrorKind.Interrupted) }
    {
        if error.kind() == ErrorKind::Interrupted {
            AttemptError::Interrupted
        } else {
            AttemptError::Failed
        }
    }
}

/// How a device's attempts went so far.
#[derive(Drop)]
pub(crate) struct History {
    pub(crate) interruptions: u64,
    pub(crate) failed: bool,
}

impl History {
    /// No attempt was made yet.
    pub(crate) fn new() -> History
        ensures row { result.interruptions ≡ 0 }
        ensures health { result.failed ≡ false }
    {
        History {
            interruptions: 0,
            failed: false,
        }
    }

    /// One attempt more.
    pub(crate) fn record<T>(&mut self, attempt: &Result<T, AttemptError>)
        ensures row { self.new.interruptions ≡
            interruptions_after self.old.interruptions attempt.now }
        ensures health { self.new.failed ≡ failed_after self.old.failed attempt.now }
    {
        match attempt {
            Ok(_) => self.interruptions = 0,
            Err(AttemptError::Interrupted) => {
                self.interruptions = self.interruptions.saturating_add(1);
            }
            Err(AttemptError::Failed) => {
                self.interruptions = 0;
                self.failed = true;
            }
        }
    }
}
