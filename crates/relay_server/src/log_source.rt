//! Where a relay's log comes from: it is opened in its turn among what a start opens.

ghost use Rattle.std.specs.Prelude.{IfSome};

use log_writer::{LogFile, open_log};
use std::fs::{File, Files};

/// What opens a log.
pub trait OpensLog {
    ghost use Rattle.std.specs.Prelude.{ℕ, List, ⊤};

    /// What its lines are written to.
    type Log;

    /// What is opened for a path, by its bytes.
    ghost opens: { List ℕ → Self.Log → Type 0 } = { λ _ _. ⊤ };

    /// Opens the log that is asked for at this path; none says that it can't be opened.
    fn open(self, path: &str) -> Option<Self::Log>
        ensures { IfSome result (λ log. opens path.now log) };
}

/// A file that is open already, whatever path is asked for.
impl OpensLog for Option<File> {
    type Log = File;

    fn open(self, _path: &str) -> Option<File> {
        self
    }
}

/// The file at the path, or standard error, as `open_log` has it.
#[derive(Drop)]
pub struct LogFiles<R> {
    pub rt: R,
}

impl<R: Files<File = File> + Eprint + Copy> OpensLog for LogFiles<R> {
    ghost use Rattle.std.specs.Prelude.{◌≡◌, ◌↔◌, codes};
    ghost use Rattle.log_writer.specs.LogFile.{IsErrors};

    type Log = LogFile<File, R>;

    ghost opens = { λ path log. IsErrors log ↔ (path ≡ codes "-") };

    fn open(self, path: &str) -> Option<LogFile<File, R>> {
        open_log(&self.rt, path).ok()
    }
}
