//! Why a relay doesn't run, or can't go on, as its program says it.

ghost use Rattle.std.specs.Prelude.{◌≡◌};
ghost use Rattle.relay_admin.specs.declared.serve_fault.ServeFault.TheVariants.{Memory};

use crate::rules::verdict::Verdict;
use arrayvec::ArrayString;
use std::alloc::{AllocError, AllocFailed};
use thiserror::Error;

/// Why a relay doesn't run, or can't go on. The texts are the lines on standard error.
#[derive(Clone, Copy, Debug, PartialEq, Eq, Drop, Error)]
pub enum ServeFault {
    /// The rules file can't be read. The text is `CANNOT_READ` of `reply_text` too, and that of
    /// `Listen` its `CANNOT_LISTEN`: an attribute can cite no constant, and a test compares them.
    #[error("cannot read rules")]
    RulesFile,
    /// The configuration can't be read.
    #[error("cannot read config")]
    ConfigFile,
    /// The rules or the configuration are bad; the text is the verdict on them.
    #[error("{0}")]
    BadRules(Verdict),
    /// The rule of this name can't be listened for.
    #[error("cannot listen {0}")]
    Listen(ArrayString<16>),
    /// The admin socket can't be opened.
    #[error("cannot listen admin")]
    Admin,
    /// The log can't be opened.
    #[error("cannot open log")]
    Log,
    /// The address of the metrics can't be listened on.
    #[error("cannot listen metrics")]
    Metrics,
    /// The poller or standard output failed.
    #[error("relay fault: device")]
    Device,
    /// Memory or a thread was refused.
    #[error("relay fault: memory")]
    Memory,
}

impl From<AllocError> for ServeFault {
    ghost from_gives = { λ _ fault. fault ≡ Memory };

    fn from(_: AllocError) -> ServeFault {
        ServeFault::Memory
    }
}

impl<T: Drop> From<AllocFailed<T>> for ServeFault {
    ghost from_gives = { λ _ fault. fault ≡ Memory };

    fn from(_: AllocFailed<T>) -> ServeFault {
        ServeFault::Memory
    }
}
