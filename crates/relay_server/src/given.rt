//! The listeners that a relay is started with, as a program hands them over.

ghost use Rattle.std.specs.Prelude.{◌≡◌, []};

use crate::output::write_unused;
use relay_main::GivenListener;
use std::alloc::Global;
use std::io::Write;

/// The listeners that a relay is started with, and where it tells of those that neither a rule nor
/// the admin socket has.
#[derive(Drop)]
pub struct Given<L> {
    pub listeners: Vec<GivenListener>,
    pub errors: Option<L>,
}

impl<L> Given<L> {
    /// No listener.
    pub fn none(alloc: Global) -> Given<L>
        ensures { result.listeners.items ≡ [] }
    {
        Given {
            listeners: Vec::new(alloc),
            errors: None,
        }
    }
}

/// Tells of listeners that nobody has. Where that can't be written, nobody is left to tell.
pub(crate) fn tell_unused<L: Write + Drop>(errors: Option<L>, unused: &[GivenListener]) {
    if let Some(errors) = errors {
        let mut errors = errors;
        for one in unused {
            let _ = write_unused(&mut errors, one);
        }
    }
}
