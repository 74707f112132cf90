//! The system's own numbers of the errors at which a socket failed, beside the kinds that its calls
//! tell. Nobody waits for them, and no call depends on one.

use crate::system_error::outcome_of_error;
use base_types::Dir;
use rwloops::Outcome;
use std::io;
use std::sync::atomic::{AtomicI32, Ordering};

/// The number of the error at which the last call of a direction failed, as `EMFILE` of an accept.
/// Who tells a fault to a person may look it up; the next fault of the direction replaces it.
#[derive(Drop)]
pub struct LastCodes {
    // 0 where nothing has failed, which is no error of the system's.
    read: AtomicI32,
    write: AtomicI32,
}

impl LastCodes {
    /// Nothing has failed.
    pub fn new() -> LastCodes {
        LastCodes {
            read: AtomicI32::new(0),
            write: AtomicI32::new(0),
        }
    }

    fn of(&self, dir: Dir) -> &AtomicI32 {
        match dir {
            Dir::Read => &self.read,
            Dir::Write => &self.write,
        }
    }

    /// The last number of this direction, where there is one.
    pub fn last(&self, dir: Dir) -> Option<i32> {
        match self.of(dir).load(Ordering::SeqCst) {
            0 => None,
            code => Some(code),
        }
    }

    /// Notes the number of an error at which a call ends; one that isn't the system's has none.
    pub(crate) fn note(&self, dir: Dir, error: &io::Error) {
        if let Outcome::Broken(_) = outcome_of_error(error) {
            let code = error.raw_os_error().unwrap_or(0);
            self.of(dir).store(code, Ordering::SeqCst);
        }
    }
}
