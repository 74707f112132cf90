//! What all that share a descriptor have in common. With the last of them it goes, and closes.

ghost use Rattle.std.specs.Prelude.{◌≡◌};

use crate::home::LoopLink;
use crate::limits::Limits;
use crate::runs::Runs;
use crate::shared::Shared;
use fd_descriptor::{Alarms, Dir, Dirs, OutOfMemory};
use readiness::{Addr, LastCodes};
use std::sync::{Arc, Mutex};

pub(crate) struct Guard<R: Runs> {
    pub(crate) shared: Arc<Shared<R>>,
    pub(crate) id: u64,
    pub(crate) limits: Mutex<Limits>,
    pub(crate) codes: Arc<LastCodes>,
    pub(crate) local: Option<Addr>,
    pub(crate) peer: Option<Addr>,
    /// What there is of the loop that has its task, if one has.
    pub(crate) link: Option<LoopLink<R>>,
}

impl<R: Runs> Guard<R> {
    /// What the first that has the descriptor shares: without limits, under its table's id.
    pub(crate) fn new(
        shared: Arc<Shared<R>>,
        id: u64,
        codes: Arc<LastCodes>,
        local: Option<Addr>,
        peer: Option<Addr>,
        link: Option<LoopLink<R>>,
    ) -> Guard<R>
        ensures local { result.local ≡ local }
        ensures peer { result.peer ≡ peer }
        ensures link { result.link ≡ link }
    {
        Guard {
            shared,
            id,
            limits: Mutex::new(Limits::none()),
            codes,
            local,
            peer,
            link,
        }
    }

    /// The system's number of the fault that a call of this direction met last.
    pub(crate) fn code(&self, dir: Dir) -> Option<i32> {
        self.codes.last(dir)
    }
}

// Deadlines wake who tells the descriptor that it is ready: the net's poller, or the loop of its task.
impl<R: Runs> Alarms for Guard<R> {
    fn arm(&self, key: u64, dirs: Dirs, at: u64) -> Result<(), OutOfMemory> {
        match &self.link {
            Some(link) => link.alarms.arm(key, dirs, at),
            None => self.shared.alarms.arm(key, dirs, at),
        }
    }

    fn disarm(&self, key: u64, dirs: Dirs) {
        match &self.link {
            Some(link) => link.alarms.disarm(key, dirs),
            None => self.shared.alarms.disarm(key, dirs),
        }
    }
}

impl<R: Runs> Drop for Guard<R> {
    fn drop(self) {
        let Guard {
            shared,
            id,
            limits: _,
            codes: _,
            local: _,
            peer: _,
            link: _,
        } = self;
        let _ = shared.end(id);
    }
}
