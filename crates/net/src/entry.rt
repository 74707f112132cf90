//! What the table has of a descriptor: its cell, which the poller tells, and a handle, by which who
//! takes the entry out closes it.

ghost use Rattle.std.specs.Prelude.{◌≡◌, OnOk};
ghost use Rattle.std.proofs.Props.{props};
ghost use Rattle.fd_descriptor.specs.Marks.{SawTheEnd};
ghost use Rattle.net.specs.Shut.{closer_marks};

use crate::home::TaskSeat;
use crate::runs::Runs;
use arrayvec::ArrayString;
use fd_descriptor::{Deadline, Fault, FdHandle, PollCell};
use readiness::{HasCell, MAX_PATH_BYTES, NotedListenRes, SockRes, TimerAlarms};
use std::sync::Arc;

/// How an entry closes its descriptor.
#[derive(Drop)]
pub(crate) enum Closer {
    Conn(FdHandle<SockRes>),
    /// With the path that a Unix listener made.
    Listener(FdHandle<NotedListenRes>, Option<ArrayString<MAX_PATH_BYTES>>),
}

/// A descriptor in the table.
#[derive(Drop)]
pub(crate) struct Entry {
    pub(crate) cell: Arc<PollCell>,
    pub(crate) closer: Closer,
    // Where its task is, if a loop has one.
    pub(crate) seat: Option<TaskSeat>,
}

impl HasCell for Entry {
    ghost use Rattle.std.specs.Arc.{arc_value};

    ghost cell_in = { λ entry. arc_value entry.cell };

    fn cell(&self) -> &PollCell {
        &*self.cell
    }
}

/// What a last call at an entry leaves.
#[derive(Drop)]
pub(crate) enum Called {
    /// Its accepts, those that wait now too, end as late.
    Late,
    /// They end, since it is closed.
    Shut(Shut),
}

// Gives the accepts of a listener a deadline that has passed.
fn end_accepts<R: Runs>(
    closer: &mut Closer,
    rt: &R,
    alarms: &TimerAlarms<R>,
    now: u64,
) -> Result<(), Fault> {
    match closer {
        Closer::Listener(handle, _) => handle.set_read_deadline(rt, Deadline::At(0), now, alarms),
        Closer::Conn(_) => Err(Fault::Closed),
    }
}

impl Entry {
    /// Removes the path of a Unix listener, so that who comes later isn't refused it.
    pub(crate) fn unlink<R: Runs>(&self, rt: &R) {
        if let Closer::Listener(_, Some(path)) = &self.closer {
            rt.unlink(path.as_str());
        }
    }

    /// Has the task of its loop hear that the descriptor was closed, for who closed it.
    pub(crate) fn tell_task<R: Runs>(&self, rt: &R) {
        if let Some(seat) = &self.seat {
            seat.tell(rt);
        }
    }

    /// Has the accepts of a listener end as late, so that who accepts takes in those who wait, and
    /// closes it. Where that is refused, as of a connection, the descriptor is closed.
    pub(crate) fn call_last<R: Runs>(self, rt: &R, alarms: &TimerAlarms<R>, now: u64) -> Called {
        let Entry {
            cell: _,
            closer,
            seat: _,
        } = self;
        let mut closer = closer;
        match end_accepts(&mut closer, rt, alarms, now) {
            Ok(()) => Called::Late,
            Err(_) => Called::Shut(Shut::close(closer, rt)),
        }
    }

    /// Closes the descriptor for all its handles. The table's lock must not be held.
    pub(crate) fn close<R: Runs>(self, rt: &R) -> Shut {
        let Entry {
            cell: _,
            closer,
            seat,
        } = self;
        let shut = Shut::close(closer, rt);
        if let Some(seat) = seat {
            seat.tell(rt);
        }
        shut
    }
}

/// What is left of an entry that was closed, with what its close was told.
#[derive(Drop)]
pub(crate) struct Shut {
    closer: Closer,
    told: Result<(), Fault>,
    ghost ended: { OnOk told (SawTheEnd (closer_marks closer)) } by { Prim.hlevel props },
}

impl Shut {
    fn close<R: Runs>(closer: Closer, rt: &R) -> Shut {
        match closer {
            Closer::Conn(handle) => {
                let mut handle = handle;
                let told = handle.close(rt);
                Shut {
                    closer: Closer::Conn(handle),
                    told,
                }
            }
            Closer::Listener(handle, path) => {
                let mut handle = handle;
                let told = handle.close(rt);
                Shut {
                    closer: Closer::Listener(handle, path),
                    told,
                }
            }
        }
    }
}
