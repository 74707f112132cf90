//! What a turn of a loop resumes, one step for each task that it comes to.

ghost use Rattle.std.specs.Prelude.{◌≡◌};
ghost use Rattle.readiness.specs.Agenda.{event_step, due_step};

use crate::batch::Ev;
use crate::loop_token::{Side, side_of};
use base_types::Dir;

/// Why a task is resumed.
#[derive(Clone, Copy, Debug, PartialEq, Eq, Drop)]
pub enum Why {
    /// The poller told of the descriptor on this side: a read or an accept may go on, a write,
    /// both, or neither. With a stop ahead a read may come short of what is there: it ends at the
    /// peer's end, at a fault, or at urgent data.
    Ready {
        side: Side,
        read: bool,
        write: bool,
        stop_ahead: bool,
    },
    /// A timer came due, of the descriptor on this side and this direction or of the task itself
    /// under that token. The descriptor's cell has been ticked.
    Due {
        side: Side,
        dir: Dir,
        now: u64,
    },
    /// The task's alarm came: the moment that it awaits (`Host::until`), or one before it.
    Time {
        now: u64,
    },
    /// Somebody named the task, after doing something to it.
    Named,
    /// It gave way in the turn before.
    Again,
}

/// One step of a turn: the task that this token names, if it names one, is resumed.
#[derive(Clone, Copy, Debug, PartialEq, Eq, Drop)]
pub struct Step {
    /// A token of the task.
    pub token: u64,
    /// Why it is resumed.
    pub why: Why,
}

/// What an event asks for.
pub fn step_of_event(event: Ev) -> Step
    ensures { result ≡ event_step event }
{
    Step {
        token: event.token,
        why: Why::Ready {
            side: side_of(event.token),
            read: event.readable || event.read_closed || event.error,
            write: event.writable || event.write_closed || event.error,
            stop_ahead: event.read_closed || event.error || event.urgent,
        },
    }
}

/// What a due timer asks for: its key is a token.
pub fn step_of_timer(key: u64, dir: Dir, now: u64) -> Step
    ensures { result ≡ due_step key dir now }
{
    Step {
        token: key,
        why: Why::Due {
            side: side_of(key),
            dir,
            now,
        },
    }
}
