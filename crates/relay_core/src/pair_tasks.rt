//! The tasks of a pair, one for each way, as an event loop sees them: which of them an event, a
//! turn or a change from outside resumes. The rules are this project's own.

ghost use Rattle.std.specs.Prelude.{◌≡◌, ◌≢◌, ◌⊎◌, ◌↔◌, true, false};
ghost use Rattle.relay_core.specs.declared.ways.Way.TheVariants.{Up, Down};
ghost use Rattle.relay_core.specs.PairTasks.{flow_state_of, flow_state_after, other_way};
ghost use Rattle.relay_core.specs.PairTasks.{WaitsForEvent, IsFailure, HasToClose, MayGoOn};

use crate::copying::Ended;
use crate::passing::Step;
use crate::ways::{Side, Way, deadline_side};
use base_types::Dir;

/// Where a way of a pair stands between two of its turns.
#[derive(Clone, Copy, Debug, PartialEq, Eq, Drop)]
pub enum FlowState {
    /// It can't go on before the side that it calls is ready in this direction.
    Waits(Dir),
    /// It can go on at once.
    Ready,
    /// It ended, and is resumed no more.
    Over,
}

/// Ways of a pair.
#[derive(Clone, Copy, Debug, PartialEq, Eq, Drop)]
pub struct Ways {
    pub up: bool,
    pub down: bool,
}

impl Ways {
    /// Whether it is at least one.
    pub fn any(self) -> bool
        ensures { result ≡ true ↔ ((self.up ≡ true) ⊎ (self.down ≡ true)) }
    {
        self.up || self.down
    }
}

/// What follows for a pair after a turn of one of its ways.
#[derive(Clone, Copy, Debug, PartialEq, Eq, Drop)]
pub enum PairNext {
    /// Nothing before an event or a change from outside.
    Waits,
    /// A way may go on at once: it has another turn after the others had theirs.
    Again,
    /// The pair is to be closed.
    Closes,
}

/// Where both ways of a pair stand, and whether one of them failed, which is never taken back.
#[derive(Clone, Copy, Debug, PartialEq, Eq, Drop)]
pub struct PairTasks {
    pub up: FlowState,
    pub down: FlowState,
    pub failed: bool,
}

impl PairTasks {
    /// A pair before its first turn: both ways may go on.
    pub fn new() -> PairTasks
        ensures up { result.up ≡ FlowState.Ready }
        ensures down { result.down ≡ FlowState.Ready }
        ensures failed { result.failed ≡ false }
    {
        PairTasks {
            up: FlowState::Ready,
            down: FlowState::Ready,
            failed: false,
        }
    }

    /// The ways that an event resumes by which a side is ready to be read, to be written, or both.
    pub fn woken_by(&self, side: Side, read: bool, write: bool) -> Ways
        ensures up { result.up ≡ true ↔
            WaitsForEvent self.now.up Up side read write }
        ensures down { result.down ≡ true ↔
            WaitsForEvent self.now.down Down side read write }
    {
        Ways {
            up: is_woken(self.up, Way::Up, side, read, write),
            down: is_woken(self.down, Way::Down, side, read, write),
        }
    }

    /// The ways that may go on at once.
    pub fn ready(&self) -> Ways
        ensures up { result.up ≡ true ↔ self.now.up ≡ FlowState.Ready }
        ensures down { result.down ≡ true ↔ self.now.down ≡ FlowState.Ready }
    {
        Ways {
            up: self.up == FlowState::Ready,
            down: self.down == FlowState::Ready,
        }
    }

    /// The ways that haven't ended: those that a close, a drain, or a deadline from outside
    /// resumes.
    pub fn not_over(&self) -> Ways
        ensures up { result.up ≡ true ↔ self.now.up ≢ FlowState.Over }
        ensures down { result.down ≡ true ↔ self.now.down ≢ FlowState.Over }
    {
        Ways {
            up: self.up != FlowState::Over,
            down: self.down != FlowState::Over,
        }
    }

    /// Notes how far a turn of a way came, and says what follows: the pair is closed once a way
    /// ended other than by `Eof`, or both ended, and then after each later turn too.
    pub fn note(&mut self, way: Way, step: &Step) -> PairNext
        ensures noted { flow_state_of self.new way ≡ flow_state_after step.now }
        ensures kept { flow_state_of self.new (other_way way)
            ≡ flow_state_of self.old (other_way way) }
        ensures failed { self.new.failed ≡ true ↔
            ((self.old.failed ≡ true) ⊎ IsFailure step.now) }
        ensures closes { result ≡ PairNext.Closes ↔ HasToClose self.new }
        ensures again { result ≡ PairNext.Again ↔ MayGoOn self.new }
    {
        let state = match step {
            Step::Again => FlowState::Ready,
            Step::Waits(dir) => FlowState::Waits(*dir),
            Step::Ended(ended) => {
                self.failed = self.failed || *ended != Ended::Eof;
                FlowState::Over
            }
        };
        match way {
            Way::Up => self.up = state,
            Way::Down => self.down = state,
        }
        self.next()
    }
}

// Whether a way that stands so waits for such an event.
fn is_woken(state: FlowState, way: Way, side: Side, read: bool, write: bool) -> bool
    ensures { result ≡ true ↔ WaitsForEvent state way side read write }
{
    match state {
        FlowState::Waits(dir) => {
            let ready = match dir {
                Dir::Read => read,
                Dir::Write => write,
            };
            ready && deadline_side(way, dir) == side
        }
        _ => false,
    }
}
