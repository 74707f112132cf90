//! What scenes are made of: a descriptor whose halves play a script, and the steps of one thread at
//! it, each of which says what it has to come to.

use super::scripted::Script;
use base_types::Dir;
use deadline_core::{Deadline, Dirs};
use fd_descriptor::{Progress, Word};
use rwloops::{DevKind, Fault};

/// A call of a handle.
#[derive(Clone, Copy)]
pub(super) enum Call {
    /// Into four bytes.
    Read,
    Write(&'static [u8]),
    Accept,
    Shut,
    /// A deadline for these directions, at this moment.
    Set(Dirs, Deadline, u64),
    /// One for both, at the first moment, over alarms that are refused memory.
    SetInVain(Deadline),
    Drain,
    /// What was made of the read half is asked for, and answered at once.
    Ask,
    /// The same, answered once the gate is open.
    AskGated,
    Close,
    /// A close that tells.
    Tell,
}

/// What it answers.
#[derive(Clone, Copy, PartialEq)]
pub(super) enum Answer {
    Took(Result<usize, Fault>),
    Wrote(usize),
    /// A write that failed, after so many bytes.
    Cut(Fault, usize),
    Done(Result<(), Fault>),
    /// The fault of destroying the halves, as it was made of the read half.
    Asked(Result<Option<DevKind>, Fault>),
}

/// What happens to the descriptor beside its calls.
#[derive(Clone, Copy)]
pub(super) enum Event {
    /// It is ready in this direction.
    Ready(Dir),
    /// The clock comes to this moment.
    Clock(u64),
    /// So many milliseconds pass.
    Pause(u64),
    /// Gated tries and calls go on.
    Gate,
    /// Its destruction is held from now on.
    Hold,
    LetGo,
}

/// What is counted.
#[derive(Clone, Copy)]
pub(super) enum Count {
    Tries,
    /// Ends of calls that have a thread of their own.
    Answers,
    Destroys,
    /// Closes that have told.
    Tellings,
}

/// What is done to a task's half: by the name of a call, what that answers.
#[derive(Clone, Copy)]
pub(super) enum Task {
    /// Makes one of a handle of its own, and begins a call.
    Begin(Dir),
    /// Into four bytes.
    Read(Option<Result<usize, Fault>>),
    Write(&'static [u8], Progress),
    /// Has the half that is read share a handle; it is the last then.
    Share,
    /// Ends the call under way, and makes a handle of the half; it is the last then.
    End,
    /// Lets go of one.
    Drop(Dir),
}

/// What was asked of alarms: for this key and these directions a tick at this moment, or none.
pub(super) type Asked = (u64, Dirs, Option<u64>);

/// A step of a scene.
#[derive(Clone, Copy)]
pub(super) enum Step {
    /// A call by the handle of this number.
    By(usize, Call, Answer),
    /// Each of the calls that take a lock or a reference is refused the handle of this number.
    NoneBy(usize, Fault),
    /// A call by a handle and in a thread of its own.
    Start(Call),
    /// The call of this number ends so, of those that were started and have not ended here.
    End(usize, Answer),
    /// Another handle; it is the last.
    Share,
    /// The last handle goes.
    Leave,
    Has(Event),
    /// The descriptor is ready after each of so many tries, and not before.
    ReadyAfterEach(Dir, u64),
    /// In time there are so many at least.
    Comes(Count, u64),
    /// There are so many, and no more.
    Counts(Count, u64),
    /// This was asked of alarms last, since the last look at them.
    Alarm(Option<Asked>),
    /// The lock word is this one.
    Shows(Word),
    /// In time it is this one.
    Becomes(Word),
    Runs(Task),
}

/// A scene: its name, what both halves play, the fault of their destruction, and the steps.
#[derive(Clone, Copy)]
pub(super) struct Scene(
    pub(super) &'static str,
    pub(super) Script,
    pub(super) Option<DevKind>,
    pub(super) &'static [Step],
);

/// A word that nobody has.
pub(super) const FREE: Word = Word {
    closed: false,
    rlock: false,
    wlock: false,
    refs: 0,
    rwait: 0,
    wwait: 0,
    drain: false,
};

/// One reads.
pub(super) const READ: Word = Word {
    rlock: true,
    refs: 1,
    ..FREE
};

/// The same, once the closer has left it there.
pub(super) const CLOSED_UNDER_READ: Word = Word {
    closed: true,
    ..READ
};

pub(super) const ABC: Call = Call::Write(b"abc");

pub(super) const OK: Answer = Answer::Done(Ok(()));

pub(super) const CLOSED: Answer = Answer::Done(Err(Fault::Closed));

pub(super) const NONE_READ: Answer = Answer::Took(Err(Fault::Closed));

pub(super) const NONE_WRITTEN: Answer = Answer::Cut(Fault::Closed, 0);
