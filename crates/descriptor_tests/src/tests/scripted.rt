//! Halves that play a script, and a descriptor's resource of two of them.

ghost use Rattle.rwloops.specs.Outcome.{IsCountWithin};

use super::comes_to;
use base_types::Dir;
use fd_descriptor::{AtEviction, HalfClose, PollCell, Resource};
use rwloops::{AcceptOutcome, DevKind, Outcome, TryAccept, TryRead, TryWrite};
use std::alloc::Global;
use std::marker::PhantomData;
use std::process::Abort;
use std::sync::atomic::{AtomicU64, Ordering};
use std::sync::{Arc, Mutex, Wait};
use std::time::Clock;

/// What a half says to its cell at a try.
#[derive(Clone, Copy)]
pub(super) enum Notice {
    Ready,
    Clock(u64),
}

/// One kind of try.
#[derive(Clone, Copy)]
pub(super) enum Try {
    /// The outcome.
    Gives(Outcome),
    /// `WouldBlock`, once the cell was told.
    Tells(Notice),
    /// `WouldBlock`, once the gate is open.
    Gated,
    /// The connection is still being made, for who would shut it.
    Connects,
}

/// A try, so many times in a row.
pub(super) type Tries = (Try, u32);

/// The tries of a half, in turn.
pub(super) type Script = [Tries; 5];

pub(super) const RESET: Try = Try::Gives(Outcome::Broken(DevKind::Reset));

/// The end of a script: from here on each try is a reset.
pub(super) const END: Tries = (RESET, 0);

/// One number for these bytes after those that were folded before: another byte, another order or a
/// byte more or less gives another number.
fn folded(before: u64, bytes: &[u8]) -> u64 {
    let mut sum = before;
    for byte in bytes {
        sum = sum
            .wrapping_mul(257)
            .wrapping_add(u64::from(*byte))
            .wrapping_add(1);
    }
    sum
}

/// What halves and their destruction tell, the gates that they wait for, and the cell of the
/// descriptor, once it is open. `offered` has the bytes of all tries to write and the room of all
/// tries to read, `taken` the bytes that were counted as written.
#[derive(Drop)]
pub(super) struct Told {
    pub(super) tries: AtomicU64,
    pub(super) offered: AtomicU64,
    pub(super) taken: AtomicU64,
    pub(super) destroys: AtomicU64,
    /// A gated try goes on once this is 1.
    pub(super) gate: AtomicU64,
    /// A destruction that is held at 1 goes on once it is let go at 1.
    pub(super) held: AtomicU64,
    pub(super) let_go: AtomicU64,
    /// How many closes have told it that they are under way.
    pub(super) heard: AtomicU64,
    /// How many of the calls that have a thread of their own have ended.
    pub(super) answered: AtomicU64,
    pub(super) cell: Mutex<Option<Arc<PollCell>>>,
}

impl AtEviction for Told {
    fn evicted(&self) {
        self.heard.fetch_add(1, Ordering::SeqCst);
    }
}

impl Told {
    pub(super) fn shared<T: Abort>(rt: &T, alloc: Global) -> Arc<Told> {
        let told = Told {
            tries: AtomicU64::new(0),
            offered: AtomicU64::new(0),
            taken: AtomicU64::new(0),
            destroys: AtomicU64::new(0),
            gate: AtomicU64::new(0),
            held: AtomicU64::new(0),
            let_go: AtomicU64::new(0),
            heard: AtomicU64::new(0),
            answered: AtomicU64::new(0),
            cell: Mutex::new(None),
        };
        Arc::new(alloc, told).expect(rt, "what is told")
    }

    /// Tells the descriptor's cell.
    pub(super) fn tell<T: Wait>(&self, rt: &T, notice: Notice, dir: Dir) {
        let slot = self.cell.lock(rt);
        if let Some(cell) = &*slot {
            match notice {
                Notice::Ready => cell.notify(rt, dir),
                Notice::Clock(now) => cell.tick(rt, now),
            }
        }
    }
}

/// A half that plays a script.
#[derive(Drop)]
pub(super) struct ScriptedHalf<T: Wait + Clock + Drop> {
    script: Script,
    step: usize,
    repeats: u32,
    fault: Option<DevKind>,
    told: Arc<Told>,
    rt: T,
}

impl<T: Wait + Clock + Drop> ScriptedHalf<T> {
    pub(super) fn new(
        rt: T,
        told: &Arc<Told>,
        script: Script,
        fault: Option<DevKind>,
    ) -> ScriptedHalf<T>
    where
        T: Abort,
    {
        ScriptedHalf {
            script,
            step: 0,
            repeats: 0,
            fault,
            told: Arc::try_clone(told).expect(&rt, "what is told"),
            rt,
        }
    }

    fn next_try(&mut self) -> Try {
        self.told.tries.fetch_add(1, Ordering::SeqCst);
        let (tried, times) = match self.script.get(self.step) {
            Some(step) => *step,
            None => END,
        };
        if times == 0 {
            return RESET;
        }
        self.repeats = self.repeats.saturating_add(1);
        if self.repeats >= times {
            self.step = self.step.saturating_add(1);
            self.repeats = 0;
        }
        tried
    }

    fn outcome(&mut self, dir: Dir, offered: usize) -> Outcome
        ensures { IsCountWithin offered result }
    {
        match self.next_try() {
            Try::Gives(Outcome::Count(count)) => Outcome::Count(count.min(offered)),
            Try::Gives(Outcome::Interrupted) => Outcome::Interrupted,
            Try::Gives(Outcome::Aborted) => Outcome::Aborted,
            Try::Gives(Outcome::Broken(kind)) => Outcome::Broken(kind),
            Try::Gives(Outcome::WouldBlock) | Try::Connects => Outcome::WouldBlock,
            Try::Tells(notice) => {
                self.told.tell(&self.rt, notice, dir);
                Outcome::WouldBlock
            }
            Try::Gated => {
                comes_to(&self.rt, &self.told.gate, 1);
                Outcome::WouldBlock
            }
        }
    }
}

impl<T: Wait + Clock + Drop> TryRead for ScriptedHalf<T> {
    ghost tells = { λ _ _. ⊥ };

    // Each byte that it gives is one more than the one before, from the first of each try on.
    fn try_read(&mut self, buf: &mut [u8]) -> Outcome {
        let outcome = self.outcome(Dir::Read, buf.len());
        let before = self.told.offered.load(Ordering::SeqCst);
        let room = before.wrapping_mul(257).wrapping_add(buf.len() as u64);
        self.told.offered.store(room, Ordering::SeqCst);
        if let Outcome::Count(count) = outcome {
            let mut next = b'a';
            for byte in &mut buf[..count] {
                *byte = next;
                next = next.wrapping_add(1);
            }
        }
        outcome
    }
}

impl<T: Wait + Clock + Drop> TryWrite for ScriptedHalf<T> {
    ghost tells = { λ _ _. ⊥ };

    fn try_write(&mut self, bytes: &[u8]) -> Outcome {
        let outcome = self.outcome(Dir::Write, bytes.len());
        let before = self.told.offered.load(Ordering::SeqCst);
        self.told
            .offered
            .store(folded(before, bytes), Ordering::SeqCst);
        if let Outcome::Count(count) = outcome {
            let before = self.told.taken.load(Ordering::SeqCst);
            self.told
                .taken
                .store(folded(before, &bytes[..count]), Ordering::SeqCst);
        }
        outcome
    }
}

impl<T: Wait + Clock + Drop> TryAccept for ScriptedHalf<T> {
    type T = usize;

    ghost tells = { λ _ _. ⊥ };

    fn try_accept(&mut self) -> AcceptOutcome<usize> {
        match self.outcome(Dir::Read, usize::MAX) {
            Outcome::Count(taken) => AcceptOutcome::Took(taken),
            Outcome::Interrupted => AcceptOutcome::Interrupted,
            Outcome::Aborted => AcceptOutcome::Aborted,
            Outcome::WouldBlock => AcceptOutcome::WouldBlock,
            Outcome::Broken(kind) => AcceptOutcome::Broken(kind),
        }
    }
}

impl<T: Wait + Clock + Drop> HalfClose for ScriptedHalf<T> {
    // It is made once the script's tries of a connection are over.
    fn is_connecting(&mut self) -> bool {
        match self.script.get(self.step) {
            Some((Try::Connects, _)) => matches!(self.next_try(), Try::Connects),
            _ => false,
        }
    }

    fn shut(&mut self) -> Result<(), DevKind> {
        self.told.tries.fetch_add(1, Ordering::SeqCst);
        Err(DevKind::BrokenPipe)
    }
}

/// What is made of a read half: the fault of its destruction, which a write half never has.
#[derive(Drop)]
pub(super) struct Asked {
    pub(super) fault: Option<DevKind>,
}

/// Two scripted halves, whose destruction is counted, may be held, and answers the read half's
/// fault.
pub(super) struct Pair<T> {
    of: PhantomData<T>,
}

impl<T: Wait + Clock + Drop> Resource for Pair<T> {
    type R = ScriptedHalf<T>;

    type W = ScriptedHalf<T>;

    type Control = Asked;

    fn control_of(read: &ScriptedHalf<T>) -> Asked {
        Asked { fault: read.fault }
    }

    fn destroy(read: ScriptedHalf<T>, _write: ScriptedHalf<T>) -> Result<(), DevKind> {
        read.told.destroys.fetch_add(1, Ordering::SeqCst);
        let held = read.told.held.load(Ordering::SeqCst);
        comes_to(&read.rt, &read.told.let_go, held);
        match read.fault {
            Some(kind) => Err(kind),
            None => Ok(()),
        }
    }
}
