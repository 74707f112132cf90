//! The stage of a scene, and what is done and seen on it.

use super::calls::{Noted, answer, start};
use super::scene::{Answer, Call, Count, Event, Step};
use super::scripted::{Notice, Told};
use super::tasks::{Tasks, does};
use super::{Plain, TURNS, comes_to};
use base_types::Dir;
use deadline_core::{Deadline, Dirs};
use fd_descriptor::Word;
use rwloops::Fault;
use std::process::Abort;
use std::sync::atomic::{AtomicU64, Ordering};
use std::sync::{Arc, Wait};
use std::thread;
use std::thread::{JoinHandle, Threads};
use std::time::{Clock, Duration};

/// A descriptor, its handles, and the calls that have threads of their own.
#[derive(Drop)]
pub(super) struct Stage<T: Wait + Clock + Copy + Drop> {
    pub(super) rt: T,
    pub(super) told: Arc<Told>,
    pub(super) alarms: Noted<T>,
    pub(super) handles: Vec<Plain<T>>,
    pub(super) started: Vec<JoinHandle<Answer>>,
}

/// Calls that take a lock or a reference.
const ALL: [Call; 7] = [
    Call::Drain,
    Call::Read,
    Call::Accept,
    Call::Write(b"abc"),
    Call::Shut,
    Call::Set(Dirs::Both, Deadline::At(9), 5),
    Call::Ask,
];

/// Whether this is the answer of a call that was refused.
fn is_refused(answer: Option<Answer>, fault: Fault) -> bool {
    match answer {
        Some(Answer::Took(Err(why)) | Answer::Done(Err(why)) | Answer::Cut(why, 0)) => why == fault,
        Some(Answer::Asked(Err(why))) => why == fault,
        _ => false,
    }
}

impl<T: Wait + Clock + Copy + Drop> Stage<T> {
    fn by(&mut self, at: usize, call: Call) -> Option<Answer> {
        let handle = self.handles.get_mut(at)?;
        Some(answer(&self.rt, handle, &self.told, &self.alarms, call))
    }

    fn none_by(&mut self, at: usize, fault: Fault) -> bool {
        for call in ALL {
            if !is_refused(self.by(at, call), fault) {
                return false;
            }
        }
        true
    }

    pub(super) fn keep(&mut self, handle: Option<Plain<T>>) -> bool {
        match handle {
            Some(handle) => self.handles.push(handle).is_ok(),
            None => false,
        }
    }

    pub(super) fn share(&mut self) -> Option<Plain<T>> {
        self.handles.first_mut()?.share().ok()
    }

    fn start(&mut self, call: Call) -> bool
    where
        T: Threads + Abort + Send + 'static,
    {
        let Some(handle) = self.share() else {
            return false;
        };
        let started = start(self.rt, handle, &self.told, call);
        self.started.push(started).is_ok()
    }

    fn end(&mut self, at: usize) -> Option<Answer>
    where
        T: Threads,
    {
        if at < self.started.len() {
            Some(self.started.remove(at).join(&self.rt))
        } else {
            None
        }
    }

    // It happens.
    fn has(&self, event: Event) -> bool {
        match event {
            Event::Ready(dir) => self.told.tell(&self.rt, Notice::Ready, dir),
            Event::Clock(now) => self.told.tell(&self.rt, Notice::Clock(now), Dir::Read),
            Event::Pause(turns) => thread::sleep(&self.rt, Duration::from_millis(turns)),
            Event::Gate => self.told.gate.store(1, Ordering::SeqCst),
            Event::Hold => self.told.held.store(1, Ordering::SeqCst),
            Event::LetGo => self.told.let_go.store(1, Ordering::SeqCst),
        }
        true
    }

    fn counter(&self, count: Count) -> &AtomicU64 {
        match count {
            Count::Tries => &self.told.tries,
            Count::Answers => &self.told.answered,
            Count::Destroys => &self.told.destroys,
            Count::Tellings => &self.told.heard,
        }
    }

    fn comes(&self, count: Count, least: u64) -> bool {
        comes_to(&self.rt, self.counter(count), least)
    }

    // The notice comes at a moment when the caller is parked, unless it was late.
    fn ready_after_each(&self, dir: Dir, tries: u64) -> bool {
        for tried in 1..tries.saturating_add(1) {
            if !comes_to(&self.rt, &self.told.tries, tried) {
                return false;
            }
            self.has(Event::Pause(1));
            self.has(Event::Ready(dir));
        }
        true
    }

    fn shows(&mut self, word: Word) -> bool {
        match self.handles.first_mut() {
            Some(handle) => handle.look() == word,
            None => false,
        }
    }

    fn becomes(&mut self, word: Word) -> bool {
        for _ in 0..TURNS {
            if self.shows(word) {
                return true;
            }
            self.has(Event::Pause(1));
        }
        false
    }

    /// Whether a step comes to what it says.
    pub(super) fn goes(&mut self, tasks: &mut Tasks<T>, step: Step) -> bool
    where
        T: Threads + Abort + Send + 'static,
    {
        match step {
            Step::By(at, call, want) => self.by(at, call) == Some(want),
            Step::NoneBy(at, fault) => self.none_by(at, fault),
            Step::Start(call) => self.start(call),
            Step::End(at, want) => self.end(at) == Some(want),
            Step::Share => {
                let handle = self.share();
                self.keep(handle)
            }
            Step::Leave => self.handles.pop().is_some(),
            Step::Has(event) => self.has(event),
            Step::ReadyAfterEach(dir, tries) => self.ready_after_each(dir, tries),
            Step::Comes(count, least) => self.comes(count, least),
            Step::Counts(count, want) => self.counter(count).load(Ordering::SeqCst) == want,
            Step::Alarm(want) => self.alarms.last.lock(&self.rt).take() == want,
            Step::Shows(word) => self.shows(word),
            Step::Becomes(word) => self.becomes(word),
            Step::Runs(task) => does(self, tasks, task),
        }
    }
}
