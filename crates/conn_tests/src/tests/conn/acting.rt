//! How a role takes its steps.

use super::scene::{Call, Step, are_at, fill};
use super::stage::Stage;
use super::world::HeldEnd;
use super::{comes_to, pause};
use fd_descriptor::{DevKind, Dir, Fault};
use std::process::Abort;
use std::sync::{Arc, Wait};
use std::thread;
use std::thread::{JoinHandle, Threads};
use std::time::Clock;

/// The most bytes that a call is given.
const CHUNK: usize = 4_096;

const LATE: Fault = Fault::DeadlineExceeded;

/// What a call was answered: how many bytes it passed, its fault, and whether what it read is the
/// stream's and it wasn't late too early.
#[derive(Clone, Copy)]
struct Answer {
    count: usize,
    fault: Option<Fault>,
    fits: bool,
}

fn answer_of(done: Result<(), Fault>) -> Answer {
    Answer {
        count: 0,
        fault: done.err(),
        fits: true,
    }
}

/// Whether the other end is gone.
fn is_cut(fault: Option<Fault>) -> bool {
    match fault {
        Some(Fault::EndOfFile) => true,
        Some(Fault::Device(DevKind::Reset | DevKind::BrokenPipe)) => true,
        _ => false,
    }
}

/// A role, with a handle of its own, and where it stands in what it reads and in what it writes.
#[derive(Drop)]
struct Role<R: Wait + Copy + Drop> {
    rt: R,
    stage: Arc<Stage<R>>,
    end: HeldEnd,
    read: u64,
    written: u64,
}

impl<R: Wait + Clock + Copy + Drop> Role<R> {
    // A call is late only once its deadline has passed.
    fn is_in_time(&self, dir: Dir, fault: Option<Fault>) -> bool {
        fault != Some(LATE) || self.stage.is_due(&self.rt, self.end.end, dir)
    }

    fn reads(&mut self, most: usize) -> Answer {
        let mut buf = [0u8; CHUNK];
        let read = self.end.handle.read(&self.rt, &mut buf[..most.min(CHUNK)]);
        let (count, fault) = (read.unwrap_or(0), read.err());
        let passed = &buf[..count.min(CHUNK)];
        self.stage.book(self.end.end, Dir::Read).add(passed);
        let fits = are_at(passed, self.read) && self.is_in_time(Dir::Read, fault);
        self.read = self.read.saturating_add(count as u64);
        Answer { count, fault, fits }
    }

    fn writes(&mut self, most: usize) -> Answer {
        let mut buf = [0u8; CHUNK];
        let len = most.min(CHUNK);
        fill(&mut buf[..len], self.written);
        let (count, fault) = match self.end.handle.write(&self.rt, &buf[..len]) {
            Ok(count) => (count, None),
            Err(failed) => (failed.count, Some(failed.fault)),
        };
        let passed = &buf[..count.min(CHUNK)];
        self.stage.book(self.end.end, Dir::Write).add(passed);
        self.written = self.written.saturating_add(count as u64);
        let fits = self.is_in_time(Dir::Write, fault);
        Answer { count, fault, fits }
    }

    // Makes a call, which passes so many bytes at most.
    fn makes(&mut self, call: Call, most: usize) -> Answer {
        match call {
            Call::Read => self.reads(most),
            Call::Write => self.writes(most),
            Call::Shut => answer_of(self.end.handle.close_write(&self.rt)),
            Call::Close => answer_of(self.stage.closes(&self.rt, &mut self.end)),
            Call::Set(dirs, when) => answer_of(
                self.stage.sets(&self.rt, &mut self.end, dirs, when),
            ),
        }
    }

    // Whether all of so many bytes pass.
    fn passes(&mut self, call: Call, len: u64) -> bool {
        let (rt, mut left) = (self.rt, len);
        for _ in rt.forever() {
            let answer = self.makes(call, left.min(CHUNK as u64) as usize);
            left = left.saturating_sub(answer.count as u64);
            if answer.fault.is_some() || !answer.fits {
                return false;
            }
            if left == 0 {
                return true;
            }
        }
        unreachable!()
    }

    // The fault that ends a call made on and on, or none where it came too early.
    fn ends_by(&mut self, call: Call) -> Option<Fault> {
        let rt = self.rt;
        for _ in rt.forever() {
            let answer = self.makes(call, CHUNK);
            if answer.fault.is_some() {
                return if answer.fits { answer.fault } else { None };
            }
        }
        unreachable!()
    }

    fn is_refused(&mut self, call: Call, why: Fault) -> bool {
        let answer = self.makes(call, CHUNK);
        answer.fault == Some(why) && answer.count == 0 && answer.fits
    }

    // Does a step, and says whether what came of it is what has to.
    fn takes(&mut self, step: Step) -> bool {
        match step {
            Step::Read(len) => self.passes(Call::Read, len),
            Step::Write(len) => self.passes(Call::Write, len),
            Step::ReadUntil(fault) => self.ends_by(Call::Read) == Some(fault),
            Step::WriteUntil(fault) => self.ends_by(Call::Write) == Some(fault),
            Step::UntilCut(call) => is_cut(self.ends_by(call)),
            Step::Try(call) => matches!(self.makes(call, CHUNK).fault, None | Some(LATE)),
            Step::Do(call) => self.makes(call, CHUNK).fault.is_none(),
            Step::Refused(call, why) => self.is_refused(call, why),
            Step::Mark => self.stage.mark(),
            Step::Await(marks) => comes_to(&self.rt, &self.stage.marks, marks),
            Step::Pause(ms) => {
                pause(&self.rt, ms);
                true
            }
            Step::Repeat(_) => true,
        }
    }

    // Takes all steps, of which one may have those before it done so many times.
    fn plays(&mut self, scene: &'static str, steps: &[Step])
    where
        R: Abort,
    {
        let (rt, mut at, mut round) = (self.rt, 0usize, 1u64);
        for _ in rt.forever() {
            let Some(step) = steps.get(at) else {
                return;
            };
            let is_so = self.takes(*step);
            assert!(rt; is_so, "{scene}: step {at} of {}", steps.len());
            at = at.saturating_add(1);
            if let Step::Repeat(times) = *step {
                if round < times {
                    round = round.saturating_add(1);
                    at = 0;
                }
            }
        }
        unreachable!()
    }
}

/// Starts a role on a handle of its own.
pub(super) fn start<R>(
    rt: R,
    stage: &Arc<Stage<R>>,
    end: HeldEnd,
    (scene, steps): (&'static str, &'static [Step]),
) -> JoinHandle<()>
where
    R: Wait + Threads + Clock + Abort + Copy + Drop + Send + Sync + 'static,
{
    let mut role = Role {
        rt,
        stage: Arc::try_clone(stage).expect(&rt, "the stage"),
        end,
        read: 0,
        written: 0,
    };
    thread::spawn(&rt, move || role.plays(scene, steps)).expect(&rt, "a thread")
}
