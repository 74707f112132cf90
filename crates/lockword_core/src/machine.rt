//! A machine of named holders: the packed word, both semaphores, who destroyed, and each holder's
//! own stake. It never counts holders, and each operation costs one search in a map.

ghost use Rattle.std.specs.Prelude.{◌≡◌, ◌≤◌, ℕ, true, false, IfOk, IfErr, OnOk, OnErr, length};
ghost use Rattle.std.specs.Prelude.{take};
ghost use Rattle.std.specs.Ordering.{nat_cmp};
ghost use Rattle.std.specs.BTreeMap.{insert_entry};
ghost use Rattle.lockword_core.specs.declared.stake.Op.{Op};
ghost use Rattle.lockword_core.specs.declared.stake.Op.TheVariants as op;
ghost use Rattle.lockword_core.specs.Signals.{signals_in};
ghost use Rattle.lockword_core.specs.LockState.{empty, census, stake_of, encoded};
ghost use Rattle.lockword_core.specs.LockInvariant.{IsConsistent};
ghost use Rattle.lockword_core.specs.Transition.{allows, transition};
ghost use Rattle.lockword_core.specs.WordStep.{op_of};
ghost use Rattle.lockword_core.specs.Replay.{state_after, answers_of};

use crate::signals::{Signals, signal_add, signal_take};
use crate::stake::{Answer, Event, Op, Stake};
use crate::stake_rules::{allows, gained, refusal_of, stake_after_signal};
use crate::transition::{Kind, word_step};
use base_types::{Dir, OutOfMemory};
use std::alloc::Global;
use std::collections::BTreeMap;
use std::marker::Model;

/// Memory ran out after exactly the first `done` events.
#[derive(Clone, Copy, Debug, PartialEq, Eq, Drop)]
pub struct Stopped {
    pub done: usize,
}

/// Holders, each with a stake, and the word that counts them.
#[derive(Drop)]
pub struct Machine {
    word: u64,
    signals: Signals,
    destroyed_by: Option<u64>,
    holders: BTreeMap<u64, Stake>,
}

impl Model for Machine {
    ghost use Rattle.lockword_core.specs.LockState.{LockState};
    ghost use Rattle.lockword_core.specs.Machine.{state_in, IsSound};

    ghost Value = { LockState };

    ghost view = { state_in };

    ghost invariant = { IsSound };
}

fn put(holders: &mut BTreeMap<u64, Stake>, holder: u64, own: Stake) -> Result<(), OutOfMemory>
    ensures ok { OnOk result (holders.new.entries
        ≡ insert_entry nat_cmp holders.old.entries holder own) }
    ensures err { OnErr result (holders.new.entries ≡ holders.old.entries) }
{
    match holders.insert(holder, own) {
        Ok(_) => Ok(()),
        Err(_) => Err(OutOfMemory),
    }
}

impl Machine {
    /// A machine on which nothing has happened. It takes no memory yet.
    pub fn new(alloc: Global) -> Machine
        ensures { result ≡ empty }
    {
        Machine {
            word: 0,
            signals: Signals { read: 0, write: 0 },
            destroyed_by: None,
            holders: BTreeMap::new(alloc),
        }
    }

    /// The packed word.
    pub fn word(&self) -> u64
        ensures word { result ≡ encoded (census self.now) }
        ensures consistent { IsConsistent self.now }
    {
        self.word
    }

    /// The signals of a direction that no waiter has taken yet.
    pub fn signals(&self, dir: Dir) -> u64
        ensures { result ≡ signals_in dir self.now.signals }
    {
        self.signals.of(dir)
    }

    /// The holder that destroyed, if one did.
    pub fn destroyed_by(&self) -> Option<u64>
        ensures { result ≡ self.now.destroyed_by }
    {
        self.destroyed_by
    }

    /// What this holder has. A holder that never asked for anything is `Free`.
    pub fn stake(&self, holder: u64) -> Stake
        ensures { result ≡ stake_of self.now holder }
    {
        match self.holders.get(&holder) {
            Some(own) => *own,
            None => Stake::Free,
        }
    }

    /// One operation of one holder. Where memory ran out, nothing changed.
    pub fn step(&mut self, holder: u64, op: Op) -> Result<Answer, OutOfMemory>
        ensures ok { IfOk result (λ answer. (self.new, answer) ≡ transition self.old holder op) }
        ensures err { OnErr result (self.new ≡ self.old) }
    {
        if !allows(self.stake(holder), op) {
            return Ok(Answer::Misuse);
        }
        match op {
            Op::Incref => self.step_word(holder, Kind::Incref),
            Op::Decref => self.step_word(holder, Kind::Decref),
            Op::Lock(dir) => self.step_word(holder, Kind::Lock(dir)),
            Op::Unlock(dir) => self.step_word(holder, Kind::Unlock(dir)),
            Op::Signal(dir) => self.signal(holder, dir),
            Op::Wake(dir) => self.wake(holder, dir),
            Op::Close => self.step_word(holder, Kind::Close),
            Op::Drain => self.step_word(holder, Kind::Drain),
            Op::Destroy => self.destroy(holder),
        }
    }

    fn step_word(&mut self, holder: u64, kind: Kind) -> Result<Answer, OutOfMemory>
        requires { allows (stake_of self.old holder) (op_of kind) ≡ true }
        ensures ok { IfOk result (λ answer. (self.new, answer)
            ≡ transition self.old holder (op_of kind)) }
        ensures err { OnErr result (self.new ≡ self.old) }
    {
        match word_step(self.word, kind) {
            Err(refused) => Ok(refusal_of(refused)),
            Ok((word, after)) => {
                let (answer, own) = gained(kind, after);
                put(&mut self.holders, holder, own)?;
                self.word = word;
                Ok(answer)
            }
        }
    }

    fn signal(&mut self, holder: u64, dir: Dir) -> Result<Answer, OutOfMemory>
        requires { allows (stake_of self.old holder) (Op.Signal dir) ≡ true }
        ensures ok { IfOk result (λ answer. (self.new, answer)
            ≡ transition self.old holder (Op.Signal dir)) }
        ensures err { OnErr result (self.new ≡ self.old) }
    {
        let left = stake_after_signal(dir, self.stake(holder));
        let Some(signals) = signal_add(self.signals.of(dir)) else {
            return Ok(Answer::Full);
        };
        put(&mut self.holders, holder, left)?;
        self.signals = self.signals.with(dir, signals);
        Ok(Answer::Signalled)
    }

    fn wake(&mut self, holder: u64, dir: Dir) -> Result<Answer, OutOfMemory>
        requires { allows (stake_of self.old holder) (Op.Wake dir) ≡ true }
        ensures ok { IfOk result (λ answer. (self.new, answer)
            ≡ transition self.old holder (Op.Wake dir)) }
        ensures err { OnErr result (self.new ≡ self.old) }
    {
        let Some(signals) = signal_take(self.signals.of(dir)) else {
            return Ok(Answer::NotYet);
        };
        put(&mut self.holders, holder, Stake::Free)?;
        self.signals = self.signals.with(dir, signals);
        Ok(Answer::Woken)
    }

    fn destroy(&mut self, holder: u64) -> Result<Answer, OutOfMemory>
        requires { allows (stake_of self.old holder) Op.Destroy ≡ true }
        ensures ok { IfOk result (λ answer. (self.new, answer)
            ≡ transition self.old holder Op.Destroy) }
        ensures err { OnErr result (self.new ≡ self.old) }
    {
        put(&mut self.holders, holder, Stake::Free)?;
        self.destroyed_by = Some(holder);
        Ok(Answer::Done)
    }

    /// Events one after the other, with their answers. Where memory runs out, the machine has
    /// carried out exactly the first `done` events.
    pub fn run(&mut self, alloc: Global, events: &[Event]) -> Result<Vec<Answer>, Stopped>
        ensures state { OnOk result (self.new ≡ state_after self.old events.now) }
        ensures answers { IfOk result (λ answers. answers.items ≡ answers_of self.old events.now) }
        ensures within { IfErr result (λ stopped. stopped.done ≤ length events.now) }
        ensures stopped { IfErr result (λ stopped. self.new
            ≡ state_after self.old (take stopped.done events.now)) }
        ensures consistent { IsConsistent self.new }
    {
        // What a machine keeps is known where one of its fields is read.
        let _ = &self.word;
        let mut answers = Vec::new(alloc);
        for (done, event) in events.iter().enumerate() {
            let answer = match self.step(event.holder, event.op) {
                Ok(answer) => answer,
                Err(_) => return Err(Stopped { done }),
            };
            match answers.push(answer) {
                Ok(()) => {}
                Err(_) => return Err(Stopped { done: done + 1 }),
            }
        }
        Ok(answers)
    }
}
