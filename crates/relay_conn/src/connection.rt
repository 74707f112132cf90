//! A connection: a value that belongs to one loop, from its dial to its end. First its target is
//! dialled, then its ways go on.

ghost use Rattle.std.specs.Prelude.{◌≡◌, ◌<◌, ◌+◌, ◌^◌, is_some, true};

use crate::dialing::{DialStep, Dialing};
use crate::leaving::Leaving;
use crate::others::Dials;
use crate::relaying::Relaying;
use crate::seeking::Seeking;
use log_writer::Log;
use readiness::Why;
use relay_core::{LoopMemory, PairNext};
use relay_facts::books::LoopBooks;
use relay_facts::clock::Moments;
use relay_facts::connection_facts::ConnectionFacts;
use relay_facts::log_lines::tell_end;
use relay_facts::outcomes::Came;
use relay_log::ended::{Cause, Ended as How};
use relay_shared::inbox::Counted;
use relay_shared::index::Gone;
use relay_shared::owed_end::OwedEnd;
use relay_shared::standing::RelayIndex;
use std::sync::ledger::Ledger;
use std::sync::{Arc, Mutex, Wait};
use std::time::Clock;
use target_pick::Outcome;

/// How far a connection is.
#[derive(Drop)]
pub(crate) enum Phase<U: Ledger, D: Ledger, R: Wait + Clock + Copy> {
    /// Its target isn't connected yet.
    Dialing(Dialing<U, D, R>),
    /// A target was let go, and the next one isn't dialled yet.
    Seeking(Seeking<U, D, R>),
    /// Its target was connected, which is never taken back.
    Relaying(Relaying<U, D, R>),
}

/// A connection, and what others know of it.
#[derive(Drop)]
pub struct Connection<U: Ledger, D: Ledger, R: Wait + Clock + Copy> {
    /// The ids of its sides, in the relay's index.
    pub(crate) client_id: u64,
    pub(crate) target_id: u64,
    pub(crate) facts: Arc<ConnectionFacts>,
    /// It is counted as long as it stands.
    counted: Counted,
    // It isn't there only while it changes.
    pub(crate) phase: Option<Phase<U, D, R>>,
    ghost stands: { is_some phase ≡ true },
}

/// What a connection leaves that has ended: that nobody finds it any more, and that its end is to be told.
pub struct EndedConnection {
    pub gone: Gone,
    pub owed: OwedEnd,
}

// Counts how a connection ended whose sides had these ids, and tells the log.
fn note_ended<R: Wait + Clock>(
    rt: &R,
    log: &Option<Arc<Log>>,
    facts: &ConnectionFacts,
    ids: (u64, u64),
    now: u64,
    how: How,
) {
    if let Some(counts) = facts.counts() {
        counts.note_end(how, facts.acceptance.age_ns(now));
    }
    if let Some(log) = log {
        tell_end(rt, log, facts, ids, now, how);
    }
}

// Notes what came of a dial, if anything that its target has done.
fn note_step<R: Wait + Clock>(
    rt: &R,
    log: &Option<Arc<Log>>,
    facts: &ConnectionFacts,
    outcome: Option<Outcome>,
    cause: Cause,
) {
    if let Some(outcome) = outcome {
        facts.note_outcome(rt, log, &Came::of_connect(outcome, cause));
    }
}

impl<U: Ledger, D: Ledger, R: Wait + Clock + Copy> Connection<U, D, R> {
    ghost use Rattle.std.specs.Arc.{arc_value};
    ghost use Rattle.std.specs.Prelude.{◌⊎◌, Some};
    ghost use Rattle.readiness.specs.declared.agenda.Why.{Why};
    ghost use Rattle.relay_conn.specs.Asked.{KeepsConnection};
    ghost use Rattle.relay_conn.specs.Connection.{awaited_by, IfDialing, IfRelaying, IsRelaying};
    ghost use Rattle.relay_conn.specs.Connection.{IfSeeking, IsSeeking};
    ghost use Rattle.relay_conn.specs.Connection.{given_up_at, up_share, down_share};
    ghost use Rattle.relay_conn.specs.Dialing.{Connects, DialsOn, KeepsSeeking, LetsGo};
    ghost use Rattle.relay_conn.specs.Dialing.{SeeksOn, WaysBegin};
    ghost use Rattle.relay_conn.specs.Heard.{IsTime};
    ghost use Rattle.relay_conn.specs.Others.{moves_on_in};
    ghost use Rattle.relay_conn.specs.Relaying.{GoneOn};
    ghost use Rattle.relay_conn.specs.declared.connection.Phase.{Phase};
    ghost use Rattle.relay_core.specs.declared.pair_tasks.PairNext.{PairNext};
    ghost use Rattle.relay_facts.specs.Books.{TakesBack};
    ghost use Rattle.relay_shared.specs.Index.{gone_id};

    /// A connection that was entered under this id, whose target is dialled.
    pub(crate) fn new(
        client_id: u64,
        facts: Arc<ConnectionFacts>,
        counted: Counted,
        dialing: Dialing<U, D, R>,
    ) -> Connection<U, D, R>
        requires fits { client_id + 1 < 2 ^ 64 }
        ensures client { result.client_id ≡ client_id }
        ensures target { result.target_id ≡ client_id + 1 }
        ensures facts { result.facts ≡ facts }
        ensures counted { result.counted ≡ counted }
        ensures dials { result.phase ≡ Some (Phase.Dialing dialing) }
    {
        Connection {
            client_id,
            target_id: client_id + 1,
            facts,
            counted,
            phase: Some(Phase::Dialing(dialing)),
        }
    }

    /// Goes on by what its loop heard, and says what follows. Once its target is connected its ways
    /// begin. Where another target is to be tried, its loop finds its token among the dials. What came
    /// of a dial is noted, and the log is told of what that changes.
    pub fn go_on(
        &mut self,
        dials: &mut Dials<R>,
        books: &mut LoopBooks<U, D>,
        log: &Option<Arc<Log>>,
        why: Why,
        memory: &mut LoopMemory,
    ) -> PairNext
        ensures relays { IfRelaying self.old.phase (λ old. IfRelaying self.new.phase (λ new.
            GoneOn old new why result)) }
        ensures stays { IsRelaying self.old.phase → IsRelaying self.new.phase }
        ensures timely { IfDialing self.old.phase (λ old. IsTime why (given_up_at old)
            → (result ≡ PairNext.Closes) ⊎ IsRelaying self.new.phase) }
        ensures moves { IfDialing self.old.phase (λ old. IsTime why (moves_on_in old.others)
            → (result ≡ PairNext.Closes) ⊎ (IsRelaying self.new.phase ⊎ IsSeeking self.new.phase)) }
        ensures dials { IfDialing self.old.phase (λ old. IfDialing self.new.phase (λ new.
            DialsOn old new why result)) }
        ensures connects { IfDialing self.old.phase (λ old. IfRelaying self.new.phase (λ new.
            Connects (arc_value self.old.facts).acceptance old new why result)) }
        ensures seeks { IfDialing self.old.phase (λ old. IfSeeking self.new.phase (λ new.
            SeeksOn old new dials.old dials.new why result)) }
        ensures seeks_on { IfSeeking self.old.phase (λ old. IfSeeking self.new.phase (λ new.
            KeepsSeeking old new why)) }
        ensures sought { IfSeeking self.old.phase (λ _. IsSeeking self.new.phase) }
        ensures rests { IfSeeking self.old.phase (λ _. result ≡ PairNext.Waits) }
        ensures kept { KeepsConnection self.old self.new }
    {
        let step = match &mut self.phase {
            Some(Phase::Relaying(relaying)) => return relaying.go_on(books, why, memory),
            Some(Phase::Dialing(dialing)) => {
                let step = dialing.go_on(dials, why);
                let outcome = dialing.outcome(step, why);
                note_step(&dials.rt, log, &self.facts, outcome, dialing.cause());
                step
            }
            Some(Phase::Seeking(seeking)) => {
                seeking.hear(why);
                return PairNext::Waits;
            }
            None => unreachable!(),
        };
        match step {
            DialStep::Waits => PairNext::Waits,
            DialStep::Connected => self.begin(&dials.rt, books, memory),
            DialStep::Seeks => self.seek(&dials.rt),
            DialStep::Failed | DialStep::Gone | DialStep::Late => PairNext::Closes,
        }
    }

    // Lets its target go. It gives way, so that its loop doesn't sleep before the next one is dialled.
    fn seek(&mut self, rt: &R) -> PairNext
        ensures again { result ≡ PairNext.Again }
        ensures seeks { IfDialing self.old.phase (λ old. IsSeeking self.new.phase) }
        ensures let_go { IfDialing self.old.phase (λ old. IfSeeking self.new.phase (λ new.
            LetsGo old new)) }
        ensures kept { KeepsConnection self.old self.new }
    {
        match self.phase.take() {
            Some(Phase::Dialing(dialing)) => {
                self.phase = Some(Phase::Seeking(Seeking::of(rt, dialing)));
            }
            Some(Phase::Seeking(seeking)) => self.phase = Some(Phase::Seeking(seeking)),
            Some(Phase::Relaying(relaying)) => self.phase = Some(Phase::Relaying(relaying)),
            None => unreachable!(),
        }
        PairNext::Again
    }

    // Has its ways begin, where its target is dialled.
    fn begin(&mut self, rt: &R, books: &mut LoopBooks<U, D>, memory: &mut LoopMemory) -> PairNext
        ensures relays { IfDialing self.old.phase (λ old. IsRelaying self.new.phase) }
        ensures begun { IfDialing self.old.phase (λ old. IfRelaying self.new.phase (λ new.
            WaysBegin (arc_value self.old.facts).acceptance old new result)) }
        ensures kept { KeepsConnection self.old self.new }
    {
        match self.phase.take() {
            Some(Phase::Dialing(dialing)) => {
                let mut relaying = Relaying::of(rt, &self.facts.acceptance, dialing);
                let next = relaying.go_on(books, Why::Again, memory);
                self.phase = Some(Phase::Relaying(relaying));
                next
            }
            Some(Phase::Seeking(seeking)) => {
                self.phase = Some(Phase::Seeking(seeking));
                PairNext::Waits
            }
            Some(Phase::Relaying(relaying)) => {
                self.phase = Some(Phase::Relaying(relaying));
                PairNext::Waits
            }
            None => unreachable!(),
        }
    }

    /// The moment that it awaits.
    pub fn until(&self) -> Option<u64>
        ensures { result ≡ awaited_by self.now }
    {
        match &self.phase {
            Some(Phase::Dialing(dialing)) => dialing.until(),
            Some(Phase::Seeking(seeking)) => seeking.until(),
            Some(Phase::Relaying(relaying)) => relaying.until(),
            None => unreachable!(),
        }
    }

    /// Has others know how many bytes it has passed, where there are more than they know of.
    pub fn tell_bytes<C: Moments>(&self, clock: &C) {
        let Some(Phase::Relaying(relaying)) = &self.phase else {
            return;
        };
        let (up, down) = (relaying.up.passed, relaying.down.passed);
        if up != self.facts.up() || down != self.facts.down() {
            self.facts.note_bytes(up, down, clock.now());
        }
    }

    /// Ends it. First nobody finds it any more, and its calls under way end, so that no close waits
    /// for them; then both sides are closed, and the books take the shares back, however it ended.
    /// It is counted until then.
    pub fn end(
        self,
        rt: &R,
        index: &Mutex<RelayIndex>,
        books: &mut LoopBooks<U, D>,
        log: &Option<Arc<Log>>,
        now: u64,
    ) -> EndedConnection
        ensures up { TakesBack books.old.up.book books.new.up.book (up_share self.phase) }
        ensures down { TakesBack books.old.down.book books.new.down.book (down_share self.phase) }
        ensures gone { gone_id result.gone ≡ self.client_id }
    {
        let Connection {
            client_id,
            target_id,
            facts,
            counted,
            phase,
        } = self;
        let Some(phase) = phase else { unreachable!() };
        let gone = index.lock(rt).leave(client_id);
        let Leaving {
            client,
            target,
            up,
            down,
            how,
        } = phase.leave();
        client.close(rt);
        if let Some(target) = target {
            target.close(rt);
        }
        books.up.settle(Some(up));
        books.down.settle(Some(down));
        note_ended(rt, log, &facts, (client_id, target_id), now, how);
        EndedConnection {
            gone,
            owed: OwedEnd::of(counted),
        }
    }
}
