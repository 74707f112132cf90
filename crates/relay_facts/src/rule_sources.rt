//! How many connections of each source a rule has.
//!
//! Whoever lets a client in asks the table of its rule, under a lock: the main thread as it accepts, and a
//! loop once a client has said by a header who it is. An end takes no lock, since it may come wherever a
//! connection is let go: it is noted at the place that counted it, and the table learns of it when the next
//! client asks for that place. Until then the place stays with its source, since somebody stands there.

ghost use Rattle.std.specs.Prelude.{◌≡◌, IfOk, IfSome, length};
ghost use Rattle.std.specs.Arc.{arc_value};
ghost use Rattle.client_sources.specs.Paced.{last_told, last_told_by, may_tell};
ghost use Rattle.client_sources.specs.Sources.{SourceTable};
ghost use Rattle.client_sources.specs.declared.sources.TheConstants.{PLACES};
ghost use Rattle.relay_facts.specs.RuleSources.{LetsInBy};
ghost use Rattle.relay_facts.specs.Seats as spec;

use base_types::OutOfMemory;
use client_sources::{GROUP_PLACES, Limits, PLACES, Paced, Refusal, Source, Sources};
use relay_log::ended::Ended;
use std::alloc::Global;
use std::sync::atomic::{AtomicU32, Ordering};
use std::sync::{Arc, Mutex, Wait};

// What the lock guards.
#[derive(Drop)]
struct Guarded {
    sources: Sources,
    /// The lines of the log that tell of clients that weren't let in for their source.
    paced: Paced,
}

impl Guarded {
    // Has the table learn of those that have ended at the places of this source's group.
    fn learn(&mut self, ended: &[AtomicU32], source: Source)
        ensures { self.new.paced ≡ self.old.paced }
    {
        let first = source.first_place();
        for place in first..first + GROUP_PLACES {
            if let Some(ended) = ended.get(place) {
                if ended.load(Ordering::SeqCst) > 0 {
                    self.sources.leave(place, ended.swap(0, Ordering::SeqCst));
                }
            }
        }
    }

    // Lets a client of this source in, and says at which place its source counts it, if at one.
    fn admit(
        &mut self,
        ended: &[AtomicU32],
        source: Source,
        limits: &Limits,
        now: u64,
    ) -> Result<Option<usize>, Refusal>
        ensures lets { (learnt : SourceTable) × LetsInBy source limits.now now learnt self.new.sources
            result }
        ensures paced { self.new.paced ≡ self.old.paced }
    {
        self.learn(ended, source);
        self.sources.admit(source, limits, now)
    }

    // Whether a line may be told at this moment.
    fn may_tell(&mut self, now: u64) -> bool
        ensures may { result ≡ may_tell (last_told self.old.paced) now }
        ensures last { last_told self.new.paced ≡ last_told_by (last_told self.old.paced) now }
        ensures sources { self.new.sources ≡ self.old.sources }
    {
        self.paced.tells(now)
    }
}

/// How many connections of each source a rule has. It takes no more memory than when it is made.
#[derive(Drop)]
pub struct RuleSources {
    guarded: Mutex<Guarded>,
    /// How many have ended that each place counted, and of which the table hasn't learned yet.
    ended: Vec<AtomicU32>,
}

/// Why a client isn't let in for its source.
#[derive(Clone, Copy, Debug, PartialEq, Eq, Drop)]
pub enum NoSeat {
    /// As many connections of its source stand as may.
    Full,
    /// As many clients of its source were let in as may be in their time.
    Rate,
    /// The table is held too often.
    Memory,
}

impl NoSeat {
    /// How that is told.
    pub fn how(self) -> Ended
        ensures { result ≡ spec.how_unseated self }
    {
        match self {
            NoSeat::Full => Ended::SourceFull,
            NoSeat::Rate => Ended::SourceRate,
            NoSeat::Memory => Ended::NoMemory,
        }
    }

    // What a table refuses.
    fn of(refusal: Refusal) -> NoSeat
        ensures { result ≡ spec.unseated_by refusal }
    {
        match refusal {
            Refusal::Full => NoSeat::Full,
            Refusal::Rate => NoSeat::Rate,
        }
    }
}

impl RuleSources {
    /// A table of no source.
    pub(crate) fn new(alloc: Global) -> Result<Arc<RuleSources>, OutOfMemory>
        ensures { IfOk result (λ table. length (arc_value table).ended.items ≡ PLACES) }
    {
        let sources = Sources::new(alloc)?;
        let mut ended = Vec::with_capacity(alloc, PLACES)?;
        for _ in 0..PLACES {
            ended.push(AtomicU32::new(0))?;
        }
        let paced = Paced::new();
        let guarded = Mutex::new(Guarded { sources, paced });
        Ok(Arc::new(alloc, RuleSources { guarded, ended })?)
    }

    // Lets a client of this source in, and says at which place its source counts it, if at one.
    fn admit<R: Wait>(
        &self,
        rt: &R,
        source: Source,
        limits: &Limits,
        now: u64,
    ) -> Result<Option<usize>, Refusal>
        ensures { (old : SourceTable) × (new : SourceTable)
            × LetsInBy source limits.now now old new result }
    {
        let ended = self.ended.as_slice();
        self.guarded.lock(rt).admit(ended, source, limits, now)
    }

    /// Whether the log may be told at this moment of a client that isn't let in for its source.
    pub(crate) fn may_tell<R: Wait>(&self, rt: &R, now: u64) -> bool {
        self.guarded.lock(rt).may_tell(now)
    }

    // A connection that this place counted has ended.
    fn note_end(&self, place: usize) {
        if let Some(ended) = self.ended.get(place) {
            ended.fetch_add(1, Ordering::SeqCst);
        }
    }
}

/// A connection's seat in its rule's table: its source counts it from when this is made until this is let
/// go, whatever comes of it. It can't be copied.
pub struct Seat {
    sources: Arc<RuleSources>,
    place: usize,
}

impl Seat {
    /// One of a client of this source that comes at this moment; or why it isn't let in. There is none
    /// for a client whose source has no place.
    pub(crate) fn new<R: Wait>(
        rt: &R,
        sources: &Arc<RuleSources>,
        source: Source,
        limits: &Limits,
        now: u64,
    ) -> Result<Option<Seat>, NoSeat>
        ensures { IfOk result (λ seat. IfSome seat
            (λ seat. arc_value seat.sources ≡ arc_value sources.now)) }
    {
        let Ok(own) = Arc::try_clone(sources) else {
            return Err(NoSeat::Memory);
        };
        match sources.admit(rt, source, limits, now) {
            Ok(Some(place)) => Ok(Some(Seat {
                sources: own,
                place,
            })),
            Ok(None) => Ok(None),
            Err(refusal) => Err(NoSeat::of(refusal)),
        }
    }
}

impl Drop for Seat {
    fn drop(self) {
        self.sources.note_end(self.place);
        let Seat {
            sources: _,
            place: _,
        } = self;
    }
}
