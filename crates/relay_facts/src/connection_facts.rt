//! A client that was accepted, and the connection that comes of it.

ghost use Rattle.std.specs.Prelude.{◌≡◌, ◌-◌, ◌/◌, None, IfSome, IfOk, IfErr, option_copied};
ghost use Rattle.std.specs.Arc.{arc_value};
ghost use Rattle.relay_facts.specs.Counts.{counts_of_loop};
ghost use Rattle.relay_facts.specs.Acceptance.{IsPicked, IsSameClient, IsTargetOf, address_in, list_in};
ghost use Rattle.relay_facts.specs.Acceptance.{checked_in, said_then, source_of, targets_in};
ghost use Rattle.relay_facts.specs.Targets.{IsNext, IsNoneLeft};

use crate::counts::LoopCounts;
use crate::header::AcceptedAt;
use crate::served_rule::{Said, ServedRule};
use crate::target_list::{NoneLeft, Picked};
use relay_admin::Addr;
use std::sync::Arc;
use std::sync::atomic::{AtomicU64, AtomicUsize, Ordering};
use target_pick::{Tried, source_number};

/// A client that was accepted.
#[derive(Drop)]
pub struct Acceptance {
    pub served: Arc<ServedRule>,
    /// What its rule said then, which a reload doesn't change.
    pub said: Arc<Said>,
    /// The client's address, once it has told one by a header that; an unnamed Unix socket has none.
    pub client: Option<Addr>,
    /// Where it was accepted, as far as a header for its target says it; or where its own header says so.
    pub accepted_at: Option<AcceptedAt>,
    /// The moment, in nanoseconds of the relay's clock.
    pub at: u64,
}

impl Acceptance {
    /// The same once more. It takes no memory; refused is only one that is held too often.
    pub fn try_clone(&self) -> Option<Acceptance>
        ensures { IfSome result (IsSameClient self.now) }
    {
        Some(Acceptance {
            served: Arc::try_clone(&self.served).ok()?,
            said: Arc::try_clone(&self.said).ok()?,
            client: self.client,
            accepted_at: self.accepted_at,
            at: self.at,
        })
    }

    /// For how long one of its directions may be silent, in milliseconds, if that has a limit.
    pub fn idle_ms(&self) -> Option<u32>
        ensures { result ≡ (said_then self.now).rule.idle_ms }
    {
        self.said.rule.idle_ms
    }

    /// The whole milliseconds from then to this moment.
    pub(crate) fn age_ms(&self, now: u64) -> u64
        ensures { result ≡ (now - self.now.at) / 1000000 }
    {
        ms_between(self.at, now)
    }
}

// The number by which `Balance::Source` finds a client's target again: that of its address, without
// the port, which differs each time, and without the scope.
fn source_of(client: &Option<Addr>) -> u64
    ensures { result ≡ source_of client.now }
{
    match client {
        Some(Addr::Tcp(bytes, _)) => source_number(bytes),
        Some(Addr::Tcp6(ip, _, _)) => source_number(&ip.octets()),
        _ => source_number(&[]),
    }
}

impl Acceptance {
    /// The next target for this client, for whom these were tried; none where no other is left that
    /// is up.
    pub fn next_target(&self, tried: Tried) -> Result<Picked, NoneLeft>
        ensures none { IfErr result (λ none.
            IsNoneLeft (checked_in self.now) (targets_in self.now) tried none.down) }
        ensures next { IfOk result (IsNext (checked_in self.now) (targets_in self.now) tried) }
        ensures picked { IfSome (list_in self.now) (λ list. IfOk result (λ picked.
            IsPicked list tried (source_of self.now.client) picked.place)) }
    {
        match &self.said.targets {
            Some(targets) => {
                targets.next(tried, self.served.next_turn(), source_of(&self.client))
            }
            None => self.only_target(tried),
        }
    }

    // The rule's own target, unless that was tried.
    fn only_target(&self, tried: Tried) -> Result<Picked, NoneLeft>
        requires { list_in self.now ≡ None }
        ensures none { IfErr result (λ none.
            IsNoneLeft (checked_in self.now) (targets_in self.now) tried none.down) }
        ensures next { IfOk result (IsNext (checked_in self.now) (targets_in self.now) tried) }
    {
        if tried.has(0) {
            return Err(NoneLeft { down: false });
        }
        Ok(Picked {
            place: 0,
            at: self.said.rule.target,
            tried: tried.with(0),
            others: 0,
        })
    }

    /// The address of the target at this place; the rule's own where there is none.
    pub fn address(&self, place: usize) -> Addr
        ensures { result ≡ address_in self.now place }
    {
        match &self.said.targets {
            Some(targets) => targets.address(place).unwrap_or(self.said.rule.target),
            None => self.said.rule.target,
        }
    }
}

/// The whole milliseconds from one moment to another, both in nanoseconds; 0 where that is not
/// later.
pub(crate) fn ms_between(from: u64, to: u64) -> u64
    ensures { result ≡ (to - from) / 1000000 }
{
    to.saturating_sub(from) / 1_000_000
}

// How many bytes more there are now than there were.
fn more_than(was: u64, now: u64) -> u64
    ensures { result ≡ now - was }
{
    now.saturating_sub(was)
}

/// A connection while it stands: whose it is, which target has it, and how many bytes it has passed
/// on. Its loop alone notes; anybody may ask. Its target counts it from when this is made until this
/// is let go.
pub struct ConnectionFacts {
    pub acceptance: Acceptance,
    /// The place of its loop.
    pub loop_place: usize,
    /// The place of its target, or of the one that is tried, among its rule's.
    target: AtomicUsize,
    // When its dial began, by `monotonic_ns`; 0 where that isn't known.
    dialled: AtomicU64,
    up: AtomicU64,
    down: AtomicU64,
    last: AtomicU64,
}

impl ConnectionFacts {
    /// A connection of this client, on the loop at this place, whose target at this place is tried
    /// first. It has passed nothing.
    pub fn new(acceptance: Acceptance, loop_place: usize, target: usize) -> ConnectionFacts
        ensures acceptance { result.acceptance ≡ acceptance }
        ensures loop_place { result.loop_place ≡ loop_place }
    {
        let last = AtomicU64::new(acceptance.at);
        if let Some(targets) = &acceptance.said.targets {
            targets.enter(target);
        }
        ConnectionFacts {
            acceptance,
            loop_place,
            target: AtomicUsize::new(target),
            dialled: AtomicU64::new(0),
            up: AtomicU64::new(0),
            down: AtomicU64::new(0),
            last,
        }
    }

    /// The address of its target, or of the one that is tried.
    pub fn target(&self) -> Addr
        ensures { IsTargetOf self.now.acceptance result }
    {
        self.acceptance.address(self.target_place())
    }

    /// The place of its target, or of the one that is tried.
    pub(crate) fn target_place(&self) -> usize {
        self.target.load(Ordering::SeqCst)
    }

    /// From now on the target at this place is tried.
    pub fn try_target(&self, place: usize) {
        let was = self.target.swap(place, Ordering::SeqCst);
        if let Some(targets) = &self.acceptance.said.targets {
            targets.enter(place);
            targets.leave(was);
        }
    }

    /// The dial of the target that is tried began at this moment, by `monotonic_ns`.
    pub fn note_dial(&self, at: Option<u64>) {
        self.dialled.store(at.unwrap_or(0), Ordering::SeqCst);
    }

    /// When it began; 0 where that isn't known.
    pub(crate) fn dialled(&self) -> u64 {
        self.dialled.load(Ordering::SeqCst)
    }

    /// What its loop counts of its rule.
    pub fn counts(&self) -> Option<&LoopCounts>
        ensures { option_copied result ≡ counts_of_loop self.now.loop_place
            (arc_value self.now.acceptance.served).counts }
    {
        self.acceptance.served.counts.of_loop(self.loop_place)
    }

    /// By this moment so many bytes in all were written to the target, and so many to the client.
    pub fn note_bytes(&self, up: u64, down: u64, now: u64) {
        let was_up = self.up.swap(up, Ordering::SeqCst);
        let was_down = self.down.swap(down, Ordering::SeqCst);
        self.last.store(now, Ordering::SeqCst);
        if let Some(counts) = self.counts() {
            counts.up.add(more_than(was_up, up));
            counts.down.add(more_than(was_down, down));
        }
    }

    /// The bytes that were written to the target.
    pub fn up(&self) -> u64 {
        self.up.load(Ordering::SeqCst)
    }

    /// The bytes that were written to the client.
    pub fn down(&self) -> u64 {
        self.down.load(Ordering::SeqCst)
    }

    /// When bytes were written last, or when it was accepted.
    pub(crate) fn last(&self) -> u64 {
        self.last.load(Ordering::SeqCst)
    }
}

impl Drop for ConnectionFacts {
    fn drop(self) {
        let ConnectionFacts {
            acceptance,
            loop_place: _,
            target,
            dialled: _,
            up: _,
            down: _,
            last: _,
        } = self;
        if let Some(targets) = &acceptance.said.targets {
            targets.leave(target.load(Ordering::SeqCst));
        }
    }
}
