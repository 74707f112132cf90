//! The look-ups of hosts' names. A thread of its own makes them, since the system's resolver waits; the
//! main thread says which names are wanted, and takes what they were looked up as.
//!
//! No wake-up is lost: the thread waits only after it has looked into the lock and found nothing to do, and
//! gives the lock up no sooner than its wait has begun.

ghost use Rattle.std.specs.Prelude.{◌≡◌, ◌⊎◌, List, None, IfOk, IfSome};
ghost use Rattle.std.specs.Arc.{arc_value};
ghost use Rattle.relay_facts.specs.Config.{AreFoundBy, SaysRule};
ghost use Rattle.readiness.specs.Peers.{tcp_addr};
ghost use Rattle.relay_facts.specs.declared.host_answers.Answer.{Answer};
ghost use Rattle.relay_shared.specs.Addr as spec;

use crate::address::rule_address;
use base_types::OutOfMemory;
use readiness::LoopRemote;
use relay_admin::Addr;
use relay_facts::clock::Moments;
use relay_facts::host_answers::WantedName;
use relay_facts::host_names::{HostNames, Noted};
use relay_facts::served_rule::Said;
use relay_settings::{HostName, SaidRule};
use std::alloc::Global;
use std::net::{Ipv4Addr, Net, SocketAddr};
use std::sync::atomic::{AtomicBool, Ordering};
use std::sync::{Arc, Condvar, Mutex, Wait};
use std::time::{Clock, Duration};

/// The most addresses of a host that are taken.
const MAX_ADDRESSES: usize = 32;

/// How often the thread looks for names that are to be looked up again, in milliseconds.
const ROUND_MS: u64 = 1_000;

// What the thread does next.
enum Next {
    LooksUp(HostName),
    Waits,
    Ends,
}

/// That a host has other addresses than were taken. It can't be dropped: they are taken, or are news still.
pub struct News {
    by_look_up: (),
}

impl News {
    /// They are taken from now on.
    pub fn taken(self) {
        let News { by_look_up: () } = self;
    }
}

/// That the thread of look-ups was asked to end: `Lookups::end` alone makes one. Whoever waits for its end
/// shows one, so that nobody waits for a thread that was never asked.
#[derive(Clone, Copy)]
pub struct EndAsked {
    by_end: (),
}

/// The names that are looked up, as the main thread and the thread of look-ups share them.
#[derive(Drop)]
pub struct Lookups {
    alloc: Global,
    names: Mutex<HostNames>,
    changed: Condvar,
    /// Whether a host has other addresses than the main thread has taken.
    has_news: AtomicBool,
    /// Whether the thread was asked to end. It is never unset.
    is_ended: AtomicBool,
    /// Whether it has.
    is_over: AtomicBool,
}

// An address that the system's resolver gave, in the terms of rules.
fn host_address(found: SocketAddr) -> Addr
    ensures { result ≡ spec.rule_address (tcp_addr found) }
{
    rule_address(&readiness::Addr::of(found))
}

// The addresses of a host, by the system's resolver; none where it has none, or doesn't answer.
fn look_up<R: Net>(rt: &R, alloc: Global, host: &HostName) -> Vec<Addr> {
    let none = SocketAddr::from((Ipv4Addr::UNSPECIFIED, 0));
    let mut found = [none; MAX_ADDRESSES];
    let mut all = Vec::new(alloc);
    let Ok(count) = rt.lookup_host(host.as_str(), 0, &mut found) else {
        return all;
    };
    for one in &found[..count] {
        let at = host_address(*one);
        if !all.contains(&at) && all.push(at).is_err() {
            return Vec::new(alloc);
        }
    }
    all
}

// Says that a name can't be looked up, or that it can again. Where that can't be written, nobody is left to
// tell.
fn tell_turn<R: Eprint>(rt: &R, host: &HostName, has_failed: bool) {
    let _ = if has_failed {
        eprintln!(rt; "names: {host} can't be looked up; its last addresses stay")
    } else {
        eprintln!(rt; "names: {host} is looked up again")
    };
}

impl Lookups {
    /// No name is looked up.
    pub fn none(alloc: Global) -> Lookups {
        Lookups {
            alloc,
            names: Mutex::new(HostNames::none(alloc)),
            changed: Condvar::new(),
            has_news: AtomicBool::new(false),
            is_ended: AtomicBool::new(false),
            is_over: AtomicBool::new(false),
        }
    }

    /// From now on these are looked up, each at once. Where memory is refused nothing changes.
    pub fn want<R: Wait>(&self, rt: &R, names: &[WantedName]) -> Result<(), OutOfMemory> {
        self.names.lock(rt).want(self.alloc, names)?;
        self.changed.notify_one();
        Ok(())
    }

    /// That a host has other addresses than were taken, where one has. Nobody else finds that from now on.
    pub fn take_news(&self) -> Option<News> {
        if !self.has_news.swap(false, Ordering::SeqCst) {
            return None;
        }
        Some(News { by_look_up: () })
    }

    /// They weren't taken after all.
    pub fn put_news_back(&self, news: News) {
        let News { by_look_up: () } = news;
        self.has_news.store(true, Ordering::SeqCst);
    }

    /// What a rule of the file says, where hosts are at the addresses that are known now.
    pub fn said<R: Wait>(
        &self,
        rt: &R,
        rule: &SaidRule,
        before: Option<&Said>,
    ) -> Result<Arc<Said>, OutOfMemory>
        ensures { IfOk result (λ said. SaysRule rule.now (arc_value said)) }
    {
        let names = self.names.lock(rt);
        let said = Said::of(self.alloc, rule, before, &names.answers)?;
        Ok(Arc::new(self.alloc, said)?)
    }

    /// What a rule says with the addresses that are known now; none where it names no host.
    pub fn looked_up<R: Wait>(&self, rt: &R, said: &Said) -> Result<Option<Arc<Said>>, OutOfMemory>
        ensures named { IfOk result (λ said_now. IfSome said_now
            (λ new. (answers : List Answer) × AreFoundBy answers said.now (arc_value new))) }
        ensures none { IfOk result (λ said_now. said_now ≡ None
            → (said.now.names ≡ None) ⊎ (said.now.targets ≡ None)) }
    {
        let names = self.names.lock(rt);
        match said.looked_up(self.alloc, &names.answers)? {
            Some(said) => Ok(Some(Arc::new(self.alloc, said)?)),
            None => Ok(None),
        }
    }

    /// Asks the thread to end.
    pub fn end<R: Wait>(&self, rt: &R) -> EndAsked {
        let names = self.names.lock(rt);
        self.is_ended.store(true, Ordering::SeqCst);
        drop(names);
        self.changed.notify_one();
        EndAsked { by_end: () }
    }

    /// Whether the thread has ended, which was asked to.
    pub fn is_over(&self, _asked: EndAsked) -> bool {
        self.is_over.load(Ordering::SeqCst)
    }

    /// The work of the thread: looks names up as they are due, until its end is asked for, and wakes the
    /// main thread's loop where a host has other addresses. It is asked while a look-up waits too, but
    /// ends only behind it.
    pub fn run<R: Wait + Clock + Net + Eprint, C: Moments>(
        &self,
        rt: &R,
        clock: &C,
        main: &LoopRemote,
    ) {
        for _ in rt.forever() {
            match self.next(rt, clock.now()) {
                Next::LooksUp(host) => self.look_up(rt, clock, main, host),
                Next::Waits => {}
                Next::Ends => break,
            }
        }
        self.is_over.store(true, Ordering::SeqCst);
    }

    // What the thread does next. Where no name is due it waits until one may be, until others are wanted,
    // or for the end.
    fn next<R: Wait + Clock>(&self, rt: &R, now: u64) -> Next {
        let names = self.names.lock(rt);
        if self.is_ended.load(Ordering::SeqCst) {
            return Next::Ends;
        }
        if let Some(host) = names.next(now) {
            return Next::LooksUp(host);
        }
        if names.has_some() {
            let round = Duration::from_millis(ROUND_MS);
            let _ = self.changed.wait_timeout(rt, names, round);
        } else {
            let _ = self.changed.wait(rt, names);
        }
        Next::Waits
    }

    // Looks a host up, and notes what was found.
    fn look_up<R, C>(&self, rt: &R, clock: &C, main: &LoopRemote, host: HostName)
    where
        R: Wait + Net + Eprint,
        C: Moments,
    {
        let found = look_up(rt, self.alloc, &host);
        let noted = self.note(rt, host, found.as_slice(), clock.now());
        if noted.is_news {
            self.has_news.store(true, Ordering::SeqCst);
            main.wake();
        }
        if noted.has_turned {
            tell_turn(rt, &host, noted.has_failed);
        }
    }

    fn note<R: Wait>(&self, rt: &R, host: HostName, found: &[Addr], now: u64) -> Noted {
        self.names.lock(rt).note(self.alloc, host, found, now)
    }
}
