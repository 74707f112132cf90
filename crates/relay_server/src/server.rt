//! A relay, from its sockets to its end.

ghost use Rattle.std.specs.Prelude.{◌≡◌, ◌+◌, IfErr, IfOk, OnOk};
ghost use Rattle.relay_server.specs.Server.{IsSocketsFault, SameLoops, given_in, replaces_stale_in};
ghost use Rattle.relay_server.specs.Server.{started_in, unstarted_in};
ghost use Rattle.relay_server.specs.Threads.{AreSumsOf};
ghost use Rattle.relay_admin.specs.ServeFault.{IsRunFault};
ghost use Rattle.relay_admin.specs.declared.serve_fault.ServeFault.{ServeFault};

use crate::figures::RelayFigures;
use crate::names_thread::NamesThread;
use crate::pollers::Pollers;
use crate::shared_end::{empty_inboxes, remove_paths};
use crate::threads::StartedThreads;
use log_writer::Log;
use relay_admin::ServeFault;
use relay_facts::clock::RelayClock;
use relay_facts::config::Config;
use relay_facts::totals::Totals;
use relay_main::{GivenListener, MainLoop, Sessions};
use relay_settings::Source;
use relay_shared::bound_path::BoundPaths;
use relay_shared::loop_handle::LoopParts;
use relay_shared::shared::shared_of;
use std::alloc::Global;
use std::fs::Files;
use std::mem;
use std::net::{Net, TcpListener, TcpStream};
use std::sync::{Arc, Wait};
use std::thread::Threads;
use std::time::{Clock, Instant};

/// A relay. It isn't `Drop`: `end` alone lets it go, so that a way out which leaves a thread, a
/// socket or a bound path doesn't compile.
pub(crate) struct Server<R: Wait + Clock + Copy> {
    /// When it began, by which each clock of it tells the time.
    start: Instant,
    pub(crate) main: MainLoop<R>,
    sessions: Sessions,
    /// What its loops are started with, by their places, until they are.
    loops: Vec<LoopParts>,
    threads: StartedThreads,
    /// The path of the admin socket, once it is bound.
    admin: BoundPaths,
}

// (its bounds are spelt out: a program that calls it over `RelayRuntime` isn't covered by the
// prover)
impl<R> Server<R>
where
    R: Wait
        + Threads
        + Net<Listener = TcpListener, Stream = TcpStream>
        + Clock
        + Files
        + Eprint
        + Copy
        + Send
        + Sync
        + 'static,
{
    /// A relay with its pollers and with the memory that its threads share: it has no socket and no
    /// thread yet, and has bound no path.
    pub(crate) fn new(rt: R, alloc: Global, config: Config) -> Result<Server<R>, ServeFault>
        ensures stale { IfOk result (λ server. replaces_stale_in server ≡ config.safeguards.replaces_stale) }
        ensures loops { IfOk result (λ server. (started_in server ≡ 0)
            × (unstarted_in server ≡ config.capacity.loops.count)) }
        ensures faults { IfErr result (λ fault. IsRunFault fault) }
    {
        let Ok(start) = Instant::now(&rt) else {
            return Err(ServeFault::Device);
        };
        let Pollers {
            main,
            loops,
            handles,
        } = Pollers::open(&rt, alloc, config.capacity.loops)?;
        let shared = shared_of(alloc, config, main.remote()?, handles)?;
        let clock = RelayClock::new(rt, start);
        let sessions = Sessions::none(alloc)?;
        Ok(Server {
            start,
            main: MainLoop::new(rt, alloc, clock, shared, main),
            sessions,
            loops,
            threads: StartedThreads::none(alloc),
            admin: BoundPaths::none(alloc),
        })
    }

    /// Has it take these listeners, in place of those that it was given before: a rule, also one
    /// that a reload brings, and the admin socket take the one at their address, and leave its path.
    pub(crate) fn give(&mut self, listeners: Vec<GivenListener>)
        ensures given { given_in self.new ≡ listeners.items }
        ensures stale { replaces_stale_in self.new ≡ replaces_stale_in self.old }
        ensures loops { SameLoops self.old self.new }
    {
        self.main.listeners.given = listeners;
    }

    /// The listeners that it was given and that nobody has taken.
    pub(crate) fn unused(&self) -> &[GivenListener]
        ensures given { result.now ≡ given_in self.now }
    {
        self.main.listeners.given.as_slice()
    }

    /// Opens all sockets: the listeners in the order of the rules, then the admin socket at this
    /// path, with this mode, where one is said. The faults are `Listen`, with the first rule that can't be listened for, `Admin`,
    /// `Device` and `Memory`; what was opened before stands, for `end`.
    pub(crate) fn open(&mut self, admin: &str, mode: Option<u16>) -> Result<(), ServeFault>
        ensures loops { SameLoops self.old self.new }
        ensures faults { IfErr result IsSocketsFault }
    {
        self.main.listen()?;
        self.main.open_admin(admin, mode, &mut self.admin)
    }

    /// Starts the loops' threads. After a fault those that were started run on, for `end`.
    pub(crate) fn start(&mut self) -> Result<(), ServeFault>
        ensures started { OnOk result
            (started_in self.new ≡ started_in self.old + unstarted_in self.old) }
        ensures faults { IfErr result (λ fault. fault ≡ ServeFault.Memory) }
    {
        let loops = mem::replace(&mut self.loops, Vec::new(self.main.alloc));
        self.threads.start_loops(&self.main, self.start, loops)
    }

    /// Turns until an admin session says stop, until the relay has finished, or until something
    /// fails.
    pub(crate) fn run(&mut self) -> Result<(), ServeFault>
        ensures loops { SameLoops self.old self.new }
        ensures faults { IfErr result (λ fault. IsRunFault fault) }
    {
        self.main.turn_until_stop(&mut self.sessions)
    }

    /// How many rules it has.
    pub(crate) fn rules(&self) -> u64 {
        self.main.host.shared.rules.lock(&self.main.host.rt).len() as u64
    }

    /// Whether a Unix socket at which nobody listens any more gives way to a listener.
    pub(crate) fn replaces_stale(&self) -> bool
        ensures stale { result ≡ replaces_stale_in self.now }
    {
        self.main.listeners.replaces_stale
    }

    /// Where its lines go, if it has a log. Refused is only a count that is held too often.
    pub(crate) fn log(&self) -> Result<Option<Arc<Log>>, ServeFault>
        ensures faults { IfErr result (λ fault. fault ≡ ServeFault.Memory) }
    {
        match &self.main.host.shared.log {
            Some(log) => Ok(Some(Arc::try_clone(log)?)),
            None => Ok(None),
        }
    }

    /// The thread that looks up the names of hosts, started now, where it was started from a file that may
    /// have some: a configuration.
    pub(crate) fn names_thread(&self) -> Result<Option<NamesThread>, ServeFault>
        ensures faults { IfErr result (λ fault. fault ≡ ServeFault.Memory) }
    {
        let (rt, shared) = (self.main.host.rt, &self.main.host.shared);
        match &shared.start.asked.source {
            Source::Config(_) => {
                let thread = NamesThread::start(rt, &shared.lookups, &shared.main, self.start)?;
                Ok(Some(thread))
            }
            Source::Rules(_) => Ok(None),
        }
    }

    /// What reads its figures. Refused is only a count that is held too often.
    pub(crate) fn figures(&self) -> Result<RelayFigures<R>, ServeFault>
        ensures faults { IfErr result (λ fault. fault ≡ ServeFault.Memory) }
    {
        Ok(RelayFigures {
            rt: self.main.host.rt,
            start: self.start,
            shared: Arc::try_clone(&self.main.host.shared)?,
        })
    }

    /// Ends all that was opened and started, whatever came before, and gives the totals of the
    /// books: the sums of what its loops told as they ended.
    pub(crate) fn end(self) -> Result<Totals, ServeFault>
        ensures sums { IfOk result (λ totals. AreSumsOf totals (started_in self)) }
        ensures faults { IfErr result (λ fault. IsRunFault fault) }
    {
        let Server {
            start: _,
            main,
            sessions,
            loops: _,
            threads,
            admin,
        } = self;
        let alloc = main.alloc;
        let stopped = main.host.shared.stop();
        drop(sessions);
        let (rt, shared, ended, paths) = main.end();
        let joined = threads.join(&rt, stopped, ended);
        remove_paths(&rt, paths, &joined);
        let emptied = empty_inboxes(&rt, alloc, &shared, &joined);
        remove_paths(&rt, admin, &joined);
        joined.totals(emptied)
    }
}
