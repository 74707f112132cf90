//! The main thread's loop: it accepts by all rules, checks targets, and serves the admin sessions,
//! until the relay stops or has finished.

ghost use Rattle.std.specs.Prelude.{◌≡◌, ◌↔◌, ℕ, true, Some, None, [], IfOk, IfErr, OnOk};
ghost use Rattle.std.specs.Prelude.{List, length};
ghost use Rattle.std.specs.Arc.{arc_value};
ghost use Rattle.std.specs.declared.alloc.Global.{Global};
ghost use Rattle.std.specs.declared.sync.Arc.{Arc};
ghost use Rattle.readiness.specs.EventLoop.{tasks_of};
ghost use Rattle.readiness.specs.Tasks.{task_in};
ghost use Rattle.relay_main.specs.Binding.{IsBindFault, StillStand};
ghost use Rattle.relay_main.specs.Opening.{IsAdmin, IsAdminFault};
ghost use Rattle.relay_admin.specs.ServeFault.{IsRunFault};
ghost use Rattle.relay_admin.specs.declared.serve_fault.ServeFault.{ServeFault};
ghost use Rattle.relay_facts.specs.declared.served_rule.Said.{Said};
ghost use Rattle.relay_main.specs.Finishing.{IsOver};
ghost use Rattle.relay_main.specs.WantedListeners.{wanted_by};

use crate::finishing::is_over;
use crate::listeners_end::{AcceptsEnded, end_tasks};
use crate::listening::Listeners;
use crate::main_host::MainHost;
use crate::main_task::MainTask;
use crate::opening::open_admin;
use crate::rule_listeners::Listening;
use crate::sessions::Sessions;
use crate::wanted_listeners::{WantedListener, wanted_by};
use readiness::{EventLoop, LoopDriver};
use relay_admin::ServeFault;
use relay_facts::clock::{Moments, RelayClock};
use relay_facts::served_rule::{Said, ServedRule};
use relay_shared::bound_path::BoundPaths;
use relay_shared::poller_fault::of_poller;
use relay_shared::shared::Shared;
use std::alloc::Global;
use std::fs::Files;
use std::net::Net;
use std::sync::{Arc, Wait};
use std::time::Clock;

/// The loop that accepts, and what its tasks go on with. It isn't `Drop`: `end` alone lets it go, so
/// that no path is left.
pub struct MainLoop<R: Wait + Clock + Copy> {
    pub alloc: Global,
    pub(crate) tasks: EventLoop<MainTask<R>>,
    pub host: MainHost<R, RelayClock<R>>,
    pub listeners: Listeners,
    /// The rules' listeners, and the paths that their binds made.
    pub(crate) listening: Vec<Listening>,
    pub(crate) paths: BoundPaths,
    /// The accounts of rules that a reload left out, and of which connections stood then.
    pub(crate) gone: Vec<Arc<ServedRule>>,
    /// How many accounts have a number, by which sessions look at their targets.
    pub(crate) numbered: u64,
    /// The tokens of the tasks that check targets.
    pub(crate) checking: Vec<u64>,
    /// When these are to follow the rules, if they are.
    pub(crate) follow_at: Option<u64>,
    /// When the names that are looked up are to follow them, if they are.
    pub(crate) want_at: Option<u64>,
    /// The token of the admin socket's task; 0 before there is one.
    pub(crate) admin: u64,
    /// The moment at which the relay ends at the latest, where it finishes.
    pub(crate) finish_at: Option<u64>,
}

impl<R: Wait + Clock + Copy> MainLoop<R> {
    /// A loop that waits by this driver, with what the relay's threads share. It has no task yet, and no
    /// listener was given.
    pub fn new(
        rt: R,
        alloc: Global,
        clock: RelayClock<R>,
        shared: Arc<Shared>,
        driver: LoopDriver,
    ) -> MainLoop<R>
        ensures given { result.listeners.given.items ≡ [] }
        ensures shared { result.host.shared ≡ shared }
        ensures stale { result.listeners.replaces_stale ≡ (arc_value shared).safeguards.replaces_stale }
        ensures none { (token : ℕ) → task_in (tasks_of result.tasks) token ≡ None }
        ensures goes_on { result.finish_at ≡ None }
    {
        let replaces_stale = shared.safeguards.replaces_stale;
        MainLoop {
            alloc,
            tasks: EventLoop::on(driver),
            host: MainHost::new(rt, alloc, clock, shared),
            listeners: Listeners {
                given: Vec::new(alloc),
                replaces_stale,
            },
            listening: Vec::new(alloc),
            paths: BoundPaths::none(alloc),
            gone: Vec::new(alloc),
            numbered: 0,
            checking: Vec::new(alloc),
            follow_at: Some(0),
            want_at: Some(0),
            admin: 0,
            finish_at: None,
        }
    }

    /// Ends the accepts that are under way, closes their listeners, and gives what the threads share,
    /// and the paths that are to be removed.
    pub fn end(self) -> (R, Arc<Shared>, AcceptsEnded, BoundPaths)
        ensures { result.3 ≡ self.paths }
    {
        let MainLoop {
            alloc: _,
            tasks,
            host,
            listeners,
            listening: _,
            paths,
            gone: _,
            numbered: _,
            checking: _,
            follow_at: _,
            want_at: _,
            admin: _,
            finish_at: _,
        } = self;
        drop(listeners);
        let (mut tasks, mut host) = (tasks, host);
        let ended = end_tasks(&mut tasks, &mut host);
        let MainHost { rt, shared, .. } = host;
        (rt, shared, ended, paths)
    }
}

impl<R: Wait + Net + Files + Clock + Eprint + Copy> MainLoop<R> {
    /// Listens for all rules, in their order, at each address of each; or for none, after a fault: the
    /// first rule's that can't be listened for, or `Device` or `Memory`.
    pub fn listen(&mut self) -> Result<(), ServeFault>
        ensures stand { StillStand (tasks_of self.old.tasks) (tasks_of self.new.tasks) }
        ensures faults { IfErr result IsBindFault }
    {
        let rt = self.host.rt;
        let accounts = self.accounts(&rt)?;
        let wanted = self.wanted(&rt, accounts.as_slice())?;
        let _bound = self.bind_all(&rt, accounts.as_slice(), wanted.as_slice(), 0)?;
        self.begin_targets(accounts.as_slice());
        Ok(())
    }

    // The listeners that the rules of these accounts are to have.
    fn wanted(
        &self,
        rt: &R,
        accounts: &[Arc<ServedRule>],
    ) -> Result<Vec<WantedListener>, ServeFault>
        ensures wanted { IfOk result (λ wanted. (said : List (Arc Said Global))
            × (length said ≡ length accounts.now) × (wanted.items ≡ wanted_by said)) }
        ensures faults { IfErr result (λ fault. fault ≡ ServeFault.Memory) }
    {
        let said = self.said(rt, accounts)?;
        wanted_by(self.alloc, said.as_slice())
    }

    // What the rules of these accounts say now. Refused is only a list that is held too often.
    fn said(&self, rt: &R, accounts: &[Arc<ServedRule>]) -> Result<Vec<Arc<Said>>, ServeFault>
        ensures each { IfOk result (λ all. length all.items ≡ length accounts.now) }
        ensures faults { IfErr result (λ fault. fault ≡ ServeFault.Memory) }
    {
        let mut all = Vec::new(self.alloc);
        for served in accounts {
            let Some(said) = served.said(rt) else {
                return Err(ServeFault::Memory);
            };
            all.push(said)?;
        }
        Ok(all)
    }

    /// Opens the admin socket at this path, with this mode, where one is said, and accepts there from
    /// the next turn on. Its path is kept in `paths`, where it isn't given. The faults are `Admin`,
    /// `Device` and `Memory`.
    pub fn open_admin(
        &mut self,
        path: &str,
        mode: Option<u16>,
        paths: &mut BoundPaths,
    ) -> Result<(), ServeFault>
        ensures stand { StillStand (tasks_of self.old.tasks) (tasks_of self.new.tasks) }
        ensures come { OnOk result (IsAdmin (task_in (tasks_of self.new.tasks) self.new.admin)) }
        ensures faults { IfErr result IsAdminFault }
    {
        let MainLoop {
            alloc,
            tasks,
            host,
            listeners,
            admin,
            ..
        } = self;
        *admin = open_admin(&host.rt, *alloc, tasks, path, mode, listeners, paths)?;
        Ok(())
    }

    /// Turns until an admin session says stop, until the relay has finished, or the poller fails.
    pub fn turn_until_stop(&mut self, sessions: &mut Sessions) -> Result<(), ServeFault>
        ensures faults { IfErr result (λ fault. IsRunFault fault) }
    {
        let rt = self.host.rt;
        for _ in rt.forever() {
            let now = self.host.clock.now();
            self.want_names(now);
            self.follow_names();
            self.follow_checks(now);
            if let Err(fault) = self.tasks.turn(&rt, now, &mut self.host) {
                return Err(of_poller(fault));
            }
            self.dial_checks();
            sessions.serve(self);
            if self.is_over(self.host.shared.is_stopped(), sessions.are_held()) {
                return Ok(());
            }
        }
        unreachable!()
    }

    // Whether no turn more is wanted, where a session said stop or none did, and sessions' replies wait
    // for answers or don't.
    fn is_over(&self, is_stopped: bool, is_held: bool) -> bool
        ensures { (now standing : ℕ)
            × (result ≡ true ↔ IsOver is_stopped self.now.finish_at now standing is_held) }
    {
        let now = self.host.clock.now();
        let standing = self.host.shared.standing();
        is_over(is_stopped, self.finish_at, now, standing, is_held)
    }
}
