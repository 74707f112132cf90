//! The binds of a reload: all listeners that are to be bound are, or none.

ghost use Rattle.std.specs.Prelude.{◌≡◌, ◌≢◌, ℕ, Ok, None, All, IfOk, IfErr, OnOk, IfSome};
ghost use Rattle.std.specs.Prelude.{IsSome, IsNone};
ghost use Rattle.std.specs.Arc.{arc_value};
ghost use Rattle.readiness.specs.EventLoop.{tasks_of};
ghost use Rattle.readiness.specs.LoopToken.{place_in};
ghost use Rattle.readiness.specs.Tasks.{task_in};
ghost use Rattle.relay_admin.specs.ServeFault.{IsRunFault};
ghost use Rattle.relay_main.specs.Binding.{HasCome, IsBindFault, IsListenFault, IsListenedFor};
ghost use Rattle.relay_main.specs.Binding.{IsNoted, KeepsPath, StillStand};
ghost use Rattle.relay_main.specs.Listening.{given_at, left_by};
ghost use Rattle.relay_shared.specs.BoundPath.{paths_in, paths_without};

use crate::accounts::account_of;
use crate::listeners_end::LastClients;
use crate::listening::Opened;
use crate::main_loop::MainLoop;
use crate::opening::hold_shared;
use crate::wanted_listeners::WantedListener;
use readiness::Listen;
use relay_admin::{Addr, ServeFault};
use relay_facts::served_rule::ServedRule;
use relay_facts::shown::ListenerFacts;
use relay_shared::socket_options::limit_queue;
use std::fs::Files;
use std::net::Net;
use std::sync::{Arc, Wait};
use std::time::Clock;

/// That each listener which was to be bound is: the last bind alone makes one. Who changes a rule asks
/// for one, so a reload that is refused has changed none.
#[derive(Drop)]
pub(crate) struct AllBound {
    by_last: (),
}

/// That a listener is bound, which the task with this token has. It can't be dropped: it stays where all
/// are bound, and is let go where not, so that a refused reload leaves no listener.
struct Begun {
    token: u64,
}

impl Begun {
    // It stays.
    fn stay(self, _bound: &AllBound) {
        let Begun { token: _ } = self;
    }
}

impl<R: Wait + Net + Files + Clock + Copy> MainLoop<R> {
    /// Binds these listeners in turn, by the accounts of their rules among those; or none: after a fault
    /// those before it are let go, the last first.
    pub(crate) fn bind_all(
        &mut self,
        rt: &R,
        accounts: &[Arc<ServedRule>],
        wanted: &[WantedListener],
        now: u64,
    ) -> Result<AllBound, ServeFault>
        ensures stand { StillStand (tasks_of self.old.tasks) (tasks_of self.new.tasks) }
        ensures bound { OnOk result
            (All (λ one. IsListenedFor one (tasks_of self.new.tasks)) wanted.now) }
        ensures faults { IfErr result IsBindFault }
    {
        let Some((one, rest)) = wanted.split_first() else {
            return Ok(AllBound { by_last: () });
        };
        let loops = self.host.shared.loops.len();
        let served = account_of(self.alloc, accounts, &one.rule, loops)?;
        let begun = self.bind(rt, one, &served, now)?;
        match self.bind_all(rt, accounts, rest, now) {
            Ok(bound) => {
                begun.stay(&bound);
                Ok(bound)
            }
            Err(fault) => {
                self.let_go(rt, &one.listen, begun);
                Err(fault)
            }
        }
    }

    // Ends a listener that was bound just now, and removes its path.
    fn let_go(&mut self, rt: &R, listen: &Addr, begun: Begun)
        ensures gone { task_in (tasks_of self.new.tasks) begun.token ≡ None }
        ensures others { (other : ℕ) → place_in other ≢ place_in begun.token →
            task_in (tasks_of self.new.tasks) other ≡ task_in (tasks_of self.old.tasks) other }
        ensures paths { paths_in self.new.paths
            ≡ paths_without listen.now (paths_in self.old.paths) }
    {
        let Begun { token } = begun;
        self.end_rule(token, LastClients::AreReset);
        self.paths.remove_at(rt, listen);
    }

    // Binds a listener where none stands. The path that one before it left goes first, and after a
    // fault there is none of this one.
    fn bind(
        &mut self,
        rt: &R,
        one: &WantedListener,
        served: &Arc<ServedRule>,
        now: u64,
    ) -> Result<Begun, ServeFault>
        ensures stand { StillStand (tasks_of self.old.tasks) (tasks_of self.new.tasks) }
        ensures come { IfOk result (λ begun. HasCome (arc_value served.now) one.now.listen
            (tasks_of self.old.tasks) (tasks_of self.new.tasks) begun.token) }
        ensures faults { IfErr result (IsListenFault one.now.rule.name) }
    {
        self.paths.remove_at(rt, &one.listen);
        let socket = self.open(rt, one)?;
        limit_queue(&socket, one.backlog);
        match self.begin(rt, socket, served, ListenerFacts::new(one.listen, now)) {
            Ok(token) => Ok(Begun { token }),
            Err(fault) => {
                self.paths.remove_at(rt, &one.listen);
                Err(fault)
            }
        }
    }

    // Listens at the address of one. The path of one that isn't given is kept, for its removal.
    fn open(&mut self, rt: &R, one: &WantedListener) -> Result<Listen, ServeFault>
        ensures given { IfSome (given_at one.now.listen self.old.listeners.given.items)
            (λ listener. result ≡ Ok listener) }
        ensures no_path { IsSome (given_at one.now.listen self.old.listeners.given.items)
            → paths_in self.new.paths ≡ paths_in self.old.paths }
        ensures path { IsNone (given_at one.now.listen self.old.listeners.given.items)
            → OnOk result (KeepsPath one.now.listen self.old.paths self.new.paths) }
        ensures left { self.new.listeners.given.items
            ≡ left_by one.now.listen self.old.listeners.given.items }
        ensures tasks { self.new.tasks ≡ self.old.tasks }
        ensures faults { IfErr result (IsListenFault one.now.rule.name) }
    {
        match self.listeners.open(rt, &one.listen, one.mode) {
            Ok(Opened::Given(socket)) => Ok(socket),
            Ok(Opened::Bound(socket, path)) => {
                self.paths.keep(rt, path)?;
                Ok(socket)
            }
            Err(_) => Err(ServeFault::Listen(one.rule.name)),
        }
    }

    // Has a task accept from this socket, by this account, and notes its listener.
    fn begin(
        &mut self,
        rt: &R,
        socket: Listen,
        served: &Arc<ServedRule>,
        facts: ListenerFacts,
    ) -> Result<u64, ServeFault>
        ensures stand { StillStand (tasks_of self.old.tasks) (tasks_of self.new.tasks) }
        ensures come { IfOk result (λ token. HasCome (arc_value served.now) facts.listen
            (tasks_of self.old.tasks) (tasks_of self.new.tasks) token) }
        ensures noted { IfOk result (λ token. IsNoted facts.listen token
            self.old.listening.items self.new.listening.items) }
        ensures faults { IfErr result IsRunFault }
    {
        let MainLoop {
            alloc,
            tasks,
            host,
            ..
        } = self;
        let one = hold_shared(rt, *alloc, tasks, &host.shared.index, socket, served, facts)?;
        let token = one.token;
        match self.listening.push(one) {
            Ok(()) => Ok(token),
            Err(_) => {
                self.end_rule(token, LastClients::AreReset);
                Err(ServeFault::Memory)
            }
        }
    }
}
