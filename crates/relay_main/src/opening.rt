//! Opening: a task for a listener of a rule, and the admin socket with its own.

ghost use Rattle.std.specs.Prelude.{◌≡◌, IfSome, IfNone, IfOk, IfErr};
ghost use Rattle.std.specs.Arc.{arc_value};
ghost use Rattle.fd_descriptor.specs.FdHandle.{IsFirst};
ghost use Rattle.fd_descriptor.specs.TaskHalf.{IsHalfOf};
ghost use Rattle.readiness.specs.EventLoop.{tasks_of};
ghost use Rattle.readiness.specs.Tasks.{ComesNext, task_in};
ghost use Rattle.relay_admin.specs.ServeFault.{IsRunFault};
ghost use Rattle.relay_main.specs.Binding.{HasCome, StillStand};
ghost use Rattle.relay_main.specs.Opening.{IsAdmin, IsAdminFault, IsEntered};

use crate::admin_socket::AdminTask;
use crate::listening::{Listeners, Opened};
use crate::main_task::MainTask;
use crate::rule_listeners::Listening;
use crate::rule_task::{RuleListener, RuleTask};
use arrayvec::ArrayString;
use fd_descriptor::{FdHandle, TaskReader};
use readiness::{EventLoop, HoldFault, Listen, ListenRes, Poller};
use relay_admin::{Addr, ServeFault};
use relay_facts::served_rule::ServedRule;
use relay_facts::shown::ListenerFacts;
use relay_shared::bound_path::BoundPaths;
use relay_shared::index::Standing;
use relay_shared::standing::RelayIndex;
use std::alloc::Global;
use std::fs::Files;
use std::net::Net;
use std::sync::{Arc, Mutex, Wait};

// A descriptor of a listener, of which the poller tells under this token.
fn opened(
    poller: &Poller,
    alloc: Global,
    socket: Listen,
    token: u64,
) -> Result<FdHandle<ListenRes>, ServeFault>
    ensures first { IfOk result (IsFirst token) }
    ensures faults { IfErr result IsRunFault }
{
    match poller.open_listener(alloc, socket, token) {
        Ok(handle) => Ok(handle),
        Err(HoldFault::Device(_)) => Err(ServeFault::Device),
        Err(_) => Err(ServeFault::Memory),
    }
}

// A descriptor of a rule's listener, which stands in the index from this moment on; or nothing of it
// does, where memory is refused.
fn listener_in<R: Wait + Copy>(
    rt: R,
    index: &mut RelayIndex,
    handle: FdHandle<ListenRes>,
    served: &Arc<ServedRule>,
    facts: ListenerFacts,
) -> Option<RuleListener<R>>
    ensures entered { IfSome result (λ listener.
        IsEntered (arc_value served.now) listener.id index.old index.new) }
    ensures kept { IfNone result (index.new ≡ index.old) }
    ensures own { IfSome result (λ listener. IsHalfOf handle listener.half) }
    ensures facts { IfSome result (λ listener. listener.facts ≡ facts) }
{
    let cell = handle.cell().ok()?;
    let known = Arc::try_clone(served).ok()?;
    let entered = index.enter(Standing::Listener(known)).ok()?;
    Some(RuleListener {
        id: entered.keep(),
        cell,
        half: TaskReader::new(rt, handle),
        facts,
    })
}

/// Has a task accept from this socket from the next turn on, by this account, which counts it; its
/// listener stands in the index under the next id. After a fault nothing of it is left.
pub(crate) fn hold_rule<R: Wait + Copy>(
    rt: R,
    alloc: Global,
    tasks: &mut EventLoop<MainTask<R>>,
    index: &mut RelayIndex,
    socket: Listen,
    served: &Arc<ServedRule>,
    facts: ListenerFacts,
) -> Result<Listening, ServeFault>
    ensures stand { StillStand (tasks_of tasks.old) (tasks_of tasks.new) }
    ensures come { IfOk result (λ one. HasCome (arc_value served.now) facts.listen
        (tasks_of tasks.old) (tasks_of tasks.new) one.token) }
    ensures listen { IfOk result (λ one. one.listen ≡ facts.listen) }
    ensures faults { IfErr result IsRunFault }
{
    let listen = facts.listen;
    let Ok(place) = tasks.vacant() else {
        return Err(ServeFault::Memory);
    };
    let handle = opened(tasks.poller(), alloc, socket, place.first)?;
    let task_served = Arc::try_clone(served)?;
    let listener = listener_in(rt, index, handle, served, facts).ok_or(ServeFault::Memory)?;
    let id = listener.id;
    match tasks.put(MainTask::Rule(RuleTask::new(task_served, place, listener))) {
        Ok(_) => {
            served.count_listener(true);
            tasks.again(place.first);
            Ok(Listening {
                listen,
                id,
                token: place.first,
            })
        }
        Err(_) => {
            let _ = index.leave(id);
            Err(ServeFault::Memory)
        }
    }
}

/// The same over the index that the relay's threads share.
pub(crate) fn hold_shared<R: Wait + Copy>(
    rt: &R,
    alloc: Global,
    tasks: &mut EventLoop<MainTask<R>>,
    index: &Mutex<RelayIndex>,
    socket: Listen,
    served: &Arc<ServedRule>,
    facts: ListenerFacts,
) -> Result<Listening, ServeFault>
    ensures stand { StillStand (tasks_of tasks.old) (tasks_of tasks.new) }
    ensures come { IfOk result (λ one. HasCome (arc_value served.now) facts.listen
        (tasks_of tasks.old) (tasks_of tasks.new) one.token) }
    ensures listen { IfOk result (λ one. one.listen ≡ facts.listen) }
    ensures faults { IfErr result IsRunFault }
{
    hold_rule(
        *rt,
        alloc,
        tasks,
        &mut *index.lock(rt),
        socket,
        served,
        facts,
    )
}

// Listens at the admin path, with this mode, and keeps it for its removal, where it isn't given. A path
// of no byte, or of more than an address holds, can't be listened on.
fn listen_at_admin<R: Net + Files>(
    rt: &R,
    path: &str,
    mode: Option<u16>,
    listeners: &mut Listeners,
    paths: &mut BoundPaths,
) -> Result<Listen, ServeFault>
    ensures faults { IfErr result IsAdminFault }
{
    if path.is_empty() {
        return Err(ServeFault::Admin);
    }
    let Ok(path) = ArrayString::from(path) else {
        return Err(ServeFault::Admin);
    };
    let addr = Addr::Unix(path);
    match listeners.open(rt, &addr, mode) {
        Ok(Opened::Given(listener)) => Ok(listener),
        Ok(Opened::Bound(listener, bound)) => {
            paths.keep(rt, bound)?;
            Ok(listener)
        }
        Err(_) => Err(ServeFault::Admin),
    }
}

/// Opens the admin socket at this path, with this mode, and has a task accept there from the next turn
/// on, whose token it gives. The path is kept for its removal, where it isn't given.
pub(crate) fn open_admin<R: Wait + Net + Files + Copy>(
    rt: &R,
    alloc: Global,
    tasks: &mut EventLoop<MainTask<R>>,
    path: &str,
    mode: Option<u16>,
    listeners: &mut Listeners,
    paths: &mut BoundPaths,
) -> Result<u64, ServeFault>
    ensures stand { StillStand (tasks_of tasks.old) (tasks_of tasks.new) }
    ensures come { IfOk result (λ token. IsAdmin (task_in (tasks_of tasks.new) token)) }
    ensures next { IfOk result (ComesNext (tasks_of tasks.new)) }
    ensures faults { IfErr result IsAdminFault }
{
    let mut listener = listen_at_admin(rt, path, mode, listeners, paths)?;
    let Ok(place) = tasks.vacant() else {
        return Err(ServeFault::Memory);
    };
    if tasks
        .poller()
        .register_listener(&mut listener, place.first)
        .is_err()
    {
        return Err(ServeFault::Device);
    }
    match tasks.put(MainTask::Admin(AdminTask::new(alloc, place, listener))) {
        Ok(_) => {
            tasks.again(place.first);
            Ok(place.first)
        }
        Err(_) => Err(ServeFault::Memory),
    }
}
