//! The loops: each a thread that resumes the tasks of its connections, and has books of its own.

ghost use Rattle.std.specs.Prelude.{◌≡◌, IfErr};
ghost use Rattle.readiness.specs.EventLoop.{tasks_of};
ghost use Rattle.readiness.specs.declared.loop_token.Side.{Side};
ghost use Rattle.relay_facts.specs.Books.{IsBlankOf, TakesBack};
ghost use Rattle.relay_conn.specs.Asked.{id_on};
ghost use Rattle.relay_conn.specs.Connection.{up_share_of, down_share_of};
ghost use Rattle.relay_loops.specs.Taken.{NothingWaits};
ghost use Rattle.relay_loops.specs.Turns as spec;
ghost use Rattle.relay_loops.specs.Turns.{IsTurnOf, StayArmed, IsPollerFault};
ghost use Rattle.relay_shared.specs.Index.{gone_id};

use crate::loop_task::LoopTask;
use crate::taken::Taken;
use fd_descriptor::PollCell;
use readiness::{EventLoop, Host, Side, Turn, Why};
use relay_admin::ServeFault;
use relay_conn::connection::{Connection, EndedConnection};
use relay_conn::others::Dials;
use relay_core::{LoopMemory, PairNext};
use relay_facts::books::LoopBooks;
use relay_facts::clock::{Moments, RelayClock};
use relay_facts::connection_facts::Acceptance;
use relay_facts::log_lines::tell_unserved;
use relay_facts::totals::Totals;
use relay_ledger::PARTS;
use relay_log::ended::Ended as How;
use relay_shared::inbox::Inbox;
use relay_shared::index::Gone;
use relay_shared::loop_handle::LoopParts;
use relay_shared::poller_fault::of_poller;
use relay_shared::shared::Shared;
use std::alloc::Global;
use std::marker::Brand;
use std::mem;
use std::net::{Net, TcpListener, TcpStream};
use std::sync::ledger::{Blank, Ledger};
use std::sync::{Arc, Wait};
use std::time::Clock;

/// A loop whose tasks are connections, and clients that are to say first who they are.
pub(crate) type ConnLoop<U, D, R> = EventLoop<LoopTask<U, D, R>>;

/// What a loop's thread knows of its relay: it sets connections up by it, and ends them.
#[derive(Drop)]
pub struct LoopContext<R: Wait + Clock + Copy> {
    pub rt: R,
    pub alloc: Global,
    pub clock: RelayClock<R>,
    /// The place of its loop.
    pub place: usize,
    pub shared: Arc<Shared>,
}

impl<R: Wait + Clock + Copy> LoopContext<R> {
    fn note_turn(&self) {
        if let Some(handle) = self.shared.loops.get(self.place) {
            handle.turns.add(1);
        }
    }

    /// The log is told of a client that isn't served, whose target at this place was dialled last, if
    /// one was.
    pub(crate) fn tell_refused(&self, acceptance: &Acceptance, last: Option<usize>, how: How) {
        let now = self.clock.now();
        let (Some(log), Some(place)) = (&self.shared.log, last) else {
            self.shared.tell_refused(&self.rt, acceptance, now, how);
            return;
        };
        let target = acceptance.address(place);
        tell_unserved(&self.rt, log, acceptance, &target, now, how);
    }
}

// What follows for its loop of what follows for a connection.
fn follows_of(next: PairNext) -> Turn
    ensures { result ≡ spec.follows_of next }
{
    match next {
        PairNext::Waits => Turn::Waits,
        PairNext::Again => Turn::Again,
        PairNext::Closes => Turn::Over,
    }
}

/// What a loop's thread has beside its tasks.
#[derive(Drop)]
pub(crate) struct LoopHost<U: Ledger, D: Ledger, R: Wait + Clock + Copy> {
    pub(crate) context: LoopContext<R>,
    pub(crate) books: LoopBooks<U, D>,
    /// An inbox that is empty between turns: it and the loop's change places, so that a turn takes no
    /// memory for a list.
    spare: Inbox,
    /// Which of its connections seek a target.
    pub(crate) dials: Dials<R>,
    /// Which of its clients have said who they are, and are to be served before its next turn.
    pub(crate) heads: Vec<u64>,
    /// It is lent to each task while that goes on.
    memory: LoopMemory,
}

impl<U: Ledger, D: Ledger, R: Wait + Clock + Copy> Host for LoopHost<U, D, R> {
    ghost use Rattle.std.specs.Prelude.{None};
    ghost use Rattle.relay_loops.specs.LoopTask.{awaited_by_task};

    type Task = LoopTask<U, D, R>;

    ghost awaited = { awaited_by_task };

    // Its descriptors have no timers: a task keeps its own time.
    ghost has_cell = { λ _ _ _ cell. cell ≡ None };

    fn cell<'a>(&self, _task: &'a LoopTask<U, D, R>, _side: Side) -> Option<&'a PollCell> {
        None
    }

    fn resume(&mut self, task: &mut LoopTask<U, D, R>, why: Why) -> Turn {
        match task {
            LoopTask::Awaiting(client) => self.await_on(client, why),
            LoopTask::Connection(connection) => self.go_on_with(connection, why),
        }
    }

    fn until(&self, task: &LoopTask<U, D, R>) -> Option<u64> {
        match task {
            LoopTask::Awaiting(client) => Some(client.until()),
            LoopTask::Connection(connection) => connection.until(),
        }
    }

    fn over(&mut self, task: LoopTask<U, D, R>) {
        self.end_task(task);
    }
}

impl<U: Ledger, D: Ledger, R: Wait + Clock + Copy> LoopHost<U, D, R> {
    /// Has a connection go on, and says what follows for its loop.
    pub(crate) fn go_on_with(&mut self, task: &mut Connection<U, D, R>, why: Why) -> Turn
        ensures { IsTurnOf task.old task.new self.old.dials self.new.dials why result }
    {
        let log = &self.context.shared.log;
        let next = task.go_on(&mut self.dials, &mut self.books, log, why, &mut self.memory);
        task.tell_bytes(&self.context.clock);
        follows_of(next)
    }

    /// Ends a connection, which is counted until it has ended; then who waits for that is told.
    pub(crate) fn end(&mut self, task: Connection<U, D, R>) -> Gone
        ensures gone { gone_id result ≡ id_on task Side.First }
        ensures up { TakesBack self.old.books.up.book self.new.books.up.book (up_share_of task) }
        ensures down { TakesBack self.old.books.down.book self.new.books.down.book
            (down_share_of task) }
        ensures dials { self.new.dials ≡ self.old.dials }
    {
        let now = self.context.clock.now();
        let shared = &self.context.shared;
        let EndedConnection { gone, owed } = task.end(
            &self.context.rt,
            &shared.index,
            &mut self.books,
            &shared.log,
            now,
        );
        owed.tell(shared);
        gone
    }
}

impl<U: Ledger, D: Ledger, R: Wait + Net + Clock + Copy> LoopHost<U, D, R> {
    // What waits in its inbox, which is held for the exchange alone.
    fn take_inbox(&mut self) -> Taken
        ensures kept { self.new ≡ record self.old { spare = self.new.spare } }
    {
        let mut inbox = mem::replace(&mut self.spare, Inbox::empty(self.context.alloc));
        if let Some(handle) = self.context.shared.loops.get(self.context.place) {
            handle.give_all(&self.context.rt, &mut inbox);
        }
        Taken::of(inbox)
    }

    // Serves what was asked, and sets up what was delivered, until nothing is left.
    fn empty_inbox(&mut self, tasks: &mut ConnLoop<U, D, R>)
        ensures left { NothingWaits self.new.spare }
        ensures armed { StayArmed (tasks_of tasks.old) (tasks_of tasks.new) }
    {
        let mut taken = self.take_inbox();
        loop {
            if let Some(request) = taken.next_request() {
                self.serve(tasks, request);
            } else if let Some(delivered) = taken.next_socket() {
                self.set_up(tasks, delivered);
            } else {
                self.spare = taken.emptied();
                return;
            }
        }
    }

    // Turns until the relay stops, or the poller fails. Who has said who it is is served first. What seeks a target by a turn has it before
    // requests look at it, and what does by a request before the next turn, which may sleep.
    fn turn_until_stop(&mut self, tasks: &mut ConnLoop<U, D, R>) -> Result<(), ServeFault>
        ensures faults { IfErr result IsPollerFault }
        ensures armed { StayArmed (tasks_of tasks.old) (tasks_of tasks.new) }
    {
        let rt = self.context.rt;
        for _ in rt.forever() {
            let now = self.context.clock.now();
            if let Err(fault) = tasks.turn(&rt, now, self) {
                return Err(of_poller(fault));
            }
            self.context.note_turn();
            if self.context.shared.is_stopped() {
                return Ok(());
            }
            self.serve_heads(tasks);
            self.dial_seekers(tasks);
            self.empty_inbox(tasks);
            self.dial_seekers(tasks);
        }
        unreachable!()
    }
}

/// A loop from its first turn to its end, on books that nobody else has. It gives their totals, or
/// none where a share is missing. One whose poller fails stops the relay.
pub fn run_loop<R>(
    context: LoopContext<R>,
    parts: LoopParts,
    memory: LoopMemory,
) -> Result<Option<Totals>, ServeFault>
where
    R: Wait + Net<Listener = TcpListener, Stream = TcpStream> + Clock + Copy,
    ensures faults { IfErr result IsPollerFault }
{
    let (up, down) = (Blank::new(PARTS), Blank::new(PARTS));
    run_on::<Brand, Brand, R>(context, parts, memory, up, down)
}

// The same on the ledgers of these blanks, which no other loop names.
fn run_on<U, D, R>(
    context: LoopContext<R>,
    parts: LoopParts,
    memory: LoopMemory,
    up: Blank,
    down: Blank,
) -> Result<Option<Totals>, ServeFault>
where
    U: Ledger,
    D: Ledger,
    R: Wait + Net<Listener = TcpListener, Stream = TcpStream> + Clock + Copy,
    requires up { IsBlankOf U.name U.parts up }
    requires down { IsBlankOf D.name D.parts down }
    ensures faults { IfErr result IsPollerFault }
{
    let LoopParts { driver, published } = parts;
    let alloc = context.alloc;
    let mut tasks: ConnLoop<U, D, R> = EventLoop::on(driver);
    let dials = Dials::new(context.rt, alloc);
    let mut host = LoopHost {
        context,
        dials,
        heads: Vec::new(alloc),
        books: LoopBooks::<U, D>::new(up, down, published),
        spare: match Inbox::new(alloc) {
            Ok(inbox) => inbox,
            // Requests then take memory as they come.
            Err(_) => Inbox::empty(alloc),
        },
        memory,
    };
    let turned = host.turn_until_stop(&mut tasks);
    tasks.end_all(&mut host);
    match turned {
        Ok(()) => Ok(host.books.gather(alloc)),
        Err(fault) => {
            host.context.shared.stop();
            Err(fault)
        }
    }
}
