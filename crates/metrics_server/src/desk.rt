//! What the tasks of a server need, and what they leave.

ghost use Rattle.std.specs.Prelude.{◌≡◌, ◌≢◌, ◌<◌, ◌≤◌, ◌++◌, ◌∷◌, [], length, true, false, None};
ghost use Rattle.metrics_server.specs.Desk.{IsFirstOf, StandsBehind};
ghost use Rattle.readiness.specs.declared.tasks.Turn.{Turn};
ghost use Rattle.metrics_server.specs.declared.TheConstants.{MOST_CLIENTS};

use crate::MOST_CLIENTS;
use crate::client::Client;
use crate::service::MetricsService;
use arrayvec::ArrayVec;
use fd_descriptor::{Alarms, Dirs, PollCell, TaskReader};
use readiness::{Host, ListenRes, RemoteAlarms, Side, Sock, Turn, Why};
use relay_metrics::Metered;
use std::alloc::Global;
use std::sync::Wait;
use std::time::{Clock, Instant};

/// The most connections that are accepted before clients have their turn.
const MOST_ACCEPTED: usize = 64;

/// How long a listener rests that the system refuses, in nanoseconds.
const REST_NS: u64 = 5_000_000;

/// What the loop of a server has go on.
#[derive(Drop)]
pub(crate) enum Task<R: Wait + Copy + Drop> {
    Listener(TaskReader<ListenRes, R>),
    Client(Client<R>),
}

/// What the tasks need, and what they leave.
#[derive(Drop)]
pub(crate) struct Desk<R: Wait + Clock + Copy + Drop, M: Metered + Drop> {
    pub(crate) rt: R,
    start: Instant,
    // The nanoseconds that each client has.
    limit_ns: u64,
    alarms: RemoteAlarms<R>,
    // The listener's token, under which its rests end.
    listener: u64,
    service: MetricsService<M>,
    /// The connections that were accepted in this turn.
    pub(crate) accepted: Vec<Sock>,
    // The tokens of the clients that stand, in the order in which they came.
    standing: ArrayVec<u64, MOST_CLIENTS>,
}

impl<R: Wait + Clock + Copy + Drop, M: Metered + Drop> Desk<R, M> {
    /// The desk of a server that listens under this token, and has no client.
    pub(crate) fn new(
        rt: R,
        alloc: Global,
        start: Instant,
        alarms: RemoteAlarms<R>,
        listener: u64,
        limit_ns: u64,
        service: MetricsService<M>,
    ) -> Desk<R, M>
        ensures limit { result.limit_ns ≡ limit_ns }
        ensures service { result.service ≡ service }
        ensures alarms { result.alarms ≡ alarms }
        ensures nobody { result.standing.items ≡ [] }
    {
        Desk {
            rt,
            start,
            limit_ns,
            alarms,
            listener,
            service,
            accepted: Vec::new(alloc),
            standing: ArrayVec::new(),
        }
    }

    /// What the server runs on.
    pub(crate) fn rt(&self) -> R
        ensures { result ≡ self.now.rt }
    {
        self.rt
    }

    /// The nanoseconds since the start, which are the moments of all deadlines here.
    pub(crate) fn now(&self) -> u64 {
        match self.start.elapsed(&self.rt) {
            Ok(passed) => u64::try_from(passed.as_nanos()).unwrap_or(u64::MAX),
            Err(_) => u64::MAX,
        }
    }

    // Accepts until nobody waits: only after that a turn is told of the next who comes. Where the
    // system refuses, it rests.
    fn accept(&mut self, listener: &mut TaskReader<ListenRes, R>) -> Turn
        ensures goes_on { result ≢ Turn.Over }
        ensures kept { StandsBehind self.old.accepted.items self.new.accepted.items }
        ensures clients { self.new.standing ≡ self.old.standing }
    {
        for _ in 0..MOST_ACCEPTED {
            match listener.poll_accept() {
                Some(Ok(sock)) => {
                    let _ = self.accepted.push(sock);
                }
                None => return Turn::Waits,
                Some(Err(_)) => {
                    let until = self.now().saturating_add(REST_NS);
                    let _ = self.alarms.arm(self.listener, Dirs::Read, until);
                    return Turn::Waits;
                }
            }
        }
        Turn::Again
    }

    /// Begins the time of a client, which stands from now on. Where that takes memory that is
    /// refused it doesn't.
    pub(crate) fn begin(&mut self, client: &mut Client<R>) -> bool
        ensures begun { result ≡ true
            → self.new.standing.items ≡ self.old.standing.items ++ client.old.token ∷ [] }
        ensures refused { result ≡ false → self.new.standing.items ≡ self.old.standing.items }
        ensures accepted { self.new.accepted ≡ self.old.accepted }
    {
        let (now, token) = (self.now(), client.token);
        let until = now.saturating_add(self.limit_ns);
        if client.lasts_until(until, now, &self.alarms).is_err() {
            return false;
        }
        self.standing.try_push(token).is_ok()
    }

    /// Who has to go so that one more may stand: where as many stand as may, the client that came
    /// first.
    pub(crate) fn gives_way(&self) -> Option<u64>
        ensures room { length self.now.standing.items < MOST_CLIENTS → result ≡ None }
        ensures first { MOST_CLIENTS ≤ length self.now.standing.items
            → IsFirstOf self.now.standing.items result }
    {
        if self.standing.len() < MOST_CLIENTS {
            return None;
        }
        self.standing.as_slice().first().copied()
    }
}

impl<R: Wait + Clock + Copy + Drop, M: Metered + Drop> Host for Desk<R, M> {
    ghost use Rattle.std.specs.Prelude.{◌≡◌, None};
    ghost use Rattle.metrics_server.specs.Desk.{cell_of_task};

    type Task = Task<R>;

    // A task awaits no moment of its own.
    ghost awaited = { λ _. None };

    ghost has_cell = { λ _ task _ cell. cell ≡ cell_of_task task };

    fn cell<'a>(&self, task: &'a Task<R>, _side: Side) -> Option<&'a PollCell> {
        match task {
            Task::Listener(_) => None,
            Task::Client(client) => Some(&*client.cell),
        }
    }

    fn resume(&mut self, task: &mut Task<R>, _why: Why) -> Turn {
        match task {
            Task::Listener(listener) => self.accept(listener),
            Task::Client(client) => client.go_on(&mut self.service),
        }
    }

    fn until(&self, _task: &Task<R>) -> Option<u64> {
        None
    }

    fn over(&mut self, task: Task<R>)
        ensures accepted { self.new.accepted ≡ self.old.accepted }
    {
        if let Task::Client(client) = task {
            let token = client.token;
            self.standing.retain(|it| *it != token);
            let _ = client.close(&self.rt);
        }
    }
}
