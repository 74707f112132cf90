//! Setting a connection up between a client and a target that is dialled: first what only it knows,
//! then what others find. From then on it can do without memory.

ghost use Rattle.std.specs.Prelude.{◌≡◌, ◌<◌, ◌+◌, ◌^◌, Some, None, IfOk, OnOk};
ghost use Rattle.std.specs.Prelude.{IfSome, IfNone, OnSome};
ghost use Rattle.std.specs.Arc.{arc_value};
ghost use Rattle.base_types.specs.declared.direction.Dir.{Dir};
ghost use Rattle.relay_core.specs.declared.pair_tasks.FlowState.{FlowState};
ghost use Rattle.relay_facts.specs.Books.{TakesBack};
ghost use Rattle.relay_ledger.specs.Book.{OpensOne};
ghost use Rattle.relay_conn.specs.Connection.{IfDialing};
ghost use Rattle.relay_conn.specs.SetUp.{IsBegunWith, IsSetUp};
ghost use Rattle.relay_conn.specs.Trial.{IsSomeTrial};
ghost use Rattle.relay_conn.specs.Side.{IsWhole, key_of_side};
ghost use Rattle.relay_shared.specs.Index.{entered_id};

use crate::connection::Connection;
use crate::dialing::{Dialing, NewWay};
use crate::dialled::Dialled;
use crate::flow::OwnShare;
use crate::idle_time::IdleTime;
use crate::refused::Refused;
use crate::side::{OpenSide, open_side};
use crate::trial::Trial;
use crate::way_time::WayTime;
use base_types::Dir;
use readiness::{Place, Poller, Sock};
use relay_core::{Copying, PairTasks, Step, Way};
use relay_facts::books::LoopBooks;
use relay_facts::clock::{Moments, RelayClock};
use relay_facts::connection_facts::ConnectionFacts;
use relay_ledger::CarriedShare;
use relay_shared::inbox::Counted;
use relay_shared::index::{Entered, Standing};
use relay_shared::standing::{Connected, RelayIndex};
use std::alloc::Global;
use std::sync::ledger::Ledger;
use std::sync::{Arc, Mutex, Wait};
use std::time::Clock;

/// What a loop sets its connections up by: the relay's index, and the loop's own poller, which tells
/// of their sockets.
#[derive(Clone, Copy)]
pub struct SetUp<'a, R: Wait + Clock + Copy> {
    pub rt: R,
    pub alloc: Global,
    pub clock: RelayClock<R>,
    pub index: &'a Mutex<RelayIndex>,
    pub poller: &'a Poller,
}

/// What a connection begins with: its client's socket, the target that was begun, what is known of
/// it, and the moment by which a target is to be connected, if that has one.
#[derive(Drop)]
pub struct Begins {
    pub client: Sock,
    pub target: Trial,
    pub facts: Arc<ConnectionFacts>,
    pub counted: Counted,
    pub connect_by: Option<u64>,
}

/// Both sides of a connection.
#[derive(Drop)]
struct BothSides<R: Wait + Copy> {
    client: OpenSide<R>,
    target: OpenSide<R>,
}

/// What a way will copy by, but for its share.
#[derive(Drop)]
struct Prepared<R: Wait + Clock + Copy> {
    copying: Copying,
    time: WayTime<RelayClock<R>>,
}

/// The same of both ways.
#[derive(Drop)]
struct BothPrepared<R: Wait + Clock + Copy> {
    up: Prepared<R>,
    down: Prepared<R>,
}

/// What a connection is given last: its shares, and its entry, which can't be dropped.
struct Given<U: Ledger, D: Ledger> {
    entered: Entered,
    up: CarriedShare<U>,
    down: CarriedShare<D>,
}

// A pair of which both reads are under way. Its sides were just registered, so that the poller
// tells of what is there already.
fn reading_tasks() -> PairTasks
    ensures up { result.up ≡ FlowState.Waits Dir.Read }
    ensures down { result.down ≡ FlowState.Waits Dir.Read }
{
    let mut tasks = PairTasks::new();
    tasks.note(Way::Up, &Step::Waits(Dir::Read));
    tasks.note(Way::Down, &Step::Waits(Dir::Read));
    tasks
}

impl<R: Wait + Clock + Copy> Prepared<R> {
    // The same with its share.
    fn with_share<L: Ledger>(self, share: CarriedShare<L>) -> NewWay<L, R>
        ensures time { result.time ≡ self.time }
        ensures share { result.share ≡ share }
    {
        let Prepared { copying, time } = self;
        NewWay {
            copying,
            share: OwnShare::new(share),
            time,
        }
    }
}

// The first dial of a connection began at this moment.
fn note_dial(facts: &Arc<ConnectionFacts>, began: Option<u64>) {
    facts.note_dial(began);
}

// A dial of what was made for it.
fn dialing_of<U: Ledger, D: Ledger, R: Wait + Clock + Copy>(
    sides: BothSides<R>,
    ways: BothPrepared<R>,
    up: CarriedShare<U>,
    down: CarriedShare<D>,
    connect_by: Option<u64>,
) -> Dialing<U, D, R>
    ensures client { result.client ≡ sides.client }
    ensures target { result.target ≡ sides.target }
    ensures up_time { result.up.time ≡ ways.up.time }
    ensures down_time { result.down.time ≡ ways.down.time }
    ensures up_share { result.up.share ≡ up }
    ensures down_share { result.down.share ≡ down }
    ensures up_reads { result.tasks.up ≡ FlowState.Waits Dir.Read }
    ensures down_reads { result.tasks.down ≡ FlowState.Waits Dir.Read }
    ensures connect_by { result.connect_by ≡ connect_by }
    ensures unfailed { result.failure ≡ None }
{
    Dialing {
        client: sides.client,
        target: sides.target,
        others: None,
        up: ways.up.with_share(up),
        down: ways.down.with_share(down),
        tasks: reading_tasks(),
        connect_by,
        failure: None,
    }
}

impl<'a, R: Wait + Clock + Copy> SetUp<'a, R> {
    /// A side of a socket, of which the poller tells under this token.
    pub(crate) fn side(&self, sock: Sock, token: u64) -> Result<OpenSide<R>, Refused>
        ensures whole { IfOk result IsWhole }
        ensures key { IfOk result (λ side. key_of_side side ≡ token) }
    {
        open_side(self.rt, self.alloc, self.poller, sock, token)
    }

    // Both sides.
    fn sides(&self, client: Sock, target: Dialled, place: Place) -> Result<BothSides<R>, Refused>
        ensures client { IfOk result (λ sides. key_of_side sides.client ≡ place.first) }
        ensures target { IfOk result (λ sides. key_of_side sides.target ≡ place.second) }
        ensures client_whole { IfOk result (λ sides. IsWhole sides.client) }
        ensures target_whole { IfOk result (λ sides. IsWhole sides.target) }
    {
        let client = self.side(client, place.first)?;
        let target = self.side(target.into_sock(), place.second)?;
        Ok(BothSides { client, target })
    }

    // What a way will copy by, whose first read is under way.
    fn prepared(&self, idle_ms: Option<u32>) -> Option<Prepared<R>>
        ensures idle { IfSome result (λ way. way.time.idle.idle_ms ≡ idle_ms) }
    {
        let mut time = WayTime::new(IdleTime::new(self.clock, idle_ms));
        time.begin(Dir::Read).ok()?;
        let copying = Copying::new(self.alloc).ok()?;
        Some(Prepared { copying, time })
    }

    // The same of both ways.
    fn both_prepared(&self, idle_ms: Option<u32>) -> Option<BothPrepared<R>>
        ensures up { IfSome result (λ ways. ways.up.time.idle.idle_ms ≡ idle_ms) }
        ensures down { IfSome result (λ ways. ways.down.time.idle.idle_ms ≡ idle_ms) }
    {
        let up = self.prepared(idle_ms)?;
        let down = self.prepared(idle_ms)?;
        Some(BothPrepared { up, down })
    }

    // Enters a connection under its client's id. From then on it is found.
    fn enter(&self, facts: &Arc<ConnectionFacts>, place: Place) -> Option<Entered>
        ensures fits { IfSome result (λ entered. entered_id entered + 1 < 2 ^ 64) }
    {
        let connected = Connected {
            facts: Arc::try_clone(facts).ok()?,
            place,
        };
        let standing = Standing::Connection(connected);
        self.index.lock(&self.rt).enter(standing).ok()
    }

    // Opens the shares of a connection, and enters it, or does neither. It is entered last, since
    // nothing that was found is refused: the token of a refused set-up is given again.
    fn give<U: Ledger, D: Ledger>(
        &self,
        books: &mut LoopBooks<U, D>,
        facts: &Arc<ConnectionFacts>,
        place: Place,
    ) -> Option<Given<U, D>>
        ensures up { IfSome result (λ _. OpensOne books.old.up.book books.new.up.book) }
        ensures down { IfSome result (λ _. OpensOne books.old.down.book books.new.down.book) }
        ensures fits { IfSome result (λ given. entered_id given.entered + 1 < 2 ^ 64) }
    {
        let (up, down) = books.open_shares()?;
        self.enter_with(books, facts, place, up, down)
    }

    // Enters a connection that has these shares, or settles them.
    fn enter_with<U: Ledger, D: Ledger>(
        &self,
        books: &mut LoopBooks<U, D>,
        facts: &Arc<ConnectionFacts>,
        place: Place,
        up: CarriedShare<U>,
        down: CarriedShare<D>,
    ) -> Option<Given<U, D>>
        ensures given { IfSome result (λ given. (given.up ≡ up) × (given.down ≡ down)) }
        ensures kept { OnSome result (books.new ≡ books.old) }
        ensures up { IfNone result (TakesBack books.old.up.book books.new.up.book (Some up)) }
        ensures down { IfNone result
            (TakesBack books.old.down.book books.new.down.book (Some down)) }
        ensures fits { IfSome result (λ given. entered_id given.entered + 1 < 2 ^ 64) }
    {
        match self.enter(facts, place) {
            Some(entered) => Some(Given { entered, up, down }),
            None => {
                books.up.settle(Some(up));
                books.down.settle(Some(down));
                None
            }
        }
    }

    /// A connection between both sockets, for the task at this place, with a share of each book; or
    /// what refused it, and then the sockets are dropped, and nothing is left of it.
    pub fn connection<U: Ledger, D: Ledger>(
        &self,
        books: &mut LoopBooks<U, D>,
        begins: Begins,
        place: Place,
    ) -> Result<Connection<U, D, R>, Refused>
        requires target { IsSomeTrial (arc_value begins.facts).acceptance begins.target }
        ensures set_up { IfOk result (IsSetUp begins.facts place begins.connect_by) }
        ensures others { IfOk result (λ connection. IfDialing connection.phase (λ dialing.
            IsBegunWith begins.target place dialing)) }
        ensures counted { IfOk result (λ connection. connection.counted ≡ begins.counted) }
        ensures up_share { OnOk result (OpensOne books.old.up.book books.new.up.book) }
        ensures down_share { OnOk result (OpensOne books.old.down.book books.new.down.book) }
    {
        let Begins {
            client,
            target,
            facts,
            counted,
            connect_by,
        } = begins;
        let Trial { dialled, picked } = target;
        note_dial(&facts, dialled.began);
        let sides = self.sides(client, dialled, place)?;
        let ways = match self.both_prepared(facts.acceptance.idle_ms()) {
            Some(ways) => ways,
            None => return Err(Refused::Memory),
        };
        let Some(given) = self.give(books, &facts, place) else {
            return Err(Refused::Memory);
        };
        let Given { entered, up, down } = given;
        let mut dialing = dialing_of(sides, ways, up, down, connect_by);
        dialing.keep_others(&picked, place.second, self.clock.now());
        Ok(Connection::new(entered.keep(), facts, counted, dialing))
    }
}
