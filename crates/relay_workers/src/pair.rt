//! The two workers of a connection, on threads of their own.

ghost use Rattle.std.specs.Prelude.{◌≡◌, IfOk, IfErr, IfSome};
ghost use Rattle.relay_workers.specs.Worker.{IsLeftBy};

use crate::buffers::copy_by_need;
use crate::gate::CopyGate;
use relay_core::Ended;
use relay_ledger::{Book, CarriedShare, Full};
use std::snapshot::Snapshot;
use std::sync::ledger::Ledger;
use std::sync::{Arc, Mutex, Wait};
use std::thread::{Builder, Promise, PromisedHandle, Threads};

/// The stack of a worker's thread, in bytes: the least that the system gives, with its buffers on
/// it.
const STACK_BYTES: usize = 131_072;

/// What a worker leaves: how it ended, and its share. There is none only where the book opened
/// none, and then it ended by `BookFull(0)`.
#[derive(Drop)]
pub struct Done<L: Ledger> {
    pub ended: Ended,
    pub share: Option<CarriedShare<L>>,
}

/// What the join of a worker's thread tells: what it leaves is that of a copy through this gate, as
/// the gate was when it was handed over.
#[derive(Drop)]
pub struct CopyOf<G> {
    pub gate: Snapshot<G>,
}

impl<G: CopyGate, L: Ledger> Promise<Done<L>> for CopyOf<G> {
    ghost kept_by = { λ p done. (after : G)
        × IsLeftBy (G.tells p.gate.value) (G.tells after) done.ended done.share };
}

/// The thread of a worker.
pub type Worker<G, L> = PromisedHandle<Done<L>, CopyOf<G>>;

/// Who is told, on the worker's own thread, how it ended.
pub trait AtEnd {
    fn ended(&self, ended: Ended);
}

// A worker from its first read to its end. Its buffers lie on the stack of its thread.
fn work<G: CopyGate, L: Ledger, R: Wait>(rt: &R, gate: &mut G, book: &Mutex<Book<L>>) -> Done<L>
    ensures { IsLeftBy (G.tells gate.old) (G.tells gate.new) result.ended result.share }
{
    let opened = book.lock(rt).open_share();
    match opened {
        Ok(mut share) => {
            let ended = copy_by_need(rt, gate, book, &mut share);
            let share = Some(CarriedShare::new(share));
            Done { ended, share }
        }
        Err(Full) => Done {
            ended: Ended::BookFull(0),
            share: None,
        },
    }
}

fn start<G, L, E, R>(rt: R, gate: G, book: Arc<Mutex<Book<L>>>, at_end: E) -> Option<Worker<G, L>>
where
    G: CopyGate + Drop + Send + 'static,
    L: Ledger + Send + Sync + 'static,
    E: AtEnd + Drop + Send + 'static,
    R: Wait + Threads + Copy + Send + 'static,
    ensures { IfSome result (λ worker. worker.promise.gate.value ≡ gate) }
{
    let promise = CopyOf {
        gate: Snapshot::of(&gate),
    };
    let job = move || -> Done<L>
        ensures { (after : G) × IsLeftBy (G.tells gate) (G.tells after) result.ended result.share }
    {
        let mut gate = gate;
        let done = work(&rt, &mut gate, &book);
        at_end.ended(done.ended);
        done
    };
    let builder = Builder::new().stack_size(STACK_BYTES);
    builder.spawn_with(&rt, promise, job).ok()
}

/// Starts both workers. Where a thread is refused it gives the join of the one that was started, if
/// any; the caller ends that worker and joins it.
pub fn start_pair<GU, GD, U, D, E, R>(
    rt: R,
    up: GU,
    down: GD,
    up_book: Arc<Mutex<Book<U>>>,
    down_book: Arc<Mutex<Book<D>>>,
    up_end: E,
    down_end: E,
) -> Result<(Worker<GU, U>, Worker<GD, D>), Option<Worker<GU, U>>>
where
    GU: CopyGate + Drop + Send + 'static,
    GD: CopyGate + Drop + Send + 'static,
    U: Ledger + Send + Sync + 'static,
    D: Ledger + Send + Sync + 'static,
    E: AtEnd + Drop + Send + 'static,
    R: Wait + Threads + Copy + Send + 'static,
    ensures up { IfOk result (λ workers. workers.0.promise.gate.value ≡ up) }
    ensures down { IfOk result (λ workers. workers.1.promise.gate.value ≡ down) }
    ensures alone { IfErr result (λ started.
        IfSome started (λ worker. worker.promise.gate.value ≡ up)) }
{
    let Some(up) = start(rt, up, up_book, up_end) else {
        return Err(None);
    };
    match start(rt, down, down_book, down_end) {
        Some(down) => Ok((up, down)),
        None => Err(Some(up)),
    }
}
