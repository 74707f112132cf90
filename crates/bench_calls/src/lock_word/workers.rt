//! The threads of a job.

ghost use Rattle.std.specs.Prelude.{IfOk};
ghost use Rattle.lockword.specs.Places.{seat_place};
ghost use Rattle.lockword.specs.TransitionOutcomes.{IsSeatOf};
ghost use Rattle.bench_calls.specs.lock_word.Shown.{WasTheWord};

use crate::lock_word::job::{Job, Load};
use crate::lock_word::rounds::{CounterSeat, Counters, half_of, reads, references};
use base_types::OutOfMemory;
use lockword::LockWord;
use lockword_core::pack;
use std::alloc::Global;
use std::sync::Wait;
use std::sync::atomic::{AtomicU64, Ordering};
use std::thread;
use std::thread::Threads;

/// What the threads left behind.
#[derive(Drop)]
pub struct Left {
    /// The rounds that were made.
    pub rounds: u64,
    /// The word at the end.
    pub word: u64,
    /// The read half at the end.
    pub half: u64,
}

/// Makes the rounds of one thread, and counts them.
fn count_rounds<T: Wait>(rt: &T, word: &Counters, seat: CounterSeat, job: Job, made: &AtomicU64)
    requires { IsSeatOf word.now (seat_place seat) }
{
    let rounds = match job.load {
        Load::References => references(rt, word, seat, job.rounds),
        Load::Reads => reads(rt, word, seat, job.rounds),
    };
    made.fetch_add(rounds, Ordering::SeqCst);
}

/// Makes the rounds of all threads, each with a seat of its own, and counts them.
fn count_all<T: Threads + Wait + Sync>(
    rt: &T,
    word: &Counters,
    seat: CounterSeat,
    job: Job,
    made: &AtomicU64,
)
    requires { IsSeatOf word.now (seat_place seat) }
{
    thread::scope(
        thread::scope_env(),
        rt,
        |scope|
            requires { IsSeatOf word.now (seat_place seat) }
        {
            let mut seat = seat;
            for _ in 0..job.threads {
                let (mine, theirs) = word.split(seat);
                seat = mine;
                // A thread that can't be had makes no rounds, which their number shows.
                let _ = scope.spawn(
                    move ||
                        requires { IsSeatOf word.now (seat_place theirs) }
                    { count_rounds(rt, word, theirs, job, made) },
                );
            }
        },
    );
}

/// Runs a job to its end. How many rounds are made, and what is left in the half, hangs on the
/// threads that can be had.
pub fn run<T: Threads + Wait + Sync>(rt: &T, alloc: Global, job: Job) -> Result<Left, OutOfMemory>
    ensures word { IfOk result (λ left. WasTheWord left.word) }
{
    let lead: Vec<u8> = Vec::with_capacity(alloc, usize::from(job.lead))?;
    let (word, seat) = LockWord::new(alloc, 0u64, 0u64)?;
    let (mut spare, seat) = word.split(seat);
    let made = AtomicU64::new(0);
    count_all(rt, &word, seat, job, &made);
    let fields = pack(word.look(&mut spare));
    Ok(Left {
        rounds: made.load(Ordering::SeqCst),
        word: fields,
        half: half_of(rt, &word, spare),
    })
}
