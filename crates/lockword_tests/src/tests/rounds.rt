//! Rounds of threads at one word: at the end of each there was one last, no addition is lost, all are
//! refused or woken who have to be, and the word has its flags alone.

ghost use Rattle.lockword.specs.Places.{seat_place};
ghost use Rattle.lockword.specs.TransitionOutcomes.{IsSeatOf};

use super::workers::{Ending, Role, Tally, Way, end, wait_for, work};
use super::{CounterSeat, Counters, word_of};
use fdmutex::Refusal;
use lockword_core::pack;
use std::alloc::Global;
use std::process::Abort;
use std::sync::Wait;
use std::sync::atomic::{AtomicU64, Ordering};
use std::thread;
use std::thread::Threads;
use std::time::Clock;

/// Each role has a thread of its own, this one ends the round, and all come to their end.
fn all_work<R: Threads + Wait + Abort + Clock + Sync>(
    rt: &R,
    word: &Counters,
    seat: CounterSeat,
    roles: &[Role],
    ending: Ending,
    tally: &Tally,
)
    requires seat { IsSeatOf word.now (seat_place seat) }
{
    let ended = AtomicU64::new(0);
    let count = &ended;
    thread::scope(
        thread::scope_env(),
        rt,
        |scope|
            requires { IsSeatOf word.now (seat_place seat) }
        {
            let mut seat = seat;
            let mut started = 0u64;
            for role in roles {
                let (mine, theirs) = word.split(seat);
                seat = mine;
                if scope
                    .spawn(
                        move ||
                            requires { IsSeatOf word.now (seat_place theirs) }
                        {
                            work(rt, word, theirs, *role, tally);
                            count.fetch_add(1, Ordering::SeqCst);
                        },
                    )
                    .is_err()
                {
                    panic!(rt; "no thread");
                }
                started = started.saturating_add(1);
            }
            end(rt, word, seat, ending, tally);
            wait_for(rt, count, started);
        },
    );
}

/// Whether there was one last, and the halves have what they had at first and all additions.
fn is_conserved(tally: &Tally) -> bool {
    let lasts = tally.lasts.load(Ordering::SeqCst);
    let read = tally.read_half.load(Ordering::SeqCst);
    let write = tally.write_half.load(Ordering::SeqCst);
    lasts == 1
        && read
            == tally
                .read_added
                .load(Ordering::SeqCst)
                .saturating_add(1_000)
        && write
            == tally
                .write_added
                .load(Ordering::SeqCst)
                .saturating_add(2_000)
}

fn tally_of(drains: bool) -> Tally {
    Tally {
        want: if drains {
            Refusal::Draining
        } else {
            Refusal::Closed
        },
        refused: AtomicU64::new(0),
        holding: AtomicU64::new(0),
        released: AtomicU64::new(0),
        taken: AtomicU64::new(0),
        read_added: AtomicU64::new(0),
        write_added: AtomicU64::new(0),
        woken: AtomicU64::new(0),
        lasts: AtomicU64::new(0),
        read_half: AtomicU64::new(0),
        write_half: AtomicU64::new(0),
    }
}

/// Whether a round of these roles ends as it has to, with so many woken.
fn round<R: Threads + Wait + Abort + Clock + Sync>(
    rt: &R,
    alloc: Global,
    roles: &[Role],
    ending: Ending,
    woken: u64,
) -> bool {
    let (word, seat) = word_of(rt, alloc, 1_000, 2_000);
    let (mut spare, seat) = word.split(seat);
    let tally = tally_of(ending.drains);
    all_work(rt, &word, seat, roles, ending, &tally);
    let flags = if ending.drains {
        0x8000_0000_0000_0001
    } else {
        1
    };
    let has_flags_alone = pack(word.look(&mut spare)) == flags && word.is_done(&mut spare);
    let has_woken = tally.woken.load(Ordering::SeqCst) == woken;
    has_flags_alone && has_woken && is_conserved(&tally)
}

const CLOSES: Ending = Ending {
    queued: 0,
    taken: 0,
    pause_ms: 0,
    drains: false,
    refused: 0,
};

const STORM: [Role; 8] = [
    Role::Takes(Way::Reads),
    Role::Takes(Way::Writes),
    Role::Takes(Way::Refers),
    Role::Takes(Way::Reads),
    Role::Takes(Way::Writes),
    Role::Takes(Way::Refers),
    Role::Takes(Way::Reads),
    Role::Takes(Way::Writes),
];

// A drain refuses each of the eight; at a close one of them may be the last.
const STORM_ENDINGS: [(&str, bool, u64); 2] = [("a close", false, 0), ("a drain", true, 8)];

#[test]
fn a_close_or_a_drain_under_load_ends_a_hundred_rounds(rt: HostRuntime) {
    for (row, drains, refused) in STORM_ENDINGS {
        for taken in 0..100u64 {
            let ending = Ending {
                taken,
                drains,
                refused,
                ..CLOSES
            };
            let went = round(&rt, rt.alloc(), &STORM, ending, 0);
            assert!(rt; went, "{row} after {taken}");
        }
    }
}

const QUEUES: [Role; 8] = [
    Role::Holds(Way::Reads),
    Role::Holds(Way::Writes),
    Role::Queues(Way::Reads),
    Role::Queues(Way::Writes),
    Role::Queues(Way::Reads),
    Role::Queues(Way::Writes),
    Role::Queues(Way::Reads),
    Role::Queues(Way::Writes),
];

#[test]
fn each_queued_waiter_ends_as_closed_or_as_draining(rt: HostRuntime) {
    for drains in [false, true] {
        let ending = Ending {
            queued: 3,
            drains,
            refused: 6,
            ..CLOSES
        };
        let went = round(&rt, rt.alloc(), &QUEUES, ending, 0);
        assert!(rt; went, "with a drain: {drains}");
    }
}

/// In the first round all have the time to park. In the others no thread sleeps, so that in some a
/// waiter has asked and not yet parked when the mark comes.
#[test]
fn nobody_misses_an_end_that_comes_as_he_parks(rt: HostRuntime) {
    for number in 0..1_000u64 {
        let pause_ms = if number == 0 { 50 } else { 0 };
        let ending = Ending { pause_ms, ..CLOSES };
        let went = round(&rt, rt.alloc(), &[Role::Waits; 4], ending, 4);
        assert!(rt; went, "round {number}");
    }
}
