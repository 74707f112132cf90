//! Rows of calls with their answers, the tries that are made, and the order of tries and waits, of
//! which no clause over two values can speak.
use super::halves::{ScriptedHalf, ScriptedWaits};
use rwloops::{
    DevKind, Fault, MAX_RETRIES, Outcome, Progress, WriteFault, accept, accept_now, read, read_now,
    write, write_now,
};
use std::cell::Cell;
use std::sync::Wait;

/// A call, with its answer.
enum Call {
    /// With so much room, 8 at most.
    Read(usize, Result<usize, Fault>),
    Write(&'static [u8], Result<usize, WriteFault>),
    Accept(Result<usize, Fault>),
    /// Calls that don't wait.
    ReadNow(usize, Option<Result<usize, Fault>>),
    WriteNow(&'static [u8], Progress),
    AcceptNow(Option<Result<usize, Fault>>),
}

use Call::{Accept, AcceptNow, Read, ReadNow, Write, WriteNow};

/// A row: its name, the outcomes in turn, how many calls on waits are granted before the deadline
/// has passed, the call, how many tries are made, and what is done: 1 for a prepare, 2 for a try, 3
/// for a wait, as digits of one number.
struct Row(&'static str, &'static [(Outcome, u32)], u32, Call, u32, u64);

// More than there are digits for.
const MANY: u64 = u64::MAX;

const BLOCKS: (Outcome, u32) = (Outcome::WouldBlock, 1);

const INTERRUPTED: (Outcome, u32) = (Outcome::Interrupted, 1);

const AT_BOUND: (Outcome, u32) = (Outcome::Interrupted, MAX_RETRIES);

const PAST_BOUND: (Outcome, u32) = (Outcome::Interrupted, MAX_RETRIES + 1);

const ONE: (Outcome, u32) = (Outcome::Count(1), 1);

const FOUR: (Outcome, u32) = (Outcome::Count(4), 1);

const NINE: (Outcome, u32) = (Outcome::Count(9), 1);

const BROKEN: (Outcome, u32) = (Outcome::Broken(DevKind::Reset), 1);

const NOTHING: (Outcome, u32) = (Outcome::Count(0), 1);

const RESET: Fault = Fault::Device(DevKind::Reset);

const TEN: &[u8] = b"0123456789";

// Two tries that block, with an interruption behind the first.
const BLOCKS_TWICE: &[(Outcome, u32)] = &[BLOCKS, INTERRUPTED, BLOCKS, NINE];

const EXPIRED: Result<usize, Fault> = Err(Fault::DeadlineExceeded);

const RETRIES: Result<usize, Fault> = Err(Fault::TooManyRetries);

const ROWS: &[Row] = &[
    Row(
        "read, a wait between the try that blocked and the next",
        BLOCKS_TWICE,
        3,
        Read(8, Ok(8)),
        4,
        1_23_2_23_2,
    ),
    Row(
        "write, a wait between the try that blocked and the next",
        BLOCKS_TWICE,
        3,
        Write(b"123456789", Ok(9)),
        4,
        1_23_2_23_2,
    ),
    Row(
        "accept, a wait between the try that blocked and the next",
        BLOCKS_TWICE,
        3,
        Accept(Ok(9)),
        4,
        1_23_2_23_2,
    ),
    Row("read 0, expired", &[], 0, Read(0, Ok(0)), 0, 0),
    Row(
        "read 8, woken at the end",
        &[BLOCKS, NOTHING],
        2,
        Read(8, Err(Fault::EndOfFile)),
        2,
        1_23_2,
    ),
    Row(
        "read 8, 1,024 times interrupted",
        &[AT_BOUND, FOUR],
        1,
        Read(8, Ok(4)),
        1_025,
        MANY,
    ),
    Row(
        "read 8, 1,025 times interrupted",
        &[PAST_BOUND],
        1,
        Read(8, RETRIES),
        1_025,
        MANY,
    ),
    Row(
        "write 0, expired",
        &[],
        0,
        Write(
            b"",
            Err(WriteFault {
                fault: Fault::DeadlineExceeded,
                count: 0,
            }),
        ),
        0,
        1,
    ),
    Row(
        "write 10, expired after 5",
        &[FOUR, INTERRUPTED, BLOCKS, ONE, BLOCKS],
        2,
        Write(
            TEN,
            Err(WriteFault {
                fault: Fault::DeadlineExceeded,
                count: 5,
            }),
        ),
        5,
        1_2_2_23_2_23,
    ),
    Row(
        "write 10, nothing taken after 5",
        &[FOUR, ONE, NOTHING],
        1,
        Write(
            TEN,
            Err(WriteFault {
                fault: Fault::UnexpectedEof,
                count: 5,
            }),
        ),
        3,
        1_2_2_2,
    ),
    Row(
        "write 10, a reset in place of the second piece",
        &[FOUR, BROKEN],
        1,
        Write(
            TEN,
            Err(WriteFault {
                fault: RESET,
                count: 4,
            }),
        ),
        2,
        1_2_2,
    ),
    Row(
        "write 10, in three",
        &[FOUR, FOUR, NINE, BROKEN],
        1,
        Write(TEN, Ok(10)),
        3,
        1_2_2_2,
    ),
    Row(
        "accept, 600 aborted and 424 interrupted",
        &[
            (Outcome::Aborted, 600),
            (Outcome::Interrupted, 424),
            BLOCKS,
            NINE,
        ],
        2,
        Accept(Ok(9)),
        1_026,
        MANY,
    ),
    Row(
        "accept, 600 aborted and 425 interrupted",
        &[(Outcome::Aborted, 600), (Outcome::Interrupted, 425), NINE],
        1,
        Accept(RETRIES),
        1_025,
        MANY,
    ),
    Row("accept, expired", &[NINE], 0, Accept(EXPIRED), 0, 1),
    Row("read now, blocks", &[BLOCKS], 0, ReadNow(4, None), 1, 2),
    Row(
        "read now, aborted",
        &[(Outcome::Aborted, 1)],
        0,
        ReadNow(4, Some(Err(Fault::Device(DevKind::Aborted)))),
        1,
        2,
    ),
    Row(
        "accept now, three lost peers",
        &[(Outcome::Aborted, 3), NINE],
        0,
        AcceptNow(Some(Ok(9))),
        4,
        2_2_2_2,
    ),
    Row(
        "write now, nothing",
        &[],
        0,
        WriteNow(b"", Progress::Whole),
        0,
        0,
    ),
    Row(
        "write now, a part",
        &[FOUR, ONE, BLOCKS],
        0,
        WriteNow(TEN, Progress::Part(5)),
        3,
        2_2_2,
    ),
    Row(
        "write now, a row too long",
        &[ONE, PAST_BOUND, BLOCKS],
        0,
        WriteNow(
            TEN,
            Progress::Failed(WriteFault {
                fault: Fault::TooManyRetries,
                count: 1,
            }),
        ),
        1_026,
        MANY,
    ),
];

/// What a read into so much room answers, 8 at most; `None` where it gave other bytes than the half.
fn read_of(
    rt: &impl Wait,
    half: &mut ScriptedHalf<'_>,
    waits: &mut ScriptedWaits<'_>,
    room: usize,
) -> Option<Result<usize, Fault>> {
    let mut buf = [0; 8];
    let buf = &mut buf[..room.min(8)];
    let answer = read(rt, half, buf, waits);
    if answer.is_ok() && !buf.is_empty() && buf[0] != b'x' {
        return None;
    }
    Some(answer)
}

/// What a read that doesn't wait answers.
fn read_now_of(half: &mut ScriptedHalf<'_>, room: usize) -> Option<Result<usize, Fault>> {
    let mut buf = [0; 8];
    read_now(half, &mut buf[..room.min(8)])
}

/// Whether a call goes as its row says. The cell is for the log, and holds 0 before.
fn holds(rt: &impl Wait, row: &Row, log: &Cell<u64>) -> bool {
    let Row(_, _, grants, call, tries, steps) = row;
    let script = row.1;
    let mut half = ScriptedHalf {
        script,
        repeats: 0,
        tries: 0,
        log,
    };
    let mut waits = ScriptedWaits {
        grants: *grants,
        log,
    };
    let is_answer = match call {
        Read(room, want) => read_of(rt, &mut half, &mut waits, *room) == Some(*want),
        ReadNow(room, want) => read_now_of(&mut half, *room) == *want,
        Write(bytes, want) => write(rt, &mut half, bytes, &mut waits) == *want,
        WriteNow(bytes, want) => write_now(&mut half, bytes) == *want,
        Accept(want) => accept(rt, &mut half, &mut waits) == *want,
        AcceptNow(want) => accept_now(&mut half) == *want,
    };
    is_answer && half.tries == *tries && log.get() == *steps
}

#[test]
fn calls_answer_as_their_rows_say(rt: HostRuntime) {
    for row in ROWS {
        assert!(rt; holds(&rt, row, &Cell::new(0)), "{}", row.0);
    }
}
