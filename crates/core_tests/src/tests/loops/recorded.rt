//! What calls say over halves and waits that tell their tries: the list of tries is the one that the
//! half kept, and a write took the first bytes.

ghost use Rattle.std.specs.Prelude.{◌≡◌, [], length, reverse, take, IsTrue};
ghost use Rattle.rwloops.specs.TryNow.{ReadNow, AcceptNow};
ghost use Rattle.rwloops.specs.ReadTrace.{ReadTrace};
ghost use Rattle.rwloops.specs.AcceptTrace.{AcceptTrace};
ghost use Rattle.core_tests.specs.Recorded.{read_tries_of, wait_calls_of, count_by};
ghost use Rattle.core_tests.specs.Recorded.{count_by_answer};

use super::super::kept::Kept;
use super::recording::{Asked, Comes, Giving, Granting, Listening, ReadDone, Taking};
use base_types::Dir;
use deadline_core::Refusal;
use rwloops::laws::written_bytes_are_the_first;
use rwloops::{
    AcceptOutcome, Fault, Outcome, Progress, WriteFault, accept, accept_now, read, read_now, write,
    write_now,
};
use std::alloc::Global;
use std::sync::Wait;

fn read_now_told(half: &mut Giving, buf: &mut [u8]) -> Option<Result<usize, Fault>>
    requires { half.old.kept.all.items ≡ [] }
    ensures { IsTrue half.new.kept.is_whole
        → ReadNow buf.new (read_tries_of half.new.kept.all.items) result }
{
    read_now(half, buf)
}

fn read_told(
    rt: &impl Wait,
    half: &mut Giving,
    buf: &mut [u8],
    waits: &mut Granting,
) -> Result<usize, Fault>
    requires tries { half.old.kept.all.items ≡ [] }
    requires calls { waits.old.kept.all.items ≡ [] }
    ensures { IsTrue half.new.kept.is_whole → IsTrue waits.new.kept.is_whole
        → ReadTrace buf.new (read_tries_of half.new.kept.all.items)
        (wait_calls_of waits.new.kept.all.items) result }
{
    read(rt, half, buf, waits)
}

fn write_now_told(half: &mut Taking, bytes: &[u8]) -> Progress
    requires { half.old.taken.items ≡ [] }
    ensures { half.new.taken.items ≡ take (count_by (length bytes.now) result) bytes.now }
{
    written_bytes_are_the_first();
    write_now(half, bytes)
}

fn write_told(
    rt: &impl Wait,
    half: &mut Taking,
    bytes: &[u8],
    waits: &mut Granting,
) -> Result<usize, WriteFault>
    requires { half.old.taken.items ≡ [] }
    ensures { half.new.taken.items ≡ take (count_by_answer result) bytes.now }
{
    written_bytes_are_the_first();
    write(rt, half, bytes, waits)
}

fn accept_now_told(half: &mut Listening) -> Option<Result<u8, Fault>>
    requires { half.old.kept.all.items ≡ [] }
    ensures { IsTrue half.new.kept.is_whole
        → AcceptNow (reverse half.new.kept.all.items) result }
{
    accept_now(half)
}

fn accept_told(rt: &impl Wait, half: &mut Listening, waits: &mut Granting) -> Result<u8, Fault>
    requires tries { half.old.kept.all.items ≡ [] }
    requires calls { waits.old.kept.all.items ≡ [] }
    ensures { IsTrue half.new.kept.is_whole → IsTrue waits.new.kept.is_whole
        → AcceptTrace (reverse half.new.kept.all.items)
        (wait_calls_of waits.new.kept.all.items) result }
{
    accept(rt, half, waits)
}

/// A call with its answer, and what the half kept of it, oldest first.
enum Call {
    /// With room for four bytes.
    ReadNow(Option<Result<usize, Fault>>, &'static [ReadDone]),
    Read(Result<usize, Fault>, &'static [ReadDone]),
    WriteNow(Progress, &'static [u8]),
    Write(Result<usize, WriteFault>, &'static [u8]),
    AcceptNow(Option<Result<u8, Fault>>, &'static [AcceptOutcome<u8>]),
    Accept(Result<u8, Fault>, &'static [AcceptOutcome<u8>]),
}

/// A row: its name, what the tries come to, how many calls on waits are granted, the call, and the
/// calls on waits.
struct Row(&'static str, &'static [Comes], u8, Call, &'static [Asked]);

const SIX: &[u8] = b"012345";

const INTERRUPTED: ReadDone = (4, None, Outcome::Interrupted);

const BLOCKED: ReadDone = (4, None, Outcome::WouldBlock);

const SEVEN: ReadDone = (4, Some(7), Outcome::Count(1));

const PREPARED: Asked = (false, Dir::Read, Ok(()));

const WAITED: Asked = (true, Dir::Read, Ok(()));

const EXPIRED: Asked = (true, Dir::Read, Err(Refusal::DeadlineExceeded));

const PREPARED_WRITE: Asked = (false, Dir::Write, Ok(()));

const WAITED_WRITE: Asked = (true, Dir::Write, Ok(()));

const ROWS: &[Row] = &[
    Row(
        "read now, a byte after a signal",
        &[Comes::ToSignal, Comes::To(7)],
        0,
        Call::ReadNow(Some(Ok(1)), &[INTERRUPTED, SEVEN]),
        &[],
    ),
    Row(
        "read now, blocks",
        &[Comes::ToSignal, Comes::ToBlock],
        0,
        Call::ReadNow(None, &[INTERRUPTED, BLOCKED]),
        &[],
    ),
    Row(
        "read, a byte after a wait",
        &[Comes::ToBlock, Comes::ToSignal, Comes::To(7)],
        2,
        Call::Read(Ok(1), &[BLOCKED, INTERRUPTED, SEVEN]),
        &[PREPARED, WAITED],
    ),
    Row(
        "read, expired at its first wait",
        &[Comes::ToBlock, Comes::To(7)],
        1,
        Call::Read(Err(Fault::DeadlineExceeded), &[BLOCKED]),
        &[PREPARED, EXPIRED],
    ),
    Row(
        "write now, a part",
        &[Comes::To(2), Comes::ToSignal, Comes::To(1), Comes::ToBlock],
        0,
        Call::WriteNow(Progress::Part(3), b"012"),
        &[],
    ),
    Row(
        "write, all after a wait",
        &[Comes::To(2), Comes::ToBlock, Comes::To(9)],
        2,
        Call::Write(Ok(6), SIX),
        &[PREPARED_WRITE, WAITED_WRITE],
    ),
    Row(
        "write, nothing taken after two",
        &[Comes::To(2), Comes::ToNothing],
        1,
        Call::Write(
            Err(WriteFault {
                fault: Fault::UnexpectedEof,
                count: 2,
            }),
            b"01",
        ),
        &[PREPARED_WRITE],
    ),
    Row(
        "accept now, after a lost peer",
        &[Comes::ToNothing, Comes::To(5)],
        0,
        Call::AcceptNow(
            Some(Ok(5)),
            &[AcceptOutcome::Aborted, AcceptOutcome::Took(5)],
        ),
        &[],
    ),
    Row(
        "accept, expired at its second wait",
        &[Comes::ToBlock, Comes::ToBlock, Comes::To(5)],
        2,
        Call::Accept(
            Err(Fault::DeadlineExceeded),
            &[AcceptOutcome::WouldBlock, AcceptOutcome::WouldBlock],
        ),
        &[PREPARED, WAITED, EXPIRED],
    ),
];

fn giving(alloc: Global, script: &'static [Comes]) -> Giving
    ensures { result.kept.all.items ≡ [] }
{
    Giving {
        script,
        kept: Kept::new(alloc),
    }
}

fn taking(alloc: Global, script: &'static [Comes]) -> Taking
    ensures { result.taken.items ≡ [] }
{
    Taking {
        script,
        taken: Vec::new(alloc),
    }
}

fn listening(alloc: Global, script: &'static [Comes]) -> Listening
    ensures { result.kept.all.items ≡ [] }
{
    Listening {
        script,
        kept: Kept::new(alloc),
    }
}

/// Whether a call goes so over waits that were asked nothing yet.
fn goes(
    rt: &impl Wait,
    alloc: Global,
    script: &'static [Comes],
    waits: &mut Granting,
    call: &Call,
) -> bool
    requires { waits.old.kept.all.items ≡ [] }
{
    match call {
        Call::ReadNow(answer, made) => {
            let mut half = giving(alloc, script);
            read_now_told(&mut half, &mut [0; 4]) == *answer && half.kept.all.as_slice() == *made
        }
        Call::Read(answer, made) => {
            let mut half = giving(alloc, script);
            read_told(rt, &mut half, &mut [0; 4], waits) == *answer
                && half.kept.all.as_slice() == *made
        }
        Call::WriteNow(answer, taken) => {
            let mut half = taking(alloc, script);
            write_now_told(&mut half, SIX) == *answer && half.taken.as_slice() == *taken
        }
        Call::Write(answer, taken) => {
            let mut half = taking(alloc, script);
            write_told(rt, &mut half, SIX, waits) == *answer && half.taken.as_slice() == *taken
        }
        Call::AcceptNow(answer, made) => {
            let mut half = listening(alloc, script);
            accept_now_told(&mut half) == *answer && half.kept.all.as_slice() == *made
        }
        Call::Accept(answer, made) => {
            let mut half = listening(alloc, script);
            accept_told(rt, &mut half, waits) == *answer && half.kept.all.as_slice() == *made
        }
    }
}

/// Whether a call goes as its row says.
fn holds(rt: &impl Wait, alloc: Global, row: &Row) -> bool {
    let Row(_, script, grants, call, asked) = row;
    let mut waits = Granting {
        grants: *grants,
        kept: Kept::new(alloc),
    };
    goes(rt, alloc, script, &mut waits, call) && waits.kept.all.as_slice() == *asked
}

#[test]
fn calls_are_those_that_halves_and_waits_kept(rt: HostRuntime) {
    for row in ROWS {
        assert!(rt; holds(&rt, rt.alloc(), row), "{}", row.0);
    }
}
