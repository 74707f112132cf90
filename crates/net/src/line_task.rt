//! A client of a server of lines: a task that hears a line, has it answered, sends the answer, and
//! only then hears the next.

ghost use Rattle.std.specs.Prelude.{◌≡◌, [], true, IfOk, IsSomeAnd};
ghost use Rattle.net.specs.Asked.{IsAskedSomewhere};
ghost use Rattle.net.specs.Conn.{has_task};
ghost use Rattle.net.specs.LineTask.{IsAnswered, IsBegun, IsHeard, IsLeft, IsLeaving, IsRound, IsSent, Rounds};
ghost use Rattle.net.specs.LineTask.{SaidBy, Steps, stage_after};
ghost use Rattle.net.specs.Lines.{begun};

use crate::asked::Asked;
use crate::gentle::GentleClose;
use crate::line_handler::{AfterLine, LineHandler};
use crate::lines::{Heard, Lines};
use crate::outgoing::Outgoing;
use crate::runs::Runs;
use crate::stream::Conn;
use crate::task::{Cause, Next, Task, Waits};
use std::alloc::Global;
use std::io;
use std::time::Duration;

/// How far a client has come.
#[derive(Clone, Copy, Debug, PartialEq, Eq, Drop)]
pub(crate) enum Stage {
    /// It hears lines.
    Listens,
    /// Its service is to end within so long, and then it leaves.
    Ends(Duration),
    /// It hears no more: it is closed gently.
    Leaves(GentleClose),
}

/// A client of a server of lines of at most `LIMIT` bytes, for `Net::serve`. A client that says
/// nothing for the idle time leaves, and so does one that has no whole line at a shutdown. It
/// leaves by a gentle close of at most the idle time, so that it has the last answer also where it
/// sent more. A client that takes nothing of its answer for the idle time is closed at once, without
/// the rest.
#[derive(Drop)]
pub struct LineTask<H, const LIMIT: usize> {
    handler: H,
    idle: Duration,
    alloc: Global,
    lines: Lines<LIMIT>,
    out: Outgoing,
    stage: Stage,
}

/// The rounds of one step, after which others have their turn.
const ROUNDS: u8 = 16;

// What follows an answer.
fn stage_after(after: AfterLine, idle: Duration) -> Stage
    ensures { result ≡ stage_after after idle }
{
    match after {
        AfterLine::Listen => Stage::Listens,
        AfterLine::Leave => Stage::Leaves(GentleClose::new(idle)),
        AfterLine::Shutdown(within) => Stage::Ends(within),
    }
}

// Has the line that was heard answered, or who sent too long a one told so.
fn said_by<R: Runs, H: LineHandler<R>, const LIMIT: usize>(
    handler: &mut H,
    rt: &R,
    lines: &Lines<LIMIT>,
    too_long: bool,
    out: &mut Vec<u8>,
) -> io::Result<AfterLine>
    requires empty { out.old.items ≡ [] }
    ensures { IfOk result (λ following.
        SaidBy H.answers too_long handler.old lines.now out.new.items following handler.new) }
{
    if too_long {
        handler.too_long(rt, out)?;
        return Ok(AfterLine::Leave);
    }
    handler.answer(rt, lines.line(), out)
}

impl<H, const LIMIT: usize> LineTask<H, LIMIT> {
    /// Of which each client's task is begun: its handler by `begin` of this one, and this idle time.
    pub fn new(handler: H, idle: Duration, alloc: Global) -> LineTask<H, LIMIT>
        ensures handler { result.handler ≡ handler }
        ensures idle { result.idle ≡ idle }
        ensures none { result.out ≡ [] }
        ensures listens { result.stage ≡ Stage.Listens }
        ensures unread { begun result.lines ≡ record { held = []; ahead = [] } }
    {
        LineTask {
            handler,
            idle,
            alloc,
            lines: Lines::new(),
            out: Outgoing::new(alloc),
            stage: Stage::Listens,
        }
    }

    // Hears no more lines.
    fn leave(&mut self)
        ensures { IsLeft self.old self.new }
    {
        self.stage = Stage::Leaves(GentleClose::new(self.idle));
    }

    // Sends what is left of an answer. A write that fails ends the connection.
    fn send<R: Runs>(&mut self, conn: &mut Conn<R>, cause: Cause) -> Option<Next>
        ensures { IsSent cause self.old result self.new }
    {
        match self.out.poll(conn) {
            Some(Ok(())) => None,
            Some(Err(_)) => Some(Next::Over),
            None => Some(Next::Write(cause.within(self.idle))),
        }
    }

    // Has the line that was heard answered. Where that fails the client is over.
    fn answer<R: Runs>(&mut self, rt: &R, too_long: bool) -> Option<Next>
    where
        H: LineHandler<R>,
        requires sent { self.old.out ≡ [] }
        ensures { IsAnswered H.answers too_long self.old result self.new }
    {
        let mut out = self.out.reuse(self.alloc);
        let said = said_by(&mut self.handler, rt, &self.lines, too_long, &mut out);
        let Ok(after) = said else {
            return Some(Next::Over);
        };
        self.out = Outgoing::of(out);
        self.stage = stage_after(after, self.idle);
        None
    }

    // Hears the next line, where no answer is left to send.
    fn hear<R: Runs>(&mut self, rt: &R, conn: &mut Conn<R>, cause: Cause) -> Option<Next>
    where
        H: LineHandler<R>,
        requires sent { self.old.out ≡ [] }
        ensures { IsHeard H.answers cause self.old result self.new }
    {
        match self.lines.poll(conn) {
            Some(Ok(Heard::Line)) => self.answer(rt, false),
            Some(Ok(Heard::TooLong)) => self.answer(rt, true),
            Some(Ok(Heard::End)) | Some(Err(_)) => Some(Next::Over),
            None => match cause.idle(self.idle) {
                Waits::NoLonger => {
                    self.leave();
                    None
                }
                waits => Some(Next::Read(waits)),
            },
        }
    }

    // Ends the client's service, and leaves.
    fn end<R: Runs>(&mut self, conn: &Conn<R>, within: Duration) -> Option<Asked>
        ensures left { IsLeft self.old self.new }
        ensures asked { has_task conn.now ≡ true → IsSomeAnd result (IsAskedSomewhere R within) }
    {
        self.leave();
        let closer = conn.closer()?;
        Some(closer.shutdown(within))
    }

    // Goes on with its close.
    fn go<R: Runs>(&mut self, conn: &mut Conn<R>, close: GentleClose) -> Next
        ensures { IsLeaving close self.old self.new }
    {
        let mut close = close;
        let next = close.step(conn);
        self.stage = Stage::Leaves(close);
        next
    }

    // Does one thing: sends what is left of an answer; else hears and answers a line, ends the
    // service, or leaves, as it has come to.
    fn round<R: Runs>(&mut self, rt: &R, conn: &mut Conn<R>, cause: Cause) -> Option<Next>
    where
        H: LineHandler<R>,
        ensures { IsRound H.answers cause self.old result self.new }
    {
        if !self.out.is_sent() {
            return self.send(conn, cause);
        }
        match self.stage {
            Stage::Listens => self.hear(rt, conn, cause),
            Stage::Ends(within) => {
                self.end(conn, within);
                None
            }
            Stage::Leaves(close) => Some(self.go(conn, close)),
        }
    }
}

impl<R: Runs, H: LineHandler<R>, const LIMIT: usize> Task<R> for LineTask<H, LIMIT> {
    ghost steps = { λ old cause next new. Steps H.answers cause old next new };

    ghost begins = { λ first made. IsBegun H.begins first made };

    fn begin(&self, alloc: Global) -> io::Result<LineTask<H, LIMIT>> {
        Ok(LineTask::new(self.handler.begin(alloc)?, self.idle, alloc))
    }

    fn step(&mut self, rt: &R, conn: &mut Conn<R>, cause: Cause) -> Next {
        'rounds: for _ in 0..ROUNDS {
            if let Some(next) = self.round(rt, conn, cause) {
                return next;
            }
        }
        Next::Again
    }
}
