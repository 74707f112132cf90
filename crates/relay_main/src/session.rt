//! An admin session: it has the lines of its client answered one at a time, each only once the
//! reply before is written; a listing is a line of it at a time. Where an answer comes later, nothing
//! is read and nothing answered until then. No call of it waits.

ghost use Rattle.std.specs.Prelude.{◌≡◌, ◌≢◌, ◌≤◌, ◌↔◌, ◌⊎◌, IfSome, IsSome, false, true};
ghost use Rattle.relay_admin.specs.admin.Answers.{of_late};
ghost use Rattle.relay_admin.specs.admin.Later.{TakesNoAnswer};
ghost use Rattle.relay_admin.specs.admin.Reply.{reply_text};
ghost use Rattle.readiness.specs.Sockets.{read_from, written_to};
ghost use Rattle.relay_main.specs.Session as spec;
ghost use Rattle.relay_main.specs.declared.session.SessionStep.{SessionStep};

use crate::session_state::{State, Writing, begun, rest_of, shown_on, unwritten};
use fd_descriptor::HalfClose;
use readiness::{ReadHalf, Sock, WriteHalf};
use relay_admin::{AdminEnd, AdminSession, LateAnswer, NextLine, SessionDesk};
use rwloops::{Fault, Progress, read_now, write_now};
use std::alloc::Global;
use std::mem;

/// The most bytes of one read.
const CHUNK_BYTES: usize = 1_024;

/// What a step of a session came to.
#[derive(Clone, Copy, Debug, PartialEq, Eq, Drop)]
pub(crate) enum SessionStep {
    /// It can't go on before its socket may.
    Waits,
    /// It can go on at once.
    Again,
    /// It has ended.
    Over,
    /// It has ended, and the relay is to stop.
    Stops,
}

/// A session: both halves of its socket, its lines, and what it does.
#[derive(Drop)]
pub(crate) struct Session {
    input: ReadHalf,
    output: WriteHalf,
    lines: AdminSession,
    state: State,
    // It waits for an answer exactly while a line of it does.
    ghost waits: { spec.is_held state ≡ true ↔ IsSome lines.held },
    /// Its client has said all.
    is_at_end: bool,
    /// Bytes went either way since this was looked at.
    gets_on: bool,
}

// What follows once a reply is out.
fn after_reply(end: Option<AdminEnd>) -> SessionStep
    ensures { result ≡ spec.after_reply end }
{
    match end {
        None => SessionStep::Again,
        Some(AdminEnd::Stop) => SessionStep::Stops,
        Some(_) => SessionStep::Over,
    }
}

// What follows where a client hasn't taken a whole reply yet. A stop doesn't wait for that.
fn while_owed(end: Option<AdminEnd>) -> SessionStep
    ensures { result ≡ spec.while_owed end }
{
    match end {
        Some(AdminEnd::Stop) => SessionStep::Stops,
        _ => SessionStep::Waits,
    }
}

// What follows a write of a reply that failed. The replies of a client that has gone are dropped as
// if they were written, so that each line that it had sent is still carried out, `stop` too.
fn after_fault(fault: Fault, end: Option<AdminEnd>) -> SessionStep
    ensures { result ≡ spec.after_fault fault end }
{
    match fault {
        Fault::Device(_) => after_reply(end),
        _ => SessionStep::Over,
    }
}

// What a read came to.
enum Heard {
    Nothing,
    Bytes(usize),
    End,
    Failed,
}

// What a read came to. One that failed isn't the end: the line that it broke off would be carried
// out.
fn told_of_read(read: Option<Result<usize, Fault>>) -> Heard
    ensures { result ≡ spec.told_of_read read }
{
    match read {
        None => Heard::Nothing,
        Some(Ok(count)) => Heard::Bytes(count),
        Some(Err(Fault::EndOfFile)) => Heard::End,
        Some(Err(_)) => Heard::Failed,
    }
}

impl Session {
    /// A session over this socket, of which nothing was read; or none, where memory is refused and
    /// the socket is dropped.
    pub(crate) fn over(alloc: Global, sock: Sock) -> Option<Session>
        ensures own { IfSome result (λ made.
            (read_from made.input ≡ sock) × (written_to made.output ≡ sock)) }
    {
        let (input, output) = sock.split(alloc).ok()?;
        Some(Session {
            input,
            output,
            lines: AdminSession::new(),
            state: State::Reading,
            is_at_end: false,
            gets_on: false,
        })
    }

    // Writes what isn't written yet, gives what is left, and says what follows where the session ends
    // so behind it, if it does.
    fn write(&mut self, writing: Writing, end: Option<AdminEnd>) -> (Option<Writing>, SessionStep)
        ensures left { IfSome result.0 (λ left. (left.reply ≡ writing.reply)
            × (writing.written ≤ left.written) × (result.1 ≡ spec.while_owed end)) }
        ensures lines { self.new.lines ≡ self.old.lines }
        ensures state { self.new.state ≡ self.old.state }
    {
        let mut writing = writing;
        let rest = rest_of(writing.reply.as_slice(), writing.written);
        match write_now(&mut self.output, rest) {
            Progress::Whole => {
                self.gets_on = true;
                (None, after_reply(end))
            }
            Progress::Part(count) => {
                writing.written = writing.written.saturating_add(count);
                self.gets_on = self.gets_on || count > 0;
                (Some(writing), while_owed(end))
            }
            Progress::Failed(failed) => {
                // A client that is there after all sees the end, and doesn't wait for a reply that
                // was dropped.
                let _ = self.output.shut();
                (None, after_fault(failed.fault, end))
            }
        }
    }

    // Has the desk answer the next line, if one is whole, or the last; or reads.
    fn go_on<D: SessionDesk>(&mut self, alloc: Global, desk: &mut D) -> SessionStep
        requires { spec.is_held self.old.state ≡ false }
        ensures held { spec.is_held self.new.state ≡ true → result ≡ SessionStep.Waits }
        ensures no_stop { result ≢ SessionStep.Stops }
    {
        let next = match self.lines.next_reply(alloc, alloc, desk) {
            NextLine::Unended if self.is_at_end => self.lines.last_reply(alloc, alloc, desk),
            next => next,
        };
        match next {
            NextLine::Reply(reply, end) => {
                self.state = begun(reply, end);
                SessionStep::Again
            }
            NextLine::Held(_) => {
                self.state = State::Held;
                SessionStep::Waits
            }
            NextLine::Unended if self.is_at_end => SessionStep::Over,
            NextLine::Unended => self.hear(),
        }
    }

    // Reads once, where no line is whole.
    fn hear(&mut self) -> SessionStep
        ensures state { self.new.state ≡ self.old.state }
        ensures no_stop { result ≢ SessionStep.Stops }
    {
        let mut chunk = [0u8; CHUNK_BYTES];
        match told_of_read(read_now(&mut self.input, &mut chunk)) {
            Heard::Nothing => SessionStep::Waits,
            Heard::Bytes(count) => {
                self.lines.take(&chunk[..count.min(CHUNK_BYTES)]);
                self.gets_on = true;
                SessionStep::Again
            }
            Heard::End => {
                self.is_at_end = true;
                SessionStep::Again
            }
            Heard::Failed => SessionStep::Over,
        }
    }

    /// Writes what is being written, if anything is; the next line may be asked for by `Again`. While
    /// its line is answered later, nothing is written.
    pub(crate) fn pay(&mut self) -> SessionStep
        ensures free { result ≡ SessionStep.Again → spec.is_busy self.new.state ≡ false }
        ensures lines { self.new.lines ≡ self.old.lines }
        ensures held { spec.is_held self.old.state ≡ true
            → (result ≡ SessionStep.Waits) × (self.new ≡ self.old) }
    {
        match mem::replace(&mut self.state, State::Reading) {
            State::Reading => SessionStep::Again,
            State::Replying(writing, end) => {
                let (left, step) = self.write(writing, end);
                if let Some(writing) = left {
                    self.state = State::Replying(writing, end);
                }
                step
            }
            State::Listing(listing, line, end) => {
                let (left, step) = match line {
                    Some(writing) => self.write(writing, None),
                    None => (None, SessionStep::Again),
                };
                self.state = State::Listing(listing, left, end);
                step
            }
            State::Held => {
                self.state = State::Held;
                SessionStep::Waits
            }
        }
    }

    /// Has the desk answer the next line, or the next look of a listing, and what there is to write
    /// is written from then on; or reads, where no line is whole. While something is being written,
    /// or its line is answered later, it waits.
    pub(crate) fn ask<D: SessionDesk>(&mut self, alloc: Global, desk: &mut D) -> SessionStep
        ensures busy { spec.is_busy self.old.state ≡ true
            → (result ≡ SessionStep.Waits) × (self.new ≡ self.old) × (desk.new ≡ desk.old) }
    {
        match mem::replace(&mut self.state, State::Reading) {
            State::Reading => self.go_on(alloc, desk),
            State::Listing(listing, None, end) => {
                self.state = shown_on(alloc, desk, listing, end);
                SessionStep::Again
            }
            other => {
                self.state = other;
                SessionStep::Waits
            }
        }
    }

    /// The answer to the line that waits for it: its reply is written from then on. Nothing changes
    /// where no line waits for such an answer.
    pub(crate) fn answer(&mut self, alloc: Global, answer: LateAnswer)
        ensures taken { TakesNoAnswer answer self.old.lines
            ⊎ (spec.is_held self.new.state ≡ false) }
        ensures replies { TakesNoAnswer answer self.old.lines
            ⊎ (spec.to_write self.new.state ≡ reply_text (of_late answer)) }
        ensures kept { TakesNoAnswer answer self.old.lines → self.new.state ≡ self.old.state }
    {
        if let Some((reply, end)) = self.lines.answer(alloc, answer) {
            self.state = State::Replying(unwritten(reply), end);
        }
    }

    /// Whether its line is answered later.
    pub(crate) fn is_held(&self) -> bool
        ensures { result ≡ spec.is_held self.now.state }
    {
        match self.state {
            State::Held => true,
            _ => false,
        }
    }

    /// Whether bytes went either way since it was asked last.
    pub(crate) fn takes_progress(&mut self) -> bool
        ensures told { result ≡ self.old.gets_on }
        ensures taken { self.new.gets_on ≡ false }
    {
        mem::replace(&mut self.gets_on, false)
    }
}
