//! A client: its connection of HTTP, over the two halves of its socket.

ghost use Rattle.std.specs.Prelude.{◌≡◌, true, Err, IfSome};
ghost use Rattle.std.specs.Result.{result_ok};
ghost use Rattle.fd_descriptor.specs.HandleCalls.{SetsDeadline};
ghost use Rattle.fd_descriptor.specs.TaskHalf.{IsHalfEntry, marks_of_half};
ghost use Rattle.http_server.specs.Exchange.{Calls};
ghost use Rattle.http_server.specs.History.{IsDone, new_history};
ghost use Rattle.rwloops.specs.declared.fault.Fault.{Fault};
ghost use Rattle.readiness.specs.declared.tasks.Turn.{Turn};
ghost use Rattle.metrics_server.specs.Client.{calls_of, history_of, told_of_read};

use fd_descriptor::{
    Deadline, Dirs, Fault, FdHandle, PollCell, Progress, Setting, TaskReader, TaskWriter,
};
use http_server::{Config, Connection, Service};
use readiness::{RemoteAlarms, SockRes, Turn};
use std::alloc::Global;
use std::hash::RandomState;
use std::io;
use std::io::{ErrorKind, Read};
use std::sync::{Arc, Wait};

/// The most reads and writes of a client before others have their turn.
const MOST_AT_ONCE: u32 = 16;

/// A client that is served.
#[derive(Drop)]
pub(crate) struct Client<R: Wait + Copy + Drop> {
    pub(crate) cell: Arc<PollCell>,
    /// Its place's first token.
    pub(crate) token: u64,
    reader: ReadSide<R>,
    writer: TaskWriter<SockRes, R>,
    connection: Connection,
}

// What a connection is told of a read: one that has to wait isn't the end.
fn told_of_read(read: Option<Result<usize, Fault>>) -> io::Result<usize>
    ensures { result_ok result ≡ told_of_read read }
{
    match read {
        None => Err(ErrorKind::WouldBlock.into()),
        Some(Ok(count)) => Ok(count),
        Some(Err(Fault::EndOfFile)) => Ok(0),
        Some(Err(_)) => Err(ErrorKind::Other.into()),
    }
}

/// What a connection reads from.
#[derive(Drop)]
struct ReadSide<R: Wait + Copy + Drop> {
    half: TaskReader<SockRes, R>,
}

impl<R: Wait + Copy + Drop> Read for ReadSide<R> {
    fn read(&mut self, buf: &mut [u8]) -> io::Result<usize> {
        told_of_read(self.half.poll_read(buf))
    }
}

/// What came of bytes that were to be read or written.
#[derive(Clone, Copy, Debug, PartialEq, Eq, Drop)]
pub(crate) enum Moved {
    Some,
    Waits,
    Failed,
}

impl<R: Wait + Copy + Drop> Client<R> {
    /// A client that has said nothing yet, at this place. It takes memory: where that is refused the
    /// connection is closed.
    pub(crate) fn new(
        rt: R,
        alloc: Global,
        keys: RandomState,
        handle: FdHandle<SockRes>,
        token: u64,
    ) -> Option<Client<R>>
        ensures token { IfSome result (λ client. client.token ≡ token) }
        ensures new { IfSome result (λ client. history_of client ≡ new_history) }
    {
        let mut handle = handle;
        let cell = handle.cell().ok()?;
        let writer = TaskWriter::new(rt, handle.share().ok()?);
        let half = TaskReader::new(rt, handle);
        Some(Client {
            cell,
            token,
            reader: ReadSide { half },
            writer,
            connection: Connection::new(alloc, keys, Config::default()),
        })
    }

    /// Gives it until this moment for all that it says and hears.
    pub(crate) fn lasts_until(
        &mut self,
        until: u64,
        now: u64,
        alarms: &RemoteAlarms<R>,
    ) -> Result<(), Fault>
        ensures entry { IsHalfEntry SetsDeadline self.old.reader.half self.new.reader.half result }
    {
        let setting = Setting::new(Dirs::Both, Deadline::At(until), now);
        self.reader.half.set(alarms, setting)
    }

    // Reads what there is, into the connection.
    fn receive(&mut self) -> Moved
        ensures calls { calls_of self.new ≡ calls_of self.old }
    {
        match self.connection.read_from(&mut self.reader) {
            Ok(_) => Moved::Some,
            Err(error) if error.kind() == ErrorKind::WouldBlock => Moved::Waits,
            Err(_) => Moved::Failed,
        }
    }

    // Writes a piece of what is to be said.
    fn send(&mut self) -> Moved
        ensures calls { calls_of self.new ≡ calls_of self.old }
    {
        let output = self.connection.output();
        let len = output.len();
        match self.writer.poll_write(output) {
            Progress::Whole => {
                self.connection.sent(len);
                Moved::Some
            }
            Progress::Part(count) => {
                self.connection.sent(count);
                Moved::Waits
            }
            Progress::Failed(_) => Moved::Failed,
        }
    }

    // Answers what was read, and then reads or writes once. It says where that doesn't lead on.
    fn step<S: Service>(&mut self, service: &mut S) -> Option<Turn>
        ensures calls { Calls S.answers service.old service.new
            (calls_of self.old) (calls_of self.new) }
        ensures done { IsDone (history_of self.old) → result ≡ Some Turn.Over }
    {
        self.connection.advance(service);
        if self.connection.is_done() {
            return Some(Turn::Over);
        }
        let moved = if self.connection.wants_write() {
            self.send()
        } else {
            self.receive()
        };
        match moved {
            Moved::Some => None,
            Moved::Waits => Some(Turn::Waits),
            Moved::Failed => Some(Turn::Over),
        }
    }

    /// Reads, answers and writes as far as nothing has to wait, but only so much at once that others
    /// have their turn.
    pub(crate) fn go_on<S: Service>(&mut self, service: &mut S) -> Turn
        ensures calls { Calls S.answers service.old service.new
            (calls_of self.old) (calls_of self.new) }
    {
        for _round in 0..MOST_AT_ONCE {
            if let Some(turn) = self.step(service) {
                return turn;
            }
        }
        Turn::Again
    }

    /// Ends the calls that are under way, and then closes, so that the close waits for nobody.
    pub(crate) fn close(self, rt: &R) -> Result<(), Fault>
        ensures closed { (marks_of_half self.reader.half).closed ≡ true → result ≡ Err Fault.Closed }
    {
        let Client { reader, writer, .. } = self;
        drop(writer);
        reader.half.into_handle().close(rt)
    }
}
