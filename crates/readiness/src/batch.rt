//! What a poll's events say of the entries of a table.

ghost use Rattle.std.specs.Prelude.{◌≡◌, ◌≤◌, length};
ghost use Rattle.readiness.specs.Batch.{batch, read_ready, write_ready, ev_of};

use arrayvec::ArrayVec;
use conntable::ConnTable;
use mio::event::Event;
use std::alloc::Allocator;

/// The most events of a poll, and of a batch.
pub const MAX_EVENTS: usize = 256;

/// What a poll said of a token.
#[derive(Clone, Copy, Debug, PartialEq, Eq, Default, Drop)]
pub struct Ev {
    /// The token under which the socket was registered.
    pub token: u64,
    /// There are bytes, or a connection to accept.
    pub readable: bool,
    /// There is room for bytes, or the connection is made.
    pub writable: bool,
    /// The peer sends no more.
    pub read_closed: bool,
    /// The peer takes no more.
    pub write_closed: bool,
    /// The socket has failed.
    pub error: bool,
    /// There is urgent data, at which reads stop.
    pub urgent: bool,
}

/// What may go on of an entry: a read or an accept, a write, both, or neither.
#[derive(Clone, Copy, Debug, PartialEq, Eq, Default, Drop)]
pub struct Ready {
    /// The id of the entry.
    pub id: u64,
    /// A read or an accept may go on.
    pub read: bool,
    /// A write may go on.
    pub write: bool,
}

impl Ev {
    /// What the system's event says.
    pub(crate) fn of(event: &Event) -> Ev
        ensures { result ≡ ev_of event.now }
    {
        Ev {
            token: event.token().0 as u64,
            readable: event.is_readable(),
            writable: event.is_writable(),
            read_closed: event.is_read_closed(),
            write_closed: event.is_write_closed(),
            error: event.is_error(),
            urgent: event.is_priority(),
        }
    }

    fn ready(self, id: u64) -> Ready
        ensures id { result.id ≡ id }
        ensures read { result.read ≡ read_ready self }
        ensures write { result.write ≡ write_ready self }
    {
        Ready {
            id,
            read: self.readable || self.read_closed || self.error,
            write: self.writable || self.write_closed || self.error,
        }
    }
}

/// For each event in order whose token names an entry, the entry's id and which directions may go
/// on: a read after readable, read-closed or an error, a write after writable, write-closed or an
/// error. A token whose entry is gone names nothing, whatever entry has its key by now.
pub fn batch_of<T, A: Allocator>(
    events: &[Ev],
    table: &ConnTable<T, A>,
) -> ArrayVec<Ready, MAX_EVENTS>
    requires few { length events.now ≤ 256 }
    ensures { result.items ≡ batch table.now.entries events.now }
{
    let mut ready = ArrayVec::new();
    for event in events {
        if let Some(id) = table.id_by_token(event.token) {
            ready.push(event.ready(id));
        }
    }
    ready
}
