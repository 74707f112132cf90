//! What a way of an event loop knows of its source, so that it makes no read that would block. The
//! rule is nginx's, for its reads with `EPOLLRDHUP`.

ghost use Rattle.std.specs.Prelude.{◌≡◌, ◌↔◌, true};
ghost use Rattle.relay_core.specs.SourceState.{unknown_source, resumed, ReadsAll};

/// What is known of a source. Its poller tells edges, so that what comes after a read that took all
/// is told anew; and what came before is in what was told last. So a source that is empty stays so
/// until its poller tells of it.
#[derive(Clone, Copy, Debug, PartialEq, Eq, Drop)]
pub struct SourceState {
    /// Whether it is over TCP. Over a Unix socket a read stops behind bytes that carry a
    /// descriptor, of which no poller tells.
    pub is_tcp: bool,
    /// Whether the poller has told that reads stop somewhere ahead: at the peer's end, at a fault,
    /// or at urgent data. It is never unset.
    pub stop_ahead: bool,
    /// Whether the last read took all that was there.
    pub is_empty: bool,
}

impl SourceState {
    /// Nothing is known of it yet.
    pub fn new(is_tcp: bool) -> SourceState
        ensures { result ≡ unknown_source is_tcp }
    {
        SourceState {
            is_tcp,
            stop_ahead: false,
            is_empty: false,
        }
    }

    /// Its way is resumed, whatever for: there may be more. `stop_ahead` is what the poller told of
    /// this source, where it is what the way is resumed for.
    pub fn resume(&mut self, stop_ahead: bool)
        ensures { self.new ≡ resumed self.old stop_ahead }
    {
        self.stop_ahead = self.stop_ahead || stop_ahead;
        self.is_empty = false;
    }

    /// A read gave so many bytes, into room for so many.
    pub fn note_read(&mut self, room: usize, count: usize)
        ensures tcp { self.new.is_tcp ≡ self.old.is_tcp }
        ensures stop { self.new.stop_ahead ≡ self.old.stop_ahead }
        ensures empty { self.new.is_empty ≡ true ↔ ReadsAll self.old room count }
    {
        self.is_empty = self.is_tcp && !self.stop_ahead && count < room;
    }
}
