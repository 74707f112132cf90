//! What a close by the table leaves, which only a close by the table makes.

ghost use Rattle.std.specs.Prelude.{◌≡◌, Ok, IsNone, IfSome, is_some};
ghost use Rattle.conntable.specs.ConnTable.{HasNoId, Removes};
ghost use Rattle.net.specs.Gone.{gone_id, was_there};

use crate::entry::{Entry, Shut};
use conntable::ConnTable;

/// That a table was asked for the entry of an id, and has it no more. An id never comes again.
#[derive(Drop)]
pub(crate) struct Absent {
    id: u64,
}

impl Absent {
    /// Takes the entry of an id out of a table, if it is there.
    pub(crate) fn take_out(table: &mut ConnTable<Entry>, id: u64) -> (Absent, Option<Entry>)
        ensures own { result.0.id ≡ id }
        ensures taken { IfSome result.1 (Removes table.old table.new id) }
        ensures none { IsNone result.1 → HasNoId id table.old.entries × (table.new ≡ table.old) }
    {
        let removed = table.remove(id);
        (Absent { id }, removed.ok())
    }
}

/// That a listener or a connection is out of its net: who ended it has this, and nothing else gives
/// one. Its calls that wait have ended, and each further one is `NotConnected`.
#[derive(Drop)]
pub struct Gone {
    absent: Absent,
    shut: Option<Shut>,
}

impl Gone {
    /// With the close of the entry that was taken out, if there was one.
    pub(crate) fn new(absent: Absent, shut: Option<Shut>) -> Gone
        ensures own { gone_id result ≡ absent.id }
        ensures shut { was_there result ≡ is_some shut }
    {
        Gone { absent, shut }
    }

    /// Whether it was there until then. Otherwise it had been closed before, by whomever.
    pub fn was_open(&self) -> bool
        ensures { result ≡ was_there self.now }
    {
        self.shut.is_some()
    }
}
