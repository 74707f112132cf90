//! Whom a poll and the clock are told to: the cells of entries, one by one and in order. What is
//! told is a list here, so that no cell is left out and none is told another's.

ghost use Rattle.std.specs.Prelude.{◌≤◌, List, ◌∷◌, length};
ghost use Rattle.rwloops.specs.Waits.{Tells};
ghost use Rattle.readiness.specs.Batch.{batch};
ghost use Rattle.readiness.specs.Telling.{CellCall, Notified, Ticked};
ghost use Rattle.readiness.specs.Telling.{notices, told_in_turn, notices_of_entry, tick_of_entry};

use crate::batch::{Ev, Ready, batch_of};
use crate::poller::HasCell;
use base_types::Dir;
use conntable::ConnTable;
use fd_descriptor::PollCell;
use std::alloc::Allocator;
use std::sync::Wait;

/// How cells are told.
pub(crate) trait Telling {
    /// This list is told: each call so far, newest first.
    ghost tells: { Self → List CellCall → Type 0 };

    /// Shows the clock to the descriptor of this cell.
    fn tick(&mut self, cell: &PollCell, now: u64)
        ensures told { (calls : List CellCall) → tells self.old calls
            → tells self.new (Ticked cell.now now ∷ calls) };

    /// Says that the descriptor of this cell is ready in this direction.
    fn notify(&mut self, cell: &PollCell, dir: Dir)
        ensures told { (calls : List CellCall) → tells self.old calls
            → tells self.new (Notified cell.now dir ∷ calls) };
}

/// Tells the cells themselves. It keeps no list: what others do to a cell in between isn't known.
#[derive(Drop)]
pub(crate) struct CellsThemselves<'a, R: Wait> {
    pub(crate) rt: &'a R,
}

impl<'a, R: Wait> Telling for CellsThemselves<'a, R> {
    ghost tells = { λ _ _. ⊥ };

    fn tick(&mut self, cell: &PollCell, now: u64) {
        cell.tick(self.rt, now);
    }

    fn notify(&mut self, cell: &PollCell, dir: Dir) {
        cell.notify(self.rt, dir);
    }
}

// Tells a cell what is ready.
fn notify_cell<C: Telling>(cells: &mut C, cell: &PollCell, ready: Ready)
    ensures { Tells (C.tells cells.old) (C.tells cells.new) (notices cell.now ready) }
{
    if ready.read {
        cells.notify(cell, Dir::Read);
    }
    if ready.write {
        cells.notify(cell, Dir::Write);
    }
}

// Tells an entry what is ready of it, if there is one with its id.
fn notify_entry<C: Telling, T: HasCell, B: Allocator>(
    cells: &mut C,
    table: &ConnTable<T, B>,
    ready: Ready,
)
    ensures { Tells (C.tells cells.old) (C.tells cells.new)
        (notices_of_entry T.cell_in table.now.entries ready) }
{
    if let Some(entry) = table.by_id(ready.id) {
        notify_cell(cells, entry.cell(), ready);
    }
}

/// Tells the entries what the events make ready, each event in its turn.
pub(crate) fn notify_entries<C: Telling, T: HasCell, B: Allocator>(
    cells: &mut C,
    table: &ConnTable<T, B>,
    events: &[Ev],
)
    requires few { length events.now ≤ 256 }
    ensures { Tells (C.tells cells.old) (C.tells cells.new)
        (told_in_turn (notices_of_entry T.cell_in table.now.entries)
        (batch table.now.entries events.now)) }
{
    for ready in batch_of(events, table).as_slice() {
        notify_entry(cells, table, *ready);
    }
}

// Shows the clock to an entry, if there is one with this id.
fn tick_entry<C: Telling, T: HasCell, B: Allocator>(
    cells: &mut C,
    table: &ConnTable<T, B>,
    now: u64,
    due: (u64, Dir),
)
    ensures { Tells (C.tells cells.old) (C.tells cells.new)
        (tick_of_entry T.cell_in table.now.entries now due) }
{
    let (id, _) = due;
    if let Some(entry) = table.by_id(id) {
        cells.tick(entry.cell(), now);
    }
}

/// Shows the clock to the entries whose timers are due, each in its turn. A key whose entry is gone
/// is passed over.
pub(crate) fn tick_entries<C: Telling, T: HasCell, B: Allocator>(
    cells: &mut C,
    table: &ConnTable<T, B>,
    now: u64,
    due: &[(u64, Dir)],
)
    ensures { Tells (C.tells cells.old) (C.tells cells.new)
        (told_in_turn (tick_of_entry T.cell_in table.now.entries now) due.now) }
{
    for timer in due {
        tick_entry(cells, table, now, *timer);
    }
}
