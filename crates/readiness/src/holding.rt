//! Making a descriptor of a socket: for a table, where it stands under the token by which a poller
//! tells of it and whose timers find it by its id, or for a task of a loop, by the loop's token.

ghost use Rattle.std.specs.Prelude.{◌≡◌, false, IfOk, IfErr, OnErr};
ghost use Rattle.std.specs.Arc.{arc_value};
ghost use Rattle.conntable.specs.Refusals.{HasRoom};
ghost use Rattle.fd_descriptor.specs.FdHandle.{key_of, cell_of, saw_closed, IsFirst};
ghost use Rattle.rwloops.specs.declared.outcome.DevKind.{DevKind};
ghost use Rattle.readiness.specs.declared.holding.HoldFault.{HoldFault};
ghost use Rattle.readiness.specs.Holding.{HoldsNext, IsHeld, IsHoldFault, IsNotHeld, entry_cell};
ghost use Rattle.readiness.specs.Holding.{IsOpenFault};

use crate::poller::{HasCell, Poller};
use crate::resources::{ListenRes, NoWrites, ReadHalf, SockRes, WriteHalf};
use crate::sock::{Listen, Sock};
use base_types::OutOfMemory;
use conntable::{ConnTable, Refusal};
use fd_descriptor::{FdHandle, PollCell, Resource};
use rwloops::DevKind;
use std::alloc::{Allocator, Global};
use std::sync::Arc;

/// Why a socket isn't held. It is closed by then, and the table is as it was.
#[derive(Clone, Copy, Debug, PartialEq, Eq, Drop)]
pub enum HoldFault {
    /// The table takes no entry more.
    Table(Refusal),
    /// The poller can't be told of the socket: `DevKind::Other`.
    Device(DevKind),
    /// Memory for the descriptor was refused.
    OutOfMemory,
}

impl From<Refusal> for HoldFault {
    ghost from_gives = { λ refusal fault. fault ≡ HoldFault.Table refusal };

    fn from(refusal: Refusal) -> HoldFault {
        HoldFault::Table(refusal)
    }
}

impl From<DevKind> for HoldFault {
    ghost from_gives = { λ kind fault. fault ≡ HoldFault.Device kind };

    fn from(kind: DevKind) -> HoldFault {
        HoldFault::Device(kind)
    }
}

impl From<OutOfMemory> for HoldFault {
    ghost from_gives = { λ _ fault. fault ≡ HoldFault.OutOfMemory };

    fn from(_: OutOfMemory) -> HoldFault {
        HoldFault::OutOfMemory
    }
}

/// An entry of a table, for a descriptor on such a resource.
pub trait Holds<X: Resource>: HasCell + Drop {
    /// The entry with the descriptor's cell, which turns tell, and a handle, by which who takes the
    /// entry out closes the descriptor.
    fn holding(cell: Arc<PollCell>, handle: FdHandle<X>) -> Self
        ensures tells { Self.cell_in result ≡ arc_value cell };
}

/// An entry that has no more than its descriptor.
#[derive(Drop)]
pub struct HeldSocket<X: Resource> {
    cell: Arc<PollCell>,
    /// Closes the descriptor, once the entry is taken out and the table's lock given up.
    pub handle: FdHandle<X>,
}

impl<X: Resource> HasCell for HeldSocket<X> {
    ghost cell_in = { entry_cell };

    fn cell(&self) -> &PollCell {
        &*self.cell
    }
}

impl<X: Resource> Holds<X> for HeldSocket<X> {
    fn holding(cell: Arc<PollCell>, handle: FdHandle<X>) -> HeldSocket<X>
        ensures tells { entry_cell result ≡ arc_value cell }
    {
        HeldSocket { cell, handle }
    }
}

// Puts a descriptor into a table with room, and gives its id with another handle on it.
fn enter<X: Resource, T: Holds<X>, B: Allocator + Copy>(
    table: &mut ConnTable<T, B>,
    handle: FdHandle<X>,
) -> Result<(u64, FdHandle<X>), HoldFault>
    requires room { HasRoom table.old }
    ensures id { IfOk result (λ held. held.0 ≡ table.old.next_id) }
    ensures key { IfOk result (λ held. key_of held.1 ≡ key_of handle) }
    ensures open { saw_closed handle ≡ false → IfOk result (λ held. saw_closed held.1 ≡ false) }
    ensures added { IfOk result (λ held.
        HoldsNext T.cell_in table.old table.new (cell_of held.1)) }
    ensures kept { OnErr result (table.new ≡ table.old) }
    ensures why { IfErr result (IsHoldFault table.old) }
{
    let mut handle = handle;
    let cell = handle.cell()?;
    let Ok(other) = handle.share() else {
        return Err(HoldFault::OutOfMemory);
    };
    match table.insert(T::holding(cell, handle)) {
        Ok((id, _)) => Ok((id, other)),
        Err((_, refusal)) => Err(HoldFault::Table(refusal)),
    }
}

// What a descriptor on such a resource is made of.
trait Socket<X: Resource>: Drop {
    // Has the poller's turns tell of the socket under this token.
    fn register_at<A: Allocator>(&mut self, poller: &Poller<A>, token: u64) -> Result<(), DevKind>
        ensures kinds { IfErr result (λ kind. kind ≡ DevKind.Other) };

    // Its halves. Where memory is refused the socket is dropped, which closes it.
    fn halves(self, alloc: Global) -> Result<(X::R, X::W), OutOfMemory>;
}

impl Socket<SockRes> for Sock {
    fn register_at<A: Allocator>(&mut self, poller: &Poller<A>, token: u64) -> Result<(), DevKind> {
        poller.register(self, token)
    }

    fn halves(self, alloc: Global) -> Result<(ReadHalf, WriteHalf), OutOfMemory> {
        self.split(alloc)
    }
}

impl Socket<ListenRes> for Listen {
    fn register_at<A: Allocator>(&mut self, poller: &Poller<A>, token: u64) -> Result<(), DevKind> {
        poller.register_listener(self, token)
    }

    fn halves(self, _alloc: Global) -> Result<(Listen, NoWrites), OutOfMemory> {
        Ok((self, NoWrites))
    }
}

impl<A: Allocator> Poller<A> {
    // Makes a descriptor of a socket of either kind, whose token and key are this one.
    fn open_socket<X: Resource, S: Socket<X>>(
        &self,
        alloc: Global,
        socket: S,
        token: u64,
        key: u64,
    ) -> Result<FdHandle<X>, HoldFault>
        ensures first { IfOk result (IsFirst key) }
        ensures why { IfErr result IsOpenFault }
    {
        let mut socket = socket;
        socket.register_at(self, token)?;
        let (read, write) = socket.halves(alloc)?;
        Ok(FdHandle::open(alloc, read, write, key)?)
    }

    /// Makes a descriptor of a connection, for a loop's task: the poller tells of it under this
    /// token, and its timers have the token for their key. Where anything is refused the socket is
    /// dropped, which closes it; the fault is `Device` or `OutOfMemory`.
    pub fn open(
        &self,
        alloc: Global,
        sock: Sock,
        token: u64,
    ) -> Result<FdHandle<SockRes>, HoldFault>
        ensures first { IfOk result (IsFirst token) }
        ensures why { IfErr result IsOpenFault }
    {
        self.open_socket(alloc, sock, token, token)
    }

    /// Makes a descriptor of a listener, as `open` does of a connection.
    pub fn open_listener(
        &self,
        alloc: Global,
        listen: Listen,
        token: u64,
    ) -> Result<FdHandle<ListenRes>, HoldFault>
        ensures first { IfOk result (IsFirst token) }
        ensures why { IfErr result IsOpenFault }
    {
        self.open_socket(alloc, listen, token, token)
    }

    // Holds a socket of either kind, under its entry's token with the entry's id for its key.
    fn hold_socket<X: Resource, S: Socket<X>, T: Holds<X>, B: Allocator + Copy>(
        &self,
        alloc: Global,
        table: &mut ConnTable<T, B>,
        socket: S,
    ) -> Result<(u64, FdHandle<X>), HoldFault>
        ensures held { IfOk result (λ held.
            IsHeld T.cell_in table.old table.new held.0 held.1) }
        ensures refused { IfErr result (IsNotHeld table.old table.new) }
    {
        let (id, token) = table.vacant()?;
        enter(table, self.open_socket(alloc, socket, token, id)?)
    }

    /// Holds a connection: turns with this table tell its descriptor from now on, and the
    /// descriptor's key is its id, so that due timers find it. It gives the id and a handle; the
    /// entry has another. Where anything is refused the socket is dropped, which closes it.
    pub fn hold<T: Holds<SockRes>, B: Allocator + Copy>(
        &self,
        alloc: Global,
        table: &mut ConnTable<T, B>,
        sock: Sock,
    ) -> Result<(u64, FdHandle<SockRes>), HoldFault>
        ensures held { IfOk result (λ held.
            IsHeld T.cell_in table.old table.new held.0 held.1) }
        ensures refused { IfErr result (IsNotHeld table.old table.new) }
    {
        self.hold_socket(alloc, table, sock)
    }

    /// Holds a listener, as `hold` does a connection.
    pub fn hold_listener<T: Holds<ListenRes>, B: Allocator + Copy>(
        &self,
        alloc: Global,
        table: &mut ConnTable<T, B>,
        listen: Listen,
    ) -> Result<(u64, FdHandle<ListenRes>), HoldFault>
        ensures held { IfOk result (λ held.
            IsHeld T.cell_in table.old table.new held.0 held.1) }
        ensures refused { IfErr result (IsNotHeld table.old table.new) }
    {
        self.hold_socket(alloc, table, listen)
    }
}
