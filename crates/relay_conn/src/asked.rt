//! What sessions ask of a side of a connection, which its loop has it do.

ghost use Rattle.std.specs.Prelude.{◌≡◌, OnOk, OnErr};
ghost use Rattle.relay_conn.specs.Asked.{id_on, KeepsConnection};
ghost use Rattle.relay_conn.specs.Connection.{awaited_by, SideDrained, SideTold};

use crate::connection::{Connection, Phase};
use crate::side::{drain_side, takes_deadline};
use deadline_core::Deadline;
use readiness::Side;
use rwloops::Fault;
use std::sync::Wait;
use std::sync::ledger::Ledger;
use std::time::Clock;

impl<U: Ledger, D: Ledger, R: Wait + Clock + Copy> Connection<U, D, R> {
    /// The id of a side.
    pub fn id(&self, side: Side) -> u64
        ensures { result ≡ id_on self.now side }
    {
        match side {
            Side::First => self.client_id,
            Side::Second => self.target_id,
        }
    }

    /// Drains a side: the read and the write that are under way there go on, and none begins.
    pub fn drain(&mut self, rt: &R, side: Side) -> Result<(), Fault>
        ensures drained { OnOk result (SideDrained self.old side) }
        ensures awaits { awaited_by self.new ≡ awaited_by self.old }
        ensures kept { KeepsConnection self.old self.new }
    {
        match &mut self.phase {
            Some(Phase::Dialing(dialing)) => dialing.drain(rt, side),
            Some(Phase::Seeking(seeking)) => seeking.drain(rt, side),
            Some(Phase::Relaying(relaying)) => relaying.drain(rt, side),
            None => unreachable!(),
        }
    }

    /// Sets the deadline of a side's reads and writes, unless it is drained or closed. It is to be
    /// told of the moment next, since that may have come already.
    pub fn set_deadline(&mut self, side: Side, deadline: Deadline) -> Result<(), Fault>
        ensures told { OnOk result (SideTold self.old self.new side deadline) }
        ensures refused { OnErr result (awaited_by self.new ≡ awaited_by self.old) }
        ensures kept { KeepsConnection self.old self.new }
    {
        match &mut self.phase {
            Some(Phase::Dialing(dialing)) => dialing.set_deadline(side, deadline),
            Some(Phase::Seeking(seeking)) => seeking.set_deadline(side, deadline),
            Some(Phase::Relaying(relaying)) => relaying.set_deadline(side, deadline),
            None => unreachable!(),
        }
    }
}
