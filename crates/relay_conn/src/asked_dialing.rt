//! What sessions ask of a side while the target isn't connected yet.

ghost use Rattle.std.specs.Prelude.{◌≡◌, OnOk, OnErr};
ghost use Rattle.base_types.specs.declared.direction.Dir.{Dir};
ghost use Rattle.fd_descriptor.specs.TaskHalf.{descriptor_of_half};
ghost use Rattle.readiness.specs.declared.loop_token.Side.{Side};
ghost use Rattle.relay_conn.specs.Deadlines.{TellsCalls};
ghost use Rattle.relay_shared.specs.Drained.{WasDrained};

use crate::dialing::Dialing;
use crate::side::{drain_side, takes_deadline};
use base_types::Dir;
use deadline_core::Deadline;
use readiness::Side;
use rwloops::Fault;
use std::sync::Wait;
use std::sync::ledger::Ledger;
use std::time::Clock;

impl<U: Ledger, D: Ledger, R: Wait + Clock + Copy> Dialing<U, D, R> {
    /// Drains a side.
    pub(crate) fn drain(&mut self, rt: &R, side: Side) -> Result<(), Fault>
        ensures client { side ≡ Side.First
            → OnOk result (WasDrained (descriptor_of_half self.old.client.reader)) }
        ensures target { side ≡ Side.Second
            → OnOk result (WasDrained (descriptor_of_half self.old.target.reader)) }
        ensures kept { self.new ≡ record self.old {
          client = record self.old.client { reader = self.new.client.reader };
          target = record self.old.target { reader = self.new.target.reader };
        } }
    {
        match side {
            Side::First => drain_side(rt, &mut self.client.reader),
            Side::Second => drain_side(rt, &mut self.target.reader),
        }
    }

    /// Sets the deadline of a side, unless that takes none.
    pub(crate) fn set_deadline(&mut self, side: Side, deadline: Deadline) -> Result<(), Fault>
        ensures client { side ≡ Side.First → OnOk result (TellsCalls self.old.up.time.deadlines
            self.new.up.time.deadlines Dir.Read deadline) }
        ensures target { side ≡ Side.Second → OnOk result (TellsCalls
            self.old.down.time.deadlines self.new.down.time.deadlines Dir.Read deadline) }
        ensures client_written { side ≡ Side.First → OnOk result (TellsCalls
            self.old.down.time.deadlines self.new.down.time.deadlines Dir.Write deadline) }
        ensures target_written { side ≡ Side.Second → OnOk result (TellsCalls
            self.old.up.time.deadlines self.new.up.time.deadlines Dir.Write deadline) }
        ensures refused_up { OnErr result (self.new.up ≡ self.old.up) }
        ensures refused_down { OnErr result (self.new.down ≡ self.old.down) }
        ensures connect_by { self.new.connect_by ≡ self.old.connect_by }
        ensures others { self.new.others ≡ self.old.others }
    {
        match side {
            Side::First => takes_deadline(&mut self.client.reader)?,
            Side::Second => takes_deadline(&mut self.target.reader)?,
        }
        self.tell(side, deadline);
        Ok(())
    }

    // A session says when the calls of a side give up.
    fn tell(&mut self, side: Side, deadline: Deadline)
        ensures client { side ≡ Side.First → TellsCalls self.old.up.time.deadlines
            self.new.up.time.deadlines Dir.Read deadline }
        ensures target { side ≡ Side.Second → TellsCalls self.old.down.time.deadlines
            self.new.down.time.deadlines Dir.Read deadline }
        ensures client_written { side ≡ Side.First → TellsCalls self.old.down.time.deadlines
            self.new.down.time.deadlines Dir.Write deadline }
        ensures target_written { side ≡ Side.Second → TellsCalls self.old.up.time.deadlines
            self.new.up.time.deadlines Dir.Write deadline }
        ensures connect_by { self.new.connect_by ≡ self.old.connect_by }
        ensures others { self.new.others ≡ self.old.others }
    {
        match side {
            Side::First => {
                self.up.time.tell(Dir::Read, deadline);
                self.down.time.tell(Dir::Write, deadline);
            }
            Side::Second => {
                self.down.time.tell(Dir::Read, deadline);
                self.up.time.tell(Dir::Write, deadline);
            }
        }
    }
}
