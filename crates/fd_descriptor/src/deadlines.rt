//! Setting a deadline in what a cell's lock guards, with its alarm, which is decided before.

ghost use Rattle.std.specs.Prelude.{◌≡◌, ◌&&◌, not, List, ◌∷◌, true, false, Ok, Err, IfOk, IfErr};
ghost use Rattle.std.specs.Prelude.{OnOk};
ghost use Rattle.base_types.specs.declared.direction.Dir.{Dir};
ghost use Rattle.deadline_core.specs.PollHistory.{Call, DeadlineSet, closing, covers};
ghost use Rattle.fd_descriptor.specs.Deadlines.{alarm_at, WasAsked, WasRefused};
ghost use Rattle.fd_descriptor.specs.Parking.{IsAfter, is_parked, is_woken};
ghost use Rattle.fd_descriptor.specs.HandleCalls.{IsOwnFault, SetsDeadline};

use crate::resource::Alarms;
use crate::watched::{NotClosing, Parked, Watched};
use base_types::OutOfMemory;
use deadline_core::{Deadline, Dirs};
use rwloops::Fault;

/// What one call asks: a deadline for some directions, at a moment.
#[derive(Clone, Copy)]
pub struct Setting {
    pub dirs: Dirs,
    pub deadline: Deadline,
    pub now: u64,
}

impl Setting {
    pub fn new(dirs: Dirs, deadline: Deadline, now: u64) -> Setting
        ensures { result ≡ record { dirs = dirs; deadline = deadline; now = now } }
    {
        Setting {
            dirs,
            deadline,
            now,
        }
    }

    /// The alarm that goes with it, for this key. What has passed already, and no deadline at all,
    /// end an alarm that was asked for before.
    pub fn plan(self, key: u64) -> AlarmPlan
        ensures key { result.key ≡ key }
        ensures dirs { result.dirs ≡ self.dirs }
        ensures at { result.at ≡ alarm_at self.deadline self.now }
    {
        AlarmPlan {
            key,
            dirs: self.dirs,
            at: match self.deadline {
                Deadline::At(at) if self.now < at => Some(at),
                _ => None,
            },
        }
    }
}

/// What is asked of the alarms with a deadline: in place of what was asked for a key and its
/// directions, a moment that is still to come, or none.
#[derive(Clone, Copy)]
pub struct AlarmPlan {
    pub key: u64,
    pub dirs: Dirs,
    pub at: Option<u64>,
}

impl AlarmPlan {
    // Everything is decided before: this decides nothing, and takes what only a state that isn't
    // closing gives.
    fn carry_out<A: Alarms>(self, alarms: &A, _open: NotClosing) -> Result<(), OutOfMemory>
        ensures asked { IfOk result (λ _. WasAsked (A.armed alarms.now) (A.disarmed alarms.now)
            self.key self.dirs self.at) }
        ensures refused { IfErr result (λ _. WasRefused (A.refused alarms.now)
            self.key self.dirs self.at) }
    {
        match self.at {
            Some(at) => alarms.arm(self.key, self.dirs, at),
            None => {
                alarms.disarm(self.key, self.dirs);
                Ok(())
            }
        }
    }
}

/// Sets a deadline, and arms or disarms its alarm. What can be refused comes first: the state, then
/// the alarm. Three clauses are those of `Watched::set`, which is public and knows no alarms.
pub(crate) fn set_in<A: Alarms>(
    watched: &mut Watched,
    alarms: &A,
    key: u64,
    setting: Setting,
) -> Result<Parked, Fault>
    ensures closing { (calls : List Call) → IsAfter watched.old calls → closing calls ≡ true
        → result ≡ Err Fault.Closed }
    ensures open { (calls : List Call) → IsAfter watched.old calls → closing calls ≡ false
        → IfErr result (λ fault. fault ≡ Fault.OutOfMemory) }
    ensures set { (calls : List Call) → IsAfter watched.old calls
        → IfOk result (λ woken. IsAfter watched.new
        (DeadlineSet setting.dirs setting.deadline setting.now (Ok tt) ∷ calls)) }
    ensures woken { IfOk result (λ woken. (d : Dir)
        → is_woken woken d ≡ (covers setting.dirs d && is_parked watched.old d)) }
    ensures parked { IfOk result (λ woken. (d : Dir)
        → is_parked watched.new d ≡ (not (covers setting.dirs d) && is_parked watched.old d)) }
    ensures refused { IfErr result (λ fault. watched.new ≡ watched.old) }
    ensures faults { IfErr result (IsOwnFault SetsDeadline) }
    ensures was_open { (calls : List Call) → IsAfter watched.old calls
        → OnOk result (closing calls ≡ false) }
    ensures asked { IfOk result (λ woken. WasAsked (A.armed alarms.now) (A.disarmed alarms.now)
        key setting.dirs (alarm_at setting.deadline setting.now)) }
    ensures full { IfErr result (λ fault. fault ≡ Fault.OutOfMemory → WasRefused
        (A.refused alarms.now) key setting.dirs (alarm_at setting.deadline setting.now)) }
{
    let Some(open) = watched.not_closing() else {
        return Err(Fault::Closed);
    };
    if setting.plan(key).carry_out(alarms, open).is_err() {
        return Err(Fault::OutOfMemory);
    }
    match watched.set(setting) {
        Ok(woken) => Ok(woken),
        Err(_) => Err(Fault::Closed),
    }
}
