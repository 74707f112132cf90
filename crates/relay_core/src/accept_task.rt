//! Accepting as a value that goes on when it is told to, so that one thread has many listeners.

ghost use Rattle.std.specs.Prelude.{◌≡◌, ◌≤◌, ◌+◌};
ghost use Rattle.relay_core.specs.AcceptTrace.{pause_after};
ghost use Rattle.relay_core.specs.Accepting.{IsTaking, IsPausing, IsEnding, IsBorne, LastFault};
ghost use Rattle.relay_core.specs.Accepting.{IfPauses, IfAcceptEnded, IsStopOfAccepts};

use crate::accept_ended::{AcceptEnded, MAX_FAULTS_IN_A_ROW};
use crate::accept_pauses::next_pause_ms;
use crate::poll_accept::PollAcceptGate;
use rwloops::Fault;
use std::marker::Model;

/// The most accepts of one `resume` that give something, so that others have their turn. This
/// project's own rule. The clauses below have the figure itself, so that another value is refused.
pub const ACCEPTS_IN_A_ROW: u32 = 64;

/// How far an accept task came.
#[derive(Clone, Copy, Debug, PartialEq, Eq, Drop)]
pub enum AcceptStep {
    /// It can't go on before the listener may be accepted from.
    Waits,
    /// It can go on at once, and has accepted as many as it may in a row.
    Again,
    /// It is to be resumed once so many milliseconds are over.
    Pauses(u64),
    /// It ended so.
    Ended(AcceptEnded),
}

/// An accept task between two of its calls. Contracts see how many faults came in a row.
#[derive(Drop)]
pub struct Accepting {
    faults: u32,
    pause_ms: u64,
}

impl Model for Accepting {
    ghost use Rattle.std.specs.Prelude.{◌≡◌, ◌≤◌, ℕ};
    ghost use Rattle.relay_core.specs.AcceptTrace.{pause_after};

    ghost Value = { ℕ };

    ghost view = { λ a. a.faults };

    ghost invariant = { λ a. (a.faults ≤ 1024) × (a.pause_ms ≡ pause_after a.faults) };
}

impl Accepting {
    /// A task before its first accept.
    pub fn new() -> Accepting
        ensures { result ≡ 0 }
    {
        Accepting {
            faults: 0,
            pause_ms: 0,
        }
    }

    /// Accepts and delivers until the gate says "not yet", a fault comes, or others are to have
    /// their turn. After a fault that may pass it is to be resumed once its pause is over, at most
    /// `MAX_FAULTS_IN_A_ROW` times in a row. After an end it isn't resumed.
    pub fn resume<G: PollAcceptGate>(&mut self, gate: &mut G) -> AcceptStep
        ensures waits { result ≡ AcceptStep.Waits
            → IsTaking (G.tells gate.old) (G.tells gate.new) self.old self.new 0 64 }
        ensures blocked { result ≡ AcceptStep.Waits → G.blocked gate.new }
        ensures again { result ≡ AcceptStep.Again
            → IsTaking (G.tells gate.old) (G.tells gate.new) self.old self.new 64 64 }
        ensures pauses { IfPauses result (λ ms.
            IsPausing (G.tells gate.old) (G.tells gate.new) self.old self.new 64 ms) }
        ensures ended { IfAcceptEnded result (λ ended.
            IsEnding (G.tells gate.old) (G.tells gate.new) self.old 64 ended) }
    {
        for _taken in 0..ACCEPTS_IN_A_ROW {
            match gate.poll_accept() {
                None => return AcceptStep::Waits,
                Some(Ok(taken)) => {
                    self.faults = 0;
                    self.pause_ms = 0;
                    gate.deliver(taken);
                }
                Some(Err(fault)) => return self.after_fault(fault),
            }
        }
        AcceptStep::Again
    }

    /// What follows a fault that an accept answered: a pause, or the end.
    pub fn after_fault(&mut self, fault: Fault) -> AcceptStep
        ensures stops { IsStopOfAccepts result }
        ensures pauses { IfPauses result (λ ms. IsBorne fault self.old self.new ms) }
        ensures ended { IfAcceptEnded result (LastFault self.old fault) }
    {
        match fault {
            Fault::Closed => AcceptStep::Ended(AcceptEnded::Closed),
            Fault::Draining => AcceptStep::Ended(AcceptEnded::Draining),
            fault => {
                if self.faults == MAX_FAULTS_IN_A_ROW {
                    return AcceptStep::Ended(AcceptEnded::TooManyFaults(fault));
                }
                self.faults += 1;
                self.pause_ms = next_pause_ms(self.pause_ms);
                AcceptStep::Pauses(self.pause_ms)
            }
        }
    }
}
