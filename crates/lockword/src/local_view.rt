//! What one seat knows.

ghost use Rattle.std.specs.Prelude.{List};
ghost use base.Fml.{ftrue};
ghost use base.Stored.{coded_list};
ghost use Rattle.lockword_core.specs.declared.stake.Op.{Op};
ghost use Rattle.lockword_core.specs.declared.stake.Event.{Event};
ghost use Rattle.lockword_core.specs.contracts.stake.Op.{the_row};
ghost use Rattle.lockword_core.specs.contracts.stake.Event as event;

use lockword_core::Stake;
use std::marker::Model;

/// What a seat has seen of its word. A mark is never taken back.
pub struct Marks {
    /// Whether a load has shown the closed flag.
    pub closed: bool,
    /// Whether a load has shown the drain flag.
    pub draining: bool,
    /// Whether a load has shown the done word at 1.
    pub done: bool,
}

/// What one seat knows of its word. No value of it is ever made: it stands in contracts only.
pub struct LocalView {
    /// What the seat's holder has.
    pub stake: Stake,
    /// Whether a `Last` has taken the halves.
    pub took: bool,
    /// What the seat has seen.
    pub saw: Marks,
    // The operations that the seat has made, in order; never taken back.
    pub ghost did: { List Op } by { coded_list the_row.coded },
    // What all seats had done when the seat made its last operation or look, in an order that keeps
    // each seat's own; it only grows, at its end.
    pub ghost heard: { List Event } by { coded_list event.the_row.coded },
}

impl Model for LocalView {
    ghost also_owns = { λ _. ftrue };
}
