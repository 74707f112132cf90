//! Laws of picks and of health. The bodies are empty.

ghost use Rattle.target_pick.specs.Laws.{EachHasItsShare, FailuresBringDown, OnlySharesHaveTurns};
ghost use Rattle.target_pick.specs.Laws.{PassesBringUp, TriedOnce, TriesAllowNothing};

/// Over any turns in a row, as long as the set stands, each target has its weight's share, to
/// within one share; and a turn is had by one that has a share.
pub fn turns_are_shared_by_weight()
    ensures shares { EachHasItsShare }
    ensures owners { OnlySharesHaveTurns }
{}

/// No target is tried twice for a client: a tried one may not take it, and no try changes that of
/// another.
pub fn no_target_is_tried_twice()
    ensures once { TriedOnce }
    ensures others { TriesAllowNothing }
{}

/// A target's state follows from its outcomes: so many failures in a row bring it down, so many
/// passed checks bring it up.
pub fn outcomes_bring_a_target_down_and_up()
    ensures down { FailuresBringDown }
    ensures up { PassesBringUp }
{}
