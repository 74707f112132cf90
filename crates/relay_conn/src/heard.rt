//! What a loop heard of a connection's sides, in the words of its ways.

ghost use Rattle.std.specs.Prelude.{◌≡◌, ◌↔◌, true};
ghost use Rattle.relay_conn.specs.Heard.{side_of_pair, stop_told, GoesOn, GoesOnByEvent};
ghost use Rattle.relay_conn.specs.Heard.{KeepsWhatIsTold};
ghost use Rattle.relay_core.specs.PairTasks.{flow_state_of};
ghost use Rattle.relay_core.specs.declared.pair_tasks.FlowState.{FlowState};
ghost use Rattle.relay_core.specs.declared.ways.Way.{Way};

use readiness::{Side, Why};
use relay_core::{FlowState, PairTasks, Way, Ways, source_of};

// A side in the words of pairs: the client's has the first token of its place.
fn pair_side(side: Side) -> relay_core::Side
    ensures { result ≡ side_of_pair side }
{
    match side {
        Side::First => relay_core::Side::Client,
        Side::Second => relay_core::Side::Target,
    }
}

/// Whether the poller told with this that reads of a way's source stop somewhere ahead.
pub(crate) fn stop_ahead_of(way: Way, why: Why) -> bool
    ensures { result ≡ stop_told why way }
{
    match why {
        Why::Ready {
            side,
            stop_ahead,
            ..
        } => stop_ahead && pair_side(side) == source_of(way),
        _ => false,
    }
}

/// Which ways go on by what a loop heard. By its moment none does: what has given up ends. Its
/// descriptors have no timers.
pub(crate) fn ways_by(tasks: &PairTasks, why: Why) -> Ways
    ensures up { result.up ≡ true ↔ GoesOn tasks.now why Way.Up }
    ensures down { result.down ≡ true ↔ GoesOn tasks.now why Way.Down }
{
    match why {
        Why::Ready {
            side,
            read,
            write,
            ..
        } => tasks.woken_by(pair_side(side), read, write),
        Why::Due { .. } | Why::Time { .. } => Ways {
            up: false,
            down: false,
        },
        Why::Named => tasks.not_over(),
        Why::Again => tasks.ready(),
    }
}

// Whether an event has this way go on.
fn is_woken(tasks: &PairTasks, why: Why, way: Way) -> bool
    ensures { result ≡ true ↔ GoesOnByEvent tasks.now why way }
{
    let Why::Ready {
        side,
        read,
        write,
        ..
    } = why
    else {
        return false;
    };
    let ways = tasks.woken_by(pair_side(side), read, write);
    match way {
        Way::Up => ways.up,
        Way::Down => ways.down,
    }
}

// How a way stands that doesn't go on yet, after a loop has heard this.
fn state_after(tasks: &PairTasks, why: Why, way: Way) -> FlowState
    ensures told { GoesOnByEvent tasks.now why way → result ≡ FlowState.Ready }
    ensures kept { (GoesOnByEvent tasks.now why way → ⊥) → result ≡ flow_state_of tasks.now way }
{
    if is_woken(tasks, why, way) {
        return FlowState::Ready;
    }
    match way {
        Way::Up => tasks.up,
        Way::Down => tasks.down,
    }
}

/// How ways stand that don't go on yet, after a loop has heard this: those that would go on by an
/// event do so at once later, since the poller tells it once.
pub(crate) fn after_telling(tasks: &PairTasks, why: Why) -> PairTasks
    ensures { KeepsWhatIsTold tasks.now result why }
{
    PairTasks {
        up: state_after(tasks, why, Way::Up),
        down: state_after(tasks, why, Way::Down),
        failed: tasks.failed,
    }
}
