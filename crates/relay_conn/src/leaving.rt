//! What is left of a connection that ends, once its calls under way have ended.

ghost use Rattle.std.specs.Prelude.{◌≡◌, None, unwrap_or, IsSomeAnd};
ghost use Rattle.fd_descriptor.specs.TaskHalf.{IsHandleOf};
ghost use Rattle.relay_conn.specs.Cause.{how_connection_ended};
ghost use Rattle.relay_conn.specs.declared.side.LeftSide.{LeftSide};
ghost use Rattle.relay_log.specs.declared.ended.Ended.{Ended as How};

use crate::cause::how_ended;
use crate::connection::Phase;
use crate::dialing::Dialing;
use crate::relaying::Relaying;
use crate::seeking::Seeking;
use crate::side::LeftSide;
use relay_ledger::CarriedShare;
use relay_log::ended::Ended as How;
use std::sync::Wait;
use std::sync::ledger::Ledger;
use std::time::Clock;

/// What is left of a connection that ends: its sides, each to be closed once, both shares, and how
/// it ended.
pub(crate) struct Leaving<U: Ledger, D: Ledger> {
    pub(crate) client: LeftSide,
    /// Between two targets there is none.
    pub(crate) target: Option<LeftSide>,
    pub(crate) up: CarriedShare<U>,
    pub(crate) down: CarriedShare<D>,
    pub(crate) how: How,
}

impl<U: Ledger, D: Ledger, R: Wait + Clock + Copy> Phase<U, D, R> {
    ghost use Rattle.std.specs.Prelude.{Some};
    ghost use Rattle.relay_conn.specs.Connection.{up_share, down_share};

    /// Ends all calls under way.
    pub(crate) fn leave(self) -> Leaving<U, D>
        ensures up { Some result.up ≡ up_share (Some self) }
        ensures down { Some result.down ≡ down_share (Some self) }
    {
        match self {
            Phase::Dialing(dialing) => leave_dialing(dialing),
            Phase::Seeking(seeking) => leave_seeking(seeking),
            Phase::Relaying(relaying) => leave_relaying(relaying),
        }
    }
}

fn leave_dialing<U: Ledger, D: Ledger, R: Wait + Clock + Copy>(
    dialing: Dialing<U, D, R>,
) -> Leaving<U, D>
    ensures client { IsHandleOf dialing.client.reader result.client.handle }
    ensures target { IsSomeAnd result.target (λ (side : LeftSide).
        IsHandleOf dialing.target.reader side.handle) }
    ensures up { result.up ≡ dialing.up.share }
    ensures down { result.down ≡ dialing.down.share }
    ensures how { result.how ≡ unwrap_or dialing.failure How.Closed }
{
    let Dialing {
        client,
        target,
        others: _,
        up,
        down,
        tasks: _,
        connect_by: _,
        failure,
    } = dialing;
    Leaving {
        client: LeftSide::of(client.reader, client.writer),
        target: Some(LeftSide::of(target.reader, target.writer)),
        up: up.share.back(),
        down: down.share.back(),
        how: failure.unwrap_or(How::Closed),
    }
}

fn leave_seeking<U: Ledger, D: Ledger, R: Wait + Clock + Copy>(
    seeking: Seeking<U, D, R>,
) -> Leaving<U, D>
    ensures client { IsHandleOf seeking.client.reader result.client.handle }
    ensures target { result.target ≡ None }
    ensures up { result.up ≡ seeking.up.share }
    ensures down { result.down ≡ seeking.down.share }
    ensures how { result.how ≡ unwrap_or seeking.failure How.Closed }
{
    let Seeking {
        client,
        up,
        down,
        tasks: _,
        connect_by: _,
        others: _,
        last: _,
        failure,
    } = seeking;
    Leaving {
        client: LeftSide::of(client.reader, client.writer),
        target: None,
        up: up.share.back(),
        down: down.share.back(),
        how: failure.unwrap_or(How::Closed),
    }
}

fn leave_relaying<U: Ledger, D: Ledger, R: Wait + Clock + Copy>(
    relaying: Relaying<U, D, R>,
) -> Leaving<U, D>
    ensures client { IsHandleOf relaying.up.gate.source result.client.handle }
    ensures target { IsSomeAnd result.target (λ (side : LeftSide).
        IsHandleOf relaying.down.gate.source side.handle) }
    ensures up { result.up ≡ relaying.up.share }
    ensures down { result.down ≡ relaying.down.share }
    ensures how { result.how ≡ how_connection_ended relaying.failure relaying.tasks }
{
    let Relaying {
        tasks,
        up,
        down,
        failure,
    } = relaying;
    Leaving {
        client: LeftSide::of(up.gate.source, down.gate.target),
        target: Some(LeftSide::of(down.gate.source, up.gate.target)),
        up: up.share.back(),
        down: down.share.back(),
        how: how_ended(failure, &tasks),
    }
}
