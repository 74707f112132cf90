//! A desk for tests.

ghost use Rattle.std.specs.Prelude.{◌≡◌, None};
ghost use Rattle.relay_admin.specs.declared.admin.command.Command.TheVariants as commands;
ghost use Rattle.relay_admin.specs.admin.Reply.{HasAskedId, answer_of};

use arrayvec::ArrayString;
use relay_admin::{
    Addr, DeskAnswer, LastFailure, Order, RulesFault, Shown, ShownSide, ShownTarget, TargetOrder,
    TargetState, Verdict,
};
use relay_workers::Desk;
use std::alloc::Global;

/// A text in a value of its own, and none of it where it is too long.
pub(super) fn held<const N: usize>(text: &str) -> ArrayString<N> {
    match ArrayString::from(text) {
        Ok(held) => held,
        Err(_) => ArrayString::new(),
    }
}

/// A path of as many bytes as may be.
pub(super) const LONG_PATH: &str =
    "/xxxxxxxxxxxxxxxxxxxxxxxxxxxxxxxxxxxxxxxxxxxxxxxxxxxxxxxxxxxxxxxxxxxxxxxxxxxxxxx\
    xxxxxxxxxxxxxxxxxxxx";

/// What is seen of this id: a client from a TCP port, or from 1,006 on a listener at a long path.
fn sight(id: u64) -> Shown
    ensures { result.id ≡ id }
{
    let (side, peer) = if id < 1_006 {
        (ShownSide::Client, Addr::Tcp([127, 0, 0, 1], 51234))
    } else {
        (ShownSide::Listener, Addr::Unix(held(LONG_PATH)))
    };
    Shown {
        id,
        rule: held("web"),
        side,
        peer: Some(peer),
        up: 12,
        down: 0,
        age_ms: 3500,
        quiet_ms: 1200,
    }
}

/// What is seen of the target with this number: 1 is up, others are down, and from 1,006 on they are
/// drained and have a long path.
fn target_sight(number: u64) -> ShownTarget
    ensures { result.number ≡ number }
{
    let mut seen = ShownTarget {
        number,
        rule: held("web"),
        place: number,
        at: Addr::Tcp([10, 0, 0, 11], 8443),
        state: TargetState::Down,
        since_ms: 3500,
        set: Order::Auto,
        connections: 2,
        connects: 17,
        failures: 1,
        is_checked: true,
        passed: 40,
        failed: 3,
        last_failure: LastFailure::Refused,
    };
    if number == 1 {
        seen.state = TargetState::Up;
        seen.is_checked = false;
        seen.last_failure = LastFailure::Never;
    }
    if number >= 1_006 {
        seen.at = Addr::Unix(held(LONG_PATH));
        seen.state = TargetState::Drained;
        seen.set = Order::Drain;
        seen.last_failure = LastFailure::Unreachable;
    }
    seen
}

/// A desk with these ids, which counts its questions. Its connections 1 and 3 can be steered, and 7
/// is shown; 2 has gone when it is looked at, and each of its reloads ends otherwise than the one
/// before.
#[derive(Drop)]
pub(super) struct FakeDesk {
    pub(super) ids: &'static [u64],
    pub(super) asked: u64,
    pub(super) is_drained: bool,
    pub(super) reloads: u64,
}

impl FakeDesk {
    fn answer(&mut self, id: u64) -> DeskAnswer
        ensures { HasAskedId (commands.Show id) (answer_of result) }
    {
        self.asked = self.asked.saturating_add(1);
        match id {
            1 | 3 => DeskAnswer::Fine,
            2 => DeskAnswer::Closed,
            4 => DeskAnswer::NoMemory,
            5 => DeskAnswer::Busy,
            6 => DeskAnswer::Draining,
            _ => DeskAnswer::Unknown,
        }
    }
}

impl Desk for FakeDesk {
    ghost exchanges = { λ _. None };

    fn ids(&mut self, alloc: Global) -> DeskAnswer {
        self.asked = self.asked.saturating_add(1);
        match Vec::from_slice(alloc, self.ids) {
            Ok(ids) => DeskAnswer::Ids(ids),
            Err(_) => DeskAnswer::NoMemory,
        }
    }

    fn totals(&mut self) -> DeskAnswer {
        self.asked = self.asked.saturating_add(1);
        DeskAnswer::Totals(12, 0)
    }

    fn close(&mut self, id: u64) -> DeskAnswer {
        self.answer(id)
    }

    fn drain(&mut self, id: u64) -> DeskAnswer {
        if id == 1 && self.is_drained {
            return self.answer(6);
        }
        self.is_drained = self.is_drained || id == 1;
        self.answer(id)
    }

    fn deadline(&mut self, _alloc: Global, id: u64, _after_ms: Option<u32>) -> DeskAnswer {
        if id == 1 && self.is_drained {
            return self.answer(6);
        }
        self.answer(id)
    }

    fn finish(&mut self, _after_ms: u64) -> DeskAnswer {
        self.answer(1)
    }

    fn show(&mut self, id: u64) -> DeskAnswer {
        if id == 7 {
            self.asked = self.asked.saturating_add(1);
            return DeskAnswer::Shown(sight(id));
        }
        self.answer(id)
    }

    fn ids_to_show(&mut self, alloc: Global) -> DeskAnswer {
        self.ids(alloc)
    }

    fn look(&mut self, id: u64) -> Option<Shown> {
        if id == 2 { None } else { Some(sight(id)) }
    }

    fn reload(&mut self, _alloc: Global) -> DeskAnswer {
        self.asked = self.asked.saturating_add(1);
        self.reloads = self.reloads.saturating_add(1);
        match self.reloads {
            1 => DeskAnswer::Verdict(Verdict::Rules(2)),
            2 => DeskAnswer::Verdict(Verdict::Bad(RulesFault::SameName(65_536))),
            3 => DeskAnswer::CannotRead,
            4 => DeskAnswer::CannotListen(held("web-2")),
            5 => DeskAnswer::NoMemory,
            _ => DeskAnswer::Closed,
        }
    }

    fn targets_to_show(&mut self, alloc: Global) -> DeskAnswer {
        self.ids(alloc)
    }

    fn look_at_target(&mut self, number: u64) -> Option<ShownTarget> {
        if number == 2 {
            None
        } else {
            Some(target_sight(number))
        }
    }

    fn set_target(&mut self, order: TargetOrder) -> DeskAnswer {
        self.asked = self.asked.saturating_add(1);
        if order.rule() != b"web".as_slice() {
            return DeskAnswer::UnknownRule;
        }
        if order.target() == b"tcp:10.0.0.11:8443".as_slice() || order.target() == b"1".as_slice() {
            return DeskAnswer::Fine;
        }
        DeskAnswer::UnknownTarget
    }
}
