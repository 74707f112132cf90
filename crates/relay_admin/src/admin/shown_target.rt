//! What is shown of a target of a rule, and the line that says it.

ghost use Rattle.std.specs.Prelude.{◌≡◌, ◌++◌, IfOk, OnOk};
ghost use Rattle.relay_admin.specs.admin.ShownTarget.{checks_text, checks_word, failure_word};
ghost use Rattle.relay_admin.specs.admin.ShownTarget.{facts_of, load_text, state_text, state_word};
ghost use Rattle.relay_admin.specs.admin.ShownTarget.{shown_target_text, which_text};

use crate::admin::shown::{write_figure, write_word};
use crate::admin::target_order::Order;
use crate::rules::addr::Addr;
use crate::rules::rule::MAX_NAME_BYTES;
use arrayvec::ArrayString;
use base_types::OutOfMemory;
use std::alloc::Allocator;

/// Whether a target gets clients.
#[derive(Clone, Copy, Debug, PartialEq, Eq, Drop)]
pub enum TargetState {
    /// It does.
    Up,
    /// It gets nobody new, since an operator has set that.
    Drained,
    /// It is down, by its checks and its clients' connects, or since an operator has set that.
    Down,
}

/// Why the last connect or check failed that did.
#[derive(Clone, Copy, Debug, PartialEq, Eq, Drop)]
pub enum LastFailure {
    /// None has.
    Never,
    /// Nobody listened at its address.
    Refused,
    /// There is no way to it, or nothing at its path, or its queue is full.
    Unreachable,
    /// It wasn't connected in the time that it had.
    Timeout,
}

/// What is known of a target of a rule at one moment.
#[derive(Clone, Copy, Debug, PartialEq, Eq, Drop)]
pub struct ShownTarget {
    /// Its number among the targets of all rules, by which it is looked at.
    pub number: u64,
    /// The name of its rule.
    pub rule: ArrayString<MAX_NAME_BYTES>,
    /// Its place among the rule's targets, from 1 on.
    pub place: u64,
    pub at: Addr,
    pub state: TargetState,
    /// For how many milliseconds it has had this state.
    pub since_ms: u64,
    /// What an operator has set.
    pub set: Order,
    /// How many connections stand at it.
    pub connections: u64,
    /// How many clients' connects to it were made, and how many failed.
    pub connects: u64,
    pub failures: u64,
    /// Whether it is checked; how many checks passed, and how many failed.
    pub is_checked: bool,
    pub passed: u64,
    pub failed: u64,
    pub last_failure: LastFailure,
}

impl TargetState {
    fn word(self) -> &'static str
        ensures { result.now ≡ state_word self }
    {
        match self {
            TargetState::Up => "up",
            TargetState::Drained => "drained",
            TargetState::Down => "down",
        }
    }
}

impl LastFailure {
    fn word(self) -> &'static str
        ensures { result.now ≡ failure_word self }
    {
        match self {
            LastFailure::Never => "none",
            LastFailure::Refused => "refused",
            LastFailure::Unreachable => "unreachable",
            LastFailure::Timeout => "timeout",
        }
    }
}

// The word for whether a target is checked.
fn checks_word(is_checked: bool) -> &'static str
    ensures { result.now ≡ checks_word is_checked }
{
    if is_checked { "on" } else { "off" }
}

impl ShownTarget {
    /// The line that says it, with its line feed.
    pub(crate) fn line<A: Allocator + Copy>(&self, alloc: A) -> Result<Vec<u8, A>, OutOfMemory>
        ensures { IfOk result (λ line. line.items ≡ shown_target_text (facts_of self.now)) }
    {
        let mut line = Vec::new(alloc);
        self.write_which(&mut line)?;
        self.write_state(&mut line)?;
        self.write_load(&mut line)?;
        self.write_checks(&mut line)?;
        line.extend_from_slice(b"\n")?;
        Ok(line)
    }

    #[tactic(auto, unfolding(crate::specs::admin::ShownTarget::which_text))]
    fn write_which<A: Allocator>(&self, into: &mut Vec<u8, A>) -> Result<(), OutOfMemory>
        ensures { OnOk result
            (into.new.items ≡ into.old.items ++ which_text (facts_of self.now)) }
    {
        let at = self.at.text();
        write_figure(into, "target ", self.place)?;
        write_word(into, " rule ", self.rule.as_str())?;
        write_word(into, " at ", at.as_str())
    }

    #[tactic(auto, unfolding(crate::specs::admin::ShownTarget::state_text))]
    fn write_state<A: Allocator>(&self, into: &mut Vec<u8, A>) -> Result<(), OutOfMemory>
        ensures { OnOk result
            (into.new.items ≡ into.old.items ++ state_text (facts_of self.now)) }
    {
        write_word(into, " state ", self.state.word())?;
        write_figure(into, " since ", self.since_ms)?;
        write_word(into, " set ", self.set.word())
    }

    #[tactic(auto, unfolding(crate::specs::admin::ShownTarget::load_text))]
    fn write_load<A: Allocator>(&self, into: &mut Vec<u8, A>) -> Result<(), OutOfMemory>
        ensures { OnOk result
            (into.new.items ≡ into.old.items ++ load_text (facts_of self.now)) }
    {
        write_figure(into, " connections ", self.connections)?;
        write_figure(into, " connects ", self.connects)?;
        write_figure(into, " failures ", self.failures)
    }

    #[tactic(auto, unfolding(crate::specs::admin::ShownTarget::checks_text))]
    fn write_checks<A: Allocator>(&self, into: &mut Vec<u8, A>) -> Result<(), OutOfMemory>
        ensures { OnOk result
            (into.new.items ≡ into.old.items ++ checks_text (facts_of self.now)) }
    {
        write_word(into, " checks ", checks_word(self.is_checked))?;
        write_figure(into, " passed ", self.passed)?;
        write_figure(into, " failed ", self.failed)?;
        write_word(into, " last ", self.last_failure.word())
    }
}
