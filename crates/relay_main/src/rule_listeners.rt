//! The listeners of rules, as the main thread knows them: values in a list, by which it finds their
//! tasks. One stays in the list after its close, until a reload; its token names no task any more.

ghost use Rattle.std.specs.Prelude.{◌≡◌};
ghost use Rattle.relay_main.specs.RuleListeners as spec;

use relay_admin::Addr;

/// The listener of a rule.
#[derive(Clone, Copy, Debug, PartialEq, Eq, Drop)]
pub(crate) struct Listening {
    /// Where it listens.
    pub(crate) listen: Addr,
    /// The id of its entry in the index.
    pub(crate) id: u64,
    /// The token of its task.
    pub(crate) token: u64,
}

/// The token of the task whose listener has this id.
pub(crate) fn token_with(all: &[Listening], id: u64) -> Option<u64>
    ensures { result ≡ spec.token_with id all.now }
{
    all.iter().find(|one| one.id == id).map(|one| one.token)
}
