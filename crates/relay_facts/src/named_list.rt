//! The targets of a rule that names hosts, as a value.

ghost use Rattle.std.specs.Prelude.{◌<◌, length};

use relay_settings::{Named, Target};

/// The targets of a rule as its file says them, some of which name their hosts.
#[derive(Drop)]
pub struct NamedTargets {
    pub(crate) targets: Vec<Target>,
    pub names: Vec<Named>,
    /// After how many milliseconds such a name is looked up again; without a number it isn't.
    pub resolve_ms: Option<u32>,
    ghost some: { 0 < length targets.items },
}
