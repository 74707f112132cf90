//! What is known of a target when one is picked for a client.

ghost use Rattle.std.specs.Prelude.{◌≡◌, ◌≤◌, ◌<◌, ◌^◌, length, map};
ghost use Rattle.target_pick.specs.Seen.{asks_backups, may_take, share_of, takes_before_backups};
ghost use Rattle.target_pick.specs.Seen.{total};

/// The most targets of a rule, a name's addresses counted one by one.
pub const MAX_TARGETS: usize = 65_536;

/// What is known of a target when one is picked for a client.
#[derive(Clone, Copy, Debug, PartialEq, Eq, Default, Drop)]
pub struct Seen {
    /// How many turns it has, of all targets' together. With 0 it gets nobody.
    pub weight: u16,
    /// It gets clients only where no target without this mark may take them.
    pub is_backup: bool,
    /// Its checks and connects say that it is up (`Health`).
    pub is_up: bool,
    /// An operator has it take nobody new.
    pub is_drained: bool,
    /// This client was tried at it already.
    pub was_tried: bool,
    /// How many connections it has.
    pub connections: u32,
}

/// Whether the target may take the client.
pub(crate) fn may_take(target: &Seen) -> bool
    ensures { result ≡ may_take target.now }
{
    target.is_up && !target.is_drained && !target.was_tried && target.weight > 0
}

/// Whether the target may take the client, and is no backup.
fn takes_before_backups(target: &Seen) -> bool
    ensures { result ≡ takes_before_backups target.now }
{
    may_take(target) && !target.is_backup
}

/// Whether backups are asked: no other target may take the client.
pub(crate) fn asks_backups(targets: &[Seen]) -> bool
    ensures { result ≡ asks_backups targets.now }
{
    for target in targets {
        if takes_before_backups(target) {
            return false;
        }
    }
    true
}

/// The turns of a target among those that are asked, 0 where it isn't.
pub(crate) fn share_of(target: &Seen, backups: bool) -> u64
    ensures share { result ≡ share_of backups target.now }
    ensures fits { result < 2 ^ 16 }
{
    if may_take(target) && target.is_backup == backups {
        u64::from(target.weight)
    } else {
        0
    }
}

/// The turns of all targets.
pub(crate) fn total_share(targets: &[Seen], backups: bool) -> u64
    requires { length targets.now ≤ MAX_TARGETS }
    ensures { result ≡ total (map (share_of backups) targets.now) }
{
    let mut total = 0;
    for target in targets {
        total += share_of(target, backups);
    }
    total
}
