//! How many descriptors a relay may come to have.

ghost use Rattle.std.specs.Prelude.{◌≡◌};
ghost use Rattle.relay_command.specs.Descriptors.{needed};

use relay_admin::MAX_RULES;
use relay_core::{Loops, MAX_SESSIONS, PairLimit};

/// As many clients may ask for metrics at once, as `MOST_CLIENTS` of `metrics_server` says.
const METRICS_CLIENTS: u64 = 64;

/// What a relay has once: three standard streams, its admin socket, its log, two of the main
/// thread's poller, four of the metrics, and the rules file while it is read; and for a moment a
/// client, a session or a scrape beyond the most, and a connect to a path that may be stale.
const OTHERS: u64 = 16;

/// The most descriptors that a relay of this size comes to have, whose rules have so many addresses beyond
/// the first of each, beside sockets that it was started with and doesn't use, and checks under way: two
/// for each connection, each loop, each rule and each such address, one for each admin session and each
/// client of the metrics, and sixteen others. An address takes two, since a reload that may be refused
/// binds all new ones before it closes a listener.
pub fn descriptors_needed(pairs: PairLimit, loops: Loops, further: u32) -> u64
    ensures { result ≡ needed pairs.count loops.count further }
{
    let of_size = 2 * pairs.count as u64 + 2 * loops.count as u64;
    let listeners = 2 * (MAX_RULES as u64 + u64::from(further));
    of_size + listeners + MAX_SESSIONS as u64 + METRICS_CLIENTS + OTHERS
}
