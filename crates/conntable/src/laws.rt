//! What the contracts of a table mean for its callers. Each function does nothing: its contract
//! is a law of tables, which the check proves.

ghost use Rattle.conntable.specs.ConnTable.{IsConsistent, IsFreeKey};
ghost use Rattle.conntable.specs.Refusals.{HasKeyForRoom};
ghost use Rattle.conntable.specs.Laws.{TokensNameTheirEntries, IdsNameTheirEntries};
ghost use Rattle.conntable.specs.Laws.{RemovedNamesNothing, IdsRise, FirstIdIsLeast};
ghost use Rattle.conntable.specs.Laws.{TokensTellKeyAndId, GreatestIsNoToken};

use crate::table::ConnTable;
use std::alloc::Allocator;

/// Every table is consistent: its ids rise, its tokens are made of their keys and ids, no two
/// entries have one key, and none has the next key.
pub fn tables_are_consistent<T, A: Allocator>(table: &ConnTable<T, A>)
    ensures { IsConsistent table.now }
{
    // The invariant of a table behind a reference is known once a call has read the table.
    let _ = table.vacant();
}

/// Every table with room for one more entry has a key for it: the next key is below the limit, and
/// no entry has it.
pub fn room_has_a_key<T, A: Allocator>(table: &ConnTable<T, A>)
    ensures key { HasKeyForRoom table.now }
    ensures free { IsFreeKey table.now.next_key table.now.entries }
{
    let _given = table.vacant();
}

/// In a consistent table each entry's token names this entry.
pub fn tokens_name_their_entries<T>()
    ensures { TokensNameTheirEntries T }
{}

/// In a consistent table each entry's id names this entry.
pub fn ids_name_their_entries<T>()
    ensures { IdsNameTheirEntries T }
{}

/// An id that was given and whose entry isn't there names nothing in any later table, and no
/// token that was made of it names anything, whatever keys are used again.
pub fn removed_names_nothing<T>()
    ensures { RemovedNamesNothing T }
{}

/// The ids of a consistent table rise.
pub fn ids_rise<T>()
    ensures { IdsRise T }
{}

/// The first id of a consistent table is the least.
pub fn first_id_is_least<T>()
    ensures { FirstIdIsLeast T }
{}

/// A token tells its key and its id.
pub fn tokens_tell_key_and_id()
    ensures { TokensTellKeyAndId }
{}

/// No token that a table gives is the greatest `u64`, which is free for a poller's own use.
pub fn greatest_is_no_token()
    ensures { GreatestIsNoToken }
{}
