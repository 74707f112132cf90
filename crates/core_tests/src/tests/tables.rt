//! Rows from outside of ids and tokens.

use conntable::table::{ConnTable, Refusal};
use std::alloc::Global;

/// A step on a table of numbers, with the answer that it must get.
enum Step {
    /// An entry more: its id and its token, or the number back.
    Insert(u64, Result<(u64, u64), (u64, Refusal)>),
    Vacant(Result<(u64, u64), Refusal>),
    Remove(u64, Result<u64, Refusal>),
    /// The entry that a token names, and its id.
    Named(u64, Option<u64>, Option<u64>),
    ById(u64, Option<u64>),
    First(Option<u64>),
}

use Step::{ById, First, Insert, Named, Remove, Vacant};

/// A row: its name, the first id of its table, and the steps on it.
const ROWS: &[(&str, u64, &[Step])] = &[
    (
        "the last id is given once",
        4_503_599_627_370_494,
        &[
            Insert(1, Ok((4_503_599_627_370_494, 18_446_744_073_709_543_424))),
            Vacant(Err(Refusal::IdsSpent)),
            Insert(2, Err((2, Refusal::IdsSpent))),
        ],
    ),
    (
        "a token names nothing once its key is used again",
        1,
        &[
            First(None),
            Insert(7, Ok((1, 4096))),
            Named(4096, Some(7), Some(1)),
            Remove(1, Ok(7)),
            Named(4096, None, None),
            Vacant(Ok((2, 8192))),
            Insert(8, Ok((2, 8192))),
            Insert(9, Ok((3, 12_289))),
            Named(4096, None, None),
            Named(8192, Some(8), Some(2)),
            First(Some(2)),
            ById(1, None),
            ById(3, Some(9)),
            Remove(1, Err(Refusal::Unknown)),
        ],
    ),
];

/// Takes a step, and says whether its answer is the one that it must get.
fn answers(table: &mut ConnTable<u64>, step: &Step) -> bool {
    match step {
        Insert(number, want) => table.insert(*number) == *want,
        Vacant(want) => table.vacant() == *want,
        Remove(id, want) => table.remove(*id) == *want,
        Named(token, number, id) => {
            table.by_token(*token).copied() == *number && table.id_by_token(*token) == *id
        }
        ById(id, want) => table.by_id(*id).copied() == *want,
        First(want) => table.first_id() == *want,
    }
}

/// The first step whose answer is another, if one's is.
fn other_step(alloc: Global, first: u64, steps: &[Step]) -> Option<usize> {
    let mut table = ConnTable::starting_at(alloc, first.max(1));
    for (at, step) in steps.iter().enumerate() {
        if !answers(&mut table, step) {
            return Some(at);
        }
    }
    None
}

#[test]
fn a_table_answers_as_its_rows_say(rt: HostRuntime) {
    for (row, first, steps) in ROWS {
        let other = other_step(rt.alloc(), *first, steps);
        assert!(rt; other.is_none(), "{row}: step {other:?}");
    }
}
