//! A piece of the reply to `list`, with the ids that it has room for.

ghost use Rattle.std.specs.Prelude.{◌≡◌, ◌<◌, ◌≤◌, ◌+◌, ◌++◌, ℕ, List, true, drop, length};
ghost use Rattle.relay_admin.specs.admin.Parts.{line_of_ids};
ghost use Rattle.relay_admin.specs.admin.Reply.{ids_text};
ghost use Rattle.relay_admin.specs.declared.admin.reply_bytes.TheConstants.{PIECE_BYTES};

use crate::admin::reply_bytes::PIECE_BYTES;
use arrayvec::ArrayString;
use itoa::Buffer;

/// A piece with the line's first word, unless that is made: then with nothing.
pub(crate) fn first_word(is_begun: bool) -> ArrayString<PIECE_BYTES>
    ensures first { (list : List ℕ) →
        line_of_ids is_begun list ≡ result.bytes ++ line_of_ids true list }
    ensures short { length result.bytes ≤ 3 }
{
    let mut piece = ArrayString::new();
    if !is_begun {
        piece.push_str("ids");
    }
    piece
}

/// Adds the ids from a place on to a piece, each behind a space, as long as that leaves room for a
/// byte more, and gives the place of the first that isn't added.
pub(crate) fn add_ids(piece: &mut ArrayString<PIECE_BYTES>, ids: &[u64], next: usize) -> usize
    requires room { length piece.old.bytes < PIECE_BYTES }
    ensures added { piece.new.bytes ++ ids_text (drop result ids.now)
        ≡ piece.old.bytes ++ ids_text (drop next ids.now) }
    ensures room { length piece.new.bytes < PIECE_BYTES }
    ensures behind { next ≤ result }
    ensures some { length piece.old.bytes + 42 ≤ PIECE_BYTES → next < length ids.now
        → length piece.old.bytes < length piece.new.bytes }
{
    let mut next = next;
    let mut digits = Buffer::new();
    while next < ids.len() {
        let text = digits.format(ids[next]);
        if piece.len() + text.len() + 2 > PIECE_BYTES {
            break;
        }
        piece.push_str(" ");
        piece.push_str(text);
        next += 1;
    }
    next
}
