//! The packed lock word.
//!
//! | Bits | Field | Greatest |
//! |---|---|---|
//! | 0 | closed; never cleared | 1 |
//! | 1 | read lock | 1 |
//! | 2 | write lock | 1 |
//! | 3 to 26 | references, of which each lock and the closer hold one | 16,777,215 |
//! | 27 to 44 | read waiters whom nobody is bound to signal | 262,143 |
//! | 45 to 62 | write waiters whom nobody is bound to signal | 262,143 |
//! | 63 | draining; never cleared | 1 |
//!
//! The width of the references is the one number of the layout: all else is computed from it. The
//! layout before this one is in `layout_one`.

ghost use Rattle.std.specs.Prelude.{◌≡◌, IsSome, IfSome};
ghost use Rattle.lockword_core.specs.Word.{bit, IsWord, packed};

/// Bits of the count of references.
const REFERENCES_WIDTH: u32 = 24;
/// Bits of each count of waiters: half of what the closed flag, the locks and the references leave
/// below the drain flag.
const WAITERS_WIDTH: u32 = (63 - 3 - REFERENCES_WIDTH) / 2;

/// The word of a closed descriptor without holders.
pub const CLOSED: u64 = 1;
/// What the read lock adds to a word, without its reference.
pub const READ_LOCK: u64 = CLOSED << 1;
/// What the write lock adds to a word, without its reference.
pub const WRITE_LOCK: u64 = READ_LOCK << 1;
/// What a reference adds to a word.
pub const REFERENCE: u64 = WRITE_LOCK << 1;
/// What a read waiter adds to a word.
pub const READ_WAITER: u64 = REFERENCE << REFERENCES_WIDTH;
/// What a write waiter adds to a word.
pub const WRITE_WAITER: u64 = READ_WAITER << WAITERS_WIDTH;
/// What the drain flag adds to a word.
pub const DRAIN: u64 = WRITE_WAITER << WAITERS_WIDTH;

/// The greatest count of references.
pub const MAX_REFERENCES: u32 = (1 << REFERENCES_WIDTH) - 1;
/// The greatest count of waiters in one direction.
pub const MAX_WAITERS: u32 = (1 << WAITERS_WIDTH) - 1;

/// The seven fields of a lock word. A count is at most [`MAX_REFERENCES`] or [`MAX_WAITERS`].
#[derive(Clone, Copy, Debug, PartialEq, Eq, Drop)]
pub struct Word {
    pub closed: bool,
    pub rlock: bool,
    pub wlock: bool,
    pub refs: u32,
    pub rwait: u32,
    pub wwait: u32,
    pub drain: bool,
}

fn bit_of(set: bool) -> u64
    ensures { result ≡ bit set }
{
    if set { 1 } else { 0 }
}

/// The word with these fields.
pub fn pack(word: Word) -> u64
    requires { IsWord word }
    ensures packed { result ≡ packed word }
{
    CLOSED * bit_of(word.closed)
        + READ_LOCK * bit_of(word.rlock)
        + WRITE_LOCK * bit_of(word.wlock)
        + REFERENCE * word.refs as u64
        + READ_WAITER * word.rwait as u64
        + WRITE_WAITER * word.wwait as u64
        + DRAIN * bit_of(word.drain)
}

/// The fields of a word. Each number of 64 bits is a word, so this is never `None`.
pub fn unpack(word: u64) -> Option<Word>
    ensures always { IsSome result }
    ensures some { IfSome result (λ fields. IsWord fields) }
    ensures same { IfSome result (λ fields. packed fields ≡ word) }
{
    Some(Word {
        closed: word % 2 == 1,
        rlock: word / READ_LOCK % 2 == 1,
        wlock: word / WRITE_LOCK % 2 == 1,
        refs: (word / REFERENCE % (READ_WAITER / REFERENCE)) as u32,
        rwait: (word / READ_WAITER % (WRITE_WAITER / READ_WAITER)) as u32,
        wwait: (word / WRITE_WAITER % (DRAIN / WRITE_WAITER)) as u32,
        drain: word >= DRAIN,
    })
}
