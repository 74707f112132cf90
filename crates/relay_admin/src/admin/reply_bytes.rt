//! A reply that is to be written.

ghost use Rattle.std.specs.Prelude.{◌≡◌};

use arrayvec::ArrayString;
use std::alloc::Allocator;

/// The most bytes of a piece of a line.
pub const PIECE_BYTES: usize = 512;

/// The bytes of a reply: a fixed text, one that lies in the value itself, as a piece of a line may,
/// or one that was made and is freed with the value.
#[derive(Drop)]
pub enum Reply<A: Allocator> {
    Fixed(&'static [u8]),
    Held(ArrayString<64>),
    Piece(ArrayString<PIECE_BYTES>),
    Made(Vec<u8, A>),
}

impl<A: Allocator> Reply<A> {
    ghost use Rattle.relay_admin.specs.admin.ReplyBytes.{bytes_of};

    /// Its bytes.
    pub fn as_slice(&self) -> &[u8]
        ensures { result.now ≡ bytes_of self.now }
    {
        match self {
            Reply::Fixed(text) => text,
            Reply::Held(text) => text.as_bytes(),
            Reply::Piece(text) => text.as_bytes(),
            Reply::Made(text) => text.as_slice(),
        }
    }
}
