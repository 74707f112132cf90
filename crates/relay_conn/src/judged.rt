//! What follows of the first bytes of a client that is to say by a header who it is.

ghost use Rattle.std.specs.Prelude.{◌≡◌, true};
ghost use Rattle.relay_conn.specs.Awaiting.{IsJudged};

use crate::refused::Unheard;
use proxy_header::{Decoded, Header, decode};

/// A header that begins a client's bytes. Only the judgement of bytes makes one, so that no client can be told by
/// a header that it didn't send.
#[derive(Drop)]
pub struct SentHeader {
    pub(crate) header: Header,
    /// How many bytes it has.
    pub(crate) size: usize,
}

/// What follows of them.
#[derive(Drop)]
pub enum Judged {
    /// They may begin a header, and more of it may come.
    Waits,
    /// They begin with this header. What is behind it is the client's own.
    Says(SentHeader),
    /// They begin with none.
    Fails(Unheard),
}

/// What follows of these bytes, behind which nothing comes any more or something may.
pub(crate) fn judge(bytes: &[u8], ends: bool) -> Judged
    ensures { IsJudged bytes.now ends result }
{
    match decode(bytes) {
        Decoded::Whole(header, size) => Judged::Says(SentHeader { header, size }),
        Decoded::More if ends => Judged::Fails(Unheard::Missing),
        Decoded::More => Judged::Waits,
        Decoded::Fault(_) => Judged::Fails(Unheard::Bad),
    }
}
