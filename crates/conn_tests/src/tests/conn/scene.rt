//! What the roles of a scene do, and the bytes that they say.

use fd_descriptor::{Dirs, Fault};

/// An end of a connection.
#[derive(Clone, Copy)]
pub(super) enum End {
    Near,
    Far,
}

/// What a deadline is set to.
#[derive(Clone, Copy)]
pub(super) enum When {
    Never,
    /// The clock's first moment.
    LongAgo,
    /// So many milliseconds from now on.
    In(u64),
}

/// A call of a handle.
#[derive(Clone, Copy)]
pub(super) enum Call {
    Read,
    Write,
    Shut,
    Close,
    Set(Dirs, When),
}

/// What a role does next, and how its calls have to be answered.
#[derive(Clone, Copy)]
pub(super) enum Step {
    /// Reads so many bytes, which are the stream's from where the role stands.
    Read(u64),
    /// Writes so many bytes of the stream.
    Write(u64),
    /// Reads on until this is the answer.
    ReadUntil(Fault),
    /// Writes on until this is the answer.
    WriteUntil(Fault),
    /// Reads or writes on until the other end is gone.
    UntilCut(Call),
    /// One read or write, which may be late.
    Try(Call),
    /// A call that does what it is for.
    Do(Call),
    /// A call that is refused so, and does nothing.
    Refused(Call, Fault),
    /// Marks that the role has come here.
    Mark,
    /// Waits until all roles together have made so many marks.
    Await(u64),
    /// Waits so many milliseconds.
    Pause(u64),
    /// Begins anew, until all of it was done so many times.
    Repeat(u64),
}

/// So many roles that do the same at one end, each with a handle of its own.
#[derive(Clone, Copy)]
pub(super) struct Part(pub(super) u64, pub(super) &'static [Step]);

/// A scene: who does what at the two ends of a connection.
#[derive(Clone, Copy)]
pub(super) struct Scene {
    pub(super) name: &'static str,
    /// Whether no byte may be lost.
    pub(super) is_whole: bool,
    pub(super) near: &'static [Part],
    pub(super) far: &'static [Part],
}

/// The byte at this place of the stream, which is the same at both ends.
fn byte_at(place: u64) -> u8 {
    let mixed = place.wrapping_mul(31).wrapping_add(place >> 8);
    (mixed & 0xff) as u8
}

/// Fills a buffer with the stream from this place on.
pub(super) fn fill(buf: &mut [u8], place: u64) {
    let mut place = place;
    for byte in buf {
        *byte = byte_at(place);
        place = place.saturating_add(1);
    }
}

/// Whether these are the stream's bytes from this place on.
pub(super) fn are_at(bytes: &[u8], place: u64) -> bool {
    let mut place = place;
    for byte in bytes {
        if *byte != byte_at(place) {
            return false;
        }
        place = place.saturating_add(1);
    }
    true
}
