//! What the calls of a connection come to together.

ghost use Rattle.std.specs.Prelude.{◌≡◌, OnOk, None};
ghost use Rattle.net.specs.Conn.{IsNotConnected, untold_of};

use crate::runs::Runs;
use crate::stream::Conn;
use std::io;
use std::io::{Read, Write};

/// After a close that is Ok nothing is read, and nothing is written.
pub fn nothing_passes_after_a_close<R: Runs>(
    conn: &mut Conn<R>,
    buf: &mut [u8],
) -> (io::Result<()>, io::Result<usize>, io::Result<usize>)
    requires { untold_of conn.old ≡ None }
    ensures read { OnOk result.0 (IsNotConnected result.1) }
    ensures written { OnOk result.0 (IsNotConnected result.2) }
{
    let closed = conn.close();
    let read = conn.read(buf);
    let written = conn.write(b"too late");
    (closed, read, written)
}
