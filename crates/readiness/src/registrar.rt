//! What registers sockets with a poller from any thread, also while a turn waits.

ghost use Rattle.std.specs.Prelude.{◌≡◌};

use crate::sock::{Listen, Sock};
use mio::Registry;
use std::io;

/// Another owner of a poller's sources. It keeps the poller's file open.
#[derive(Drop)]
pub struct Registrar {
    pub(crate) registry: Registry,
}

impl Registrar {
    /// Has turns of the poller tell of a connection under this token, as `Poller::register` does,
    /// with the system's own error.
    pub fn register(&self, sock: &mut Sock, token: u64) -> io::Result<()>
        ensures same { sock.new ≡ sock.old }
    {
        sock.register_at(&self.registry, token)
    }

    /// The same of a listener.
    pub fn register_listener(&self, listen: &mut Listen, token: u64) -> io::Result<()>
        ensures same { listen.new ≡ listen.old }
    {
        listen.register_at(&self.registry, token)
    }
}
