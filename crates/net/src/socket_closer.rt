//! What closes a listener or a connection, for who has none of its clones.

ghost use Rattle.std.specs.Prelude.{◌≡◌, IfOk};
ghost use Rattle.net.specs.Failures.{FailsForMemory};
ghost use Rattle.net.specs.Gone.{gone_id};
ghost use Rattle.net.specs.SocketCloser.{closes};

use crate::gone::Gone;
use crate::runs::Runs;
use crate::shared::Shared;
use std::io;
use std::sync::Arc;

/// A handle that closes a listener or a connection. Any thread may have one, and by a shared
/// reference all may use one. It keeps nothing open.
#[derive(Drop)]
pub struct SocketCloser<R: Runs> {
    shared: Arc<Shared<R>>,
    /// Its id in the net's table.
    id: u64,
}

impl<R: Runs> SocketCloser<R> {
    pub(crate) fn of(shared: &Arc<Shared<R>>, id: u64) -> io::Result<SocketCloser<R>>
        ensures own { IfOk result (λ closer. closes closer ≡ id) }
        ensures fails { FailsForMemory result }
    {
        let shared = Arc::try_clone(shared)?;
        Ok(SocketCloser { shared, id })
    }

    /// Another handle that closes the same.
    pub fn try_clone(&self) -> io::Result<SocketCloser<R>>
        ensures same { IfOk result (λ other. closes other ≡ closes self.now) }
        ensures fails { FailsForMemory result }
    {
        SocketCloser::of(&self.shared, self.id)
    }

    /// Closes the listener or the connection for all who share it: their calls that wait end, and
    /// each further one is `NotConnected`. A task of the connection goes on, and hears that.
    pub fn close(&self) -> Gone
        ensures own { gone_id result ≡ closes self.now }
    {
        self.shared.end(self.id)
    }
}
