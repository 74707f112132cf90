//! A listener that notes the system's number of an accept that failed.

ghost use Rattle.std.specs.Prelude.{◌≡◌, Ok};

use crate::last_codes::LastCodes;
use crate::resources::NoWrites;
use crate::sock::{Listen, Sock};
use crate::system_error::accepted_of;
use base_types::Dir;
use fd_descriptor::Resource;
use rwloops::{AcceptOutcome, DevKind, TryAccept};
use std::sync::Arc;

/// A listener, with the numbers that it notes as those of reads.
#[derive(Drop)]
pub struct NotedListen {
    listen: Listen,
    codes: Arc<LastCodes>,
}

impl NotedListen {
    /// A listener that notes its errors there.
    pub fn new(listen: Listen, codes: Arc<LastCodes>) -> NotedListen {
        NotedListen { listen, codes }
    }
}

impl TryAccept for NotedListen {
    type T = Sock;

    ghost tells = { λ _ _. ⊥ };

    fn try_accept(&mut self) -> AcceptOutcome<Sock> {
        let accepted = self.listen.accept();
        if let Err(error) = &accepted {
            self.codes.note(Dir::Read, error);
        }
        accepted_of(accepted)
    }
}

/// Such a listener as a resource, as `ListenRes` of one that notes nothing.
pub struct NotedListenRes;

impl Resource for NotedListenRes {
    type R = NotedListen;

    type W = NoWrites;

    type Control = ();

    fn destroy(read: NotedListen, write: NoWrites) -> Result<(), DevKind>
        ensures { result ≡ Ok tt }
    {
        drop(read);
        drop(write);
        Ok(())
    }

    fn control_of(_read: &NotedListen) {}
}
