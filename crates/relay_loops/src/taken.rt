//! What a loop has taken out of its inbox, of which nothing can be let go.

ghost use Rattle.std.specs.Prelude.{◌≡◌, ◌∷◌, [], IfSome, IfNone};
ghost use Rattle.relay_loops.specs.Taken.{accepted_of, NothingWaits};
ghost use Rattle.relay_shared.specs.Inbox.{IsTaken, requests_in, sockets_in};

use crate::arrival::Arrival;
use readiness::Sock;
use relay_conn::awaiting::ToldClient;
use relay_shared::inbox::{Accepted, Counted, Inbox};
use relay_shared::requests::Request;

/// What waited in an inbox. It can't be dropped: what waits is taken out where it lies, until nothing
/// is left.
pub(crate) struct Taken {
    inbox: Inbox,
}

/// A client's socket, which is counted. It can't be dropped, since its arrival can't.
pub(crate) struct Delivered {
    pub(crate) sock: Sock,
    pub(crate) arrival: Arrival,
    pub(crate) counted: Counted,
}

impl Delivered {
    /// One that has said who it is.
    pub(crate) fn told(client: ToldClient) -> Delivered
        ensures acceptance { result.arrival.acceptance ≡ client.acceptance }
        ensures counted { result.counted ≡ client.counted }
    {
        let ToldClient {
            sock,
            acceptance,
            counted,
        } = client;
        Delivered {
            sock,
            arrival: Arrival::new(acceptance),
            counted,
        }
    }

    fn of(accepted: Accepted) -> Delivered
        ensures { accepted_of result ≡ accepted }
    {
        let Accepted {
            sock,
            acceptance,
            counted,
        } = accepted;
        Delivered {
            sock,
            arrival: Arrival::new(acceptance),
            counted,
        }
    }
}

impl Taken {
    /// What waits in this inbox.
    pub(crate) fn of(inbox: Inbox) -> Taken
        ensures { result.inbox ≡ inbox }
    {
        Taken { inbox }
    }

    /// Takes out the first request, which is to be answered.
    pub(crate) fn next_request(&mut self) -> Option<Request>
        ensures first { IfSome result (λ request.
            IsTaken request (requests_in self.old.inbox) (requests_in self.new.inbox)) }
        ensures none { IfNone result (requests_in self.old.inbox ≡ []) }
        ensures kept { IfNone result (requests_in self.new.inbox ≡ []) }
        ensures sockets { sockets_in self.new.inbox ≡ sockets_in self.old.inbox }
    {
        self.inbox.next_request()
    }

    /// Takes out the first socket.
    pub(crate) fn next_socket(&mut self) -> Option<Delivered>
        ensures first { IfSome result (λ delivered. sockets_in self.old.inbox
            ≡ accepted_of delivered ∷ sockets_in self.new.inbox) }
        ensures none { IfNone result (sockets_in self.old.inbox ≡ []) }
        ensures kept { IfNone result (sockets_in self.new.inbox ≡ []) }
        ensures requests { requests_in self.new.inbox ≡ requests_in self.old.inbox }
    {
        match self.inbox.next_socket() {
            Some(accepted) => Some(Delivered::of(accepted)),
            None => None,
        }
    }

    /// The inbox, once nothing waits there.
    pub(crate) fn emptied(self) -> Inbox
        requires { NothingWaits self.inbox }
        ensures { result ≡ self.inbox }
    {
        let Taken { inbox } = self;
        inbox
    }
}
