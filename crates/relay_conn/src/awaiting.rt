//! A client that is to say by a header of the PROXY protocol who it is, before anything is done for it.
//!
//! Its bytes are looked at and stay where they are until a whole header begins them, in however many
//! pieces it comes. Then exactly the header's bytes are read, so that the next one that is read of the
//! client is the first one behind its header. No share counts them.

ghost use Rattle.std.specs.Prelude.{◌≡◌, ◌↔◌, true, Some, IfOk, IfErr};
ghost use Rattle.relay_conn.specs.Awaiting.{AwaitsInTime, awaited_failure, awaited_token};
ghost use Rattle.relay_conn.specs.Awaiting.{awaited_until, client_awaited, counted_awaited, sent_header};
ghost use Rattle.relay_conn.specs.HeaderMoment.{header_moment};
ghost use Rattle.relay_conn.specs.Heard.{IsTime};
ghost use Rattle.relay_facts.specs.Told.{IsToldBy};
ghost use Rattle.relay_conn.specs.declared.refused.Refused.{Refused};
ghost use Rattle.relay_conn.specs.declared.refused.Unheard.TheVariants.{Memory};

use crate::awaited::Awaiting;
use crate::heard::stop_ahead_of;
use crate::judged::{Judged, SentHeader, judge};
use crate::refused::{Refused, Unheard};
use proxy_header::MAX_BYTES;
use readiness::{Poller, Sock, Why};
use relay_core::{Way, has_come, idle_deadline};
use relay_facts::connection_facts::Acceptance;
use relay_shared::inbox::Counted;
use rwloops::{DevKind, Outcome};

/// How long a client has for its header, from its accept.
pub const HEADER_MS: u32 = 5_000;

/// How often a call is tried again that a signal interrupts.
const TRIES: u32 = 64;

/// What a turn of such a client came to.
#[derive(Clone, Copy, Debug, PartialEq, Eq, Drop)]
pub enum AwaitStep {
    /// More of its header is to come.
    Waits,
    /// Its header is whole, and it is to be served.
    Whole,
    /// It ends.
    Fails,
}

/// A client that has said who it is.
#[derive(Drop)]
pub struct ToldClient {
    pub sock: Sock,
    pub acceptance: Acceptance,
    pub counted: Counted,
}

// The first bytes that wait, which stay there.
fn peeked(sock: &Sock, buf: &mut [u8; MAX_BYTES]) -> Outcome {
    for _ in 0..TRIES {
        match sock.peek(buf) {
            Outcome::Interrupted => {}
            outcome => return outcome,
        }
    }
    Outcome::Broken(DevKind::Other)
}

// Reads so many bytes, and none behind them. It says whether they are read.
fn skipped(sock: &Sock, size: usize) -> bool {
    let mut buf = [0u8; MAX_BYTES];
    let mut left = size;
    for _ in 0..MAX_BYTES as u32 + TRIES {
        let Some(room) = buf.get_mut(..left) else {
            return false;
        };
        match sock.read_now(room) {
            Outcome::Count(0) => return left == 0,
            Outcome::Count(count) => left = left.saturating_sub(count),
            Outcome::Interrupted => {}
            _ => return false,
        }
        if left == 0 {
            return true;
        }
    }
    false
}

impl Awaiting {
    /// A client that was accepted, of which the poller isn't told yet.
    pub fn new(sock: Sock, acceptance: Acceptance, counted: Counted) -> Awaiting
        ensures acceptance { client_awaited result ≡ acceptance }
        ensures counted { counted_awaited result ≡ counted }
    {
        Awaiting {
            until: idle_deadline(acceptance.at, HEADER_MS),
            sock,
            acceptance,
            counted,
            token: 0,
            failure: Unheard::Missing,
        }
    }

    /// The moment that it awaits.
    pub fn until(&self) -> u64
        ensures own { result ≡ awaited_until self.now }
        ensures moment { result ≡ header_moment (client_awaited self.now) }
    {
        self.until
    }

    /// The token under which the poller tells of it.
    pub fn token(&self) -> u64
        ensures { result ≡ awaited_token self.now }
    {
        self.token
    }

    /// What follows of the bytes that wait. With `ends` nothing comes behind them.
    pub fn look(&self, ends: bool) -> Judged {
        let mut buf = [0u8; MAX_BYTES];
        match peeked(&self.sock, &mut buf) {
            Outcome::Count(0) => judge(&[], true),
            Outcome::Count(count) => match buf.get(..count) {
                Some(bytes) => judge(bytes, ends),
                None => Judged::Fails(Unheard::Missing),
            },
            Outcome::WouldBlock => Judged::Waits,
            _ => Judged::Fails(Unheard::Missing),
        }
    }

    /// Goes on by what its loop heard. One whose header is whole, or that failed, before its moment comes
    /// is told so, also where this is late.
    pub fn go_on(&mut self, why: Why) -> AwaitStep
        ensures timely { AwaitsInTime self.old why result }
        ensures acceptance { client_awaited self.new ≡ client_awaited self.old }
        ensures counted { counted_awaited self.new ≡ counted_awaited self.old }
        ensures until { awaited_until self.new ≡ awaited_until self.old }
        ensures token { awaited_token self.new ≡ awaited_token self.old }
    {
        match self.look(stop_ahead_of(Way::Up, why)) {
            Judged::Says(_) => AwaitStep::Whole,
            Judged::Fails(failure) => {
                self.failure = failure;
                AwaitStep::Fails
            }
            Judged::Waits if self.is_late(why) => AwaitStep::Fails,
            Judged::Waits => AwaitStep::Waits,
        }
    }

    // Whether this tells that its moment has come.
    fn is_late(&self, why: Why) -> bool
        ensures { result ≡ true ↔ IsTime why (Some (awaited_until self.now)) }
    {
        match why {
            Why::Time { now } => has_come(Some(self.until), now),
            _ => false,
        }
    }

    /// There is no memory to go on with it.
    pub fn lack_memory(&mut self)
        ensures acceptance { client_awaited self.new ≡ client_awaited self.old }
        ensures counted { counted_awaited self.new ≡ counted_awaited self.old }
        ensures until { awaited_until self.new ≡ awaited_until self.old }
        ensures token { awaited_token self.new ≡ awaited_token self.old }
        ensures failure { awaited_failure self.new ≡ Memory }
    {
        self.failure = Unheard::Memory;
    }

    /// Has the poller tell of it under this token.
    pub fn register(&mut self, poller: &Poller, token: u64) -> Result<(), Refused>
        ensures refused { IfErr result (λ why. why ≡ Refused.Poller) }
        ensures acceptance { client_awaited self.new ≡ client_awaited self.old }
        ensures counted { counted_awaited self.new ≡ counted_awaited self.old }
        ensures until { awaited_until self.new ≡ awaited_until self.old }
        ensures token { awaited_token self.new ≡ token }
    {
        self.token = token;
        match poller.register(&mut self.sock, token) {
            Ok(()) => Ok(()),
            Err(_) => Err(Refused::Poller),
        }
    }

    /// Has the poller tell no more of it.
    pub fn deregister(&mut self, poller: &Poller) -> Result<(), Refused>
        ensures refused { IfErr result (λ why. why ≡ Refused.Poller) }
        ensures kept { self.new ≡ self.old }
    {
        match poller.deregister(&mut self.sock) {
            Ok(()) => Ok(()),
            Err(_) => Err(Refused::Poller),
        }
    }

    /// The client that it is by the header that it sent, whose bytes are read here; or it comes back, where
    /// they can't be.
    pub fn told(self, sent: SentHeader) -> Result<ToldClient, Awaiting>
        ensures told { IfOk result (λ client.
            IsToldBy (sent_header sent) (client_awaited self) client.acceptance) }
        ensures counted { IfOk result (λ client. client.counted ≡ counted_awaited self) }
        ensures back { IfErr result (λ back. back ≡ self) }
    {
        let SentHeader { header, size } = sent;
        if !skipped(&self.sock, size) {
            return Err(self);
        }
        let Awaiting {
            sock,
            acceptance,
            counted,
            until: _,
            token: _,
            failure: _,
        } = self;
        let mut acceptance = acceptance;
        acceptance.tell(&header);
        Ok(ToldClient {
            sock,
            acceptance,
            counted,
        })
    }

    /// Why it ends, where it ends by itself.
    pub fn failure(&self) -> Refused
        ensures { result ≡ Refused.Header (awaited_failure self.now) }
    {
        Refused::Header(self.failure)
    }

    /// Closes it. It is counted until then.
    pub fn close(self) -> Acceptance
        ensures { result ≡ client_awaited self }
    {
        let Awaiting {
            sock,
            acceptance,
            counted,
            until: _,
            token: _,
            failure: _,
        } = self;
        drop(sock);
        drop(counted);
        acceptance
    }
}
