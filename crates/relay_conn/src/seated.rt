//! A client that has said by a header who it is, and needs a seat of its source by that.

ghost use Rattle.std.specs.Prelude.{◌≡◌, IfOk, IfErr};
ghost use Rattle.relay_conn.specs.Seated.{IsForSource};
ghost use Rattle.relay_shared.specs.Inbox.{IsSeated};

use crate::awaiting::ToldClient;
use crate::refused::Refused;
use relay_facts::connection_facts::Acceptance;
use std::sync::Wait;

/// A client that isn't served, since its source has no seat for it. Its socket is closed. It can't be
/// dropped, so that it is told.
pub struct Unseated {
    pub acceptance: Acceptance,
    pub why: Refused,
}

impl ToldClient {
    /// The client with the seat that it needs at this moment. Where there is none for it, it is closed.
    pub fn seated<R: Wait>(self, rt: &R, now: u64) -> Result<ToldClient, Unseated>
        ensures acceptance { IfOk result (λ client. client.acceptance ≡ self.acceptance) }
        ensures counted { IfOk result (λ client. IsSeated self.counted client.counted) }
        ensures refused { IfErr result (λ client. client.acceptance ≡ self.acceptance) }
        ensures why { IfErr result (λ client. IsForSource client.why) }
    {
        let ToldClient {
            sock,
            acceptance,
            counted,
        } = self;
        let mut counted = counted;
        match acceptance.seat(rt, now) {
            Ok(seat) => {
                counted.sit(seat);
                Ok(ToldClient {
                    sock,
                    acceptance,
                    counted,
                })
            }
            Err(why) => {
                drop(sock);
                drop(counted);
                Err(Unseated {
                    acceptance,
                    why: Refused::Source(why),
                })
            }
        }
    }
}
