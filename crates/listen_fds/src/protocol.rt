//! What the two variables say.

ghost use Rattle.std.specs.Prelude.{ℕ, IfSome, IfNone};
ghost use Rattle.listen_fds.specs.Protocol.{HandsOver};

use stream_base::decimal::parse_decimal;

/// The most sockets that are taken.
pub const MAX_SOCKETS: u8 = 128;

/// How many sockets are handed over to the process with this number, by what `LISTEN_PID` and
/// `LISTEN_FDS` say; one that isn't set says the empty text. Where they are for another process, as
/// for the one that started this one, and where they say anything else, none are.
#[tactic(auto, using(std::proofs::lemmas::Fmt::decimal_injective))]
pub fn handed_over(own: u32, pid: &[u8], fds: &[u8]) -> Option<u8>
    ensures some { IfSome result (HandsOver own pid.now fds.now) }
    ensures none { IfNone result ((count : ℕ) → HandsOver own pid.now fds.now count → ⊥) }
{
    let pid = parse_decimal(pid)?;
    let count = parse_decimal(fds)?;
    if pid != own as u64 {
        return None;
    }
    if count == 0 || count > MAX_SOCKETS as u64 {
        return None;
    }
    Some(count as u8)
}
