//! The numbers of the sockets that a process was started with, each of which is taken once.

ghost use Rattle.std.specs.Prelude.{◌≤◌};

use crate::given_socket::{GivenSocket, given_socket};
use crate::protocol::handed_over;
use std::net::Net;

/// The number of the first.
const FIRST: u8 = 3;

/// The sockets that this process was started with and that nobody has taken yet.
///
/// A process makes one such value, ahead of all that it opens: a number that the variables name and
/// that isn't open could else come to be another's. Nothing tells whether it does.
#[derive(Drop)]
pub struct ListenFds {
    next: u8,
    end: u8,
    ghost ordered: { next ≤ end },
}

impl ListenFds {
    ghost use Rattle.std.specs.Prelude.{◌≡◌, ◌+◌, ◌-◌, ◌<◌, ◌↔◌, ℕ, min, IsSome, IfSome, IfNone};
    ghost use Rattle.std.specs.Prelude.{IfOk};
    ghost use Rattle.listen_fds.specs.Numbers.{number_behind, next_number};
    ghost use Rattle.listen_fds.specs.Protocol.{HandsOver};
    ghost use Rattle.readiness.specs.Sockets.{is_tcp_addr, is_tcp_listener};

    /// Those of the process with this number, if `LISTEN_PID` and `LISTEN_FDS` hand some over to it
    /// (see `handed_over`): the first has the number 3.
    pub fn of(own: u32, pid: &[u8], fds: &[u8]) -> Option<ListenFds>
        ensures first { IfSome result (λ all. next_number all ≡ 3) }
        ensures some { IfSome result (λ all. HandsOver own pid.now fds.now (number_behind all - 3)) }
        ensures none { IfNone result ((count : ℕ) → HandsOver own pid.now fds.now count → ⊥) }
    {
        let count = handed_over(own, pid, fds)?;
        Some(ListenFds {
            next: FIRST,
            end: FIRST + count,
        })
    }

    /// Takes the socket with the least number that nobody has taken.
    pub fn take<R: Net>(&mut self, rt: &R) -> Option<GivenSocket>
        ensures some { IsSome result ↔ (next_number self.old < number_behind self.old) }
        ensures number { IfSome result (λ given. given.number ≡ next_number self.old) }
        ensures once { next_number self.new ≡ min (next_number self.old + 1) (number_behind self.old) }
        ensures same_end { number_behind self.new ≡ number_behind self.old }
        ensures family { IfSome result (λ given. IfOk given.listener (λ own.
            is_tcp_listener own.1 ≡ is_tcp_addr own.0)) }
    {
        if self.next == self.end {
            return None;
        }
        let number = self.next;
        self.next += 1;
        Some(given_socket(rt, number))
    }
}
