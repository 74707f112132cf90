//! Who is in a group: a list of numbers, one of each who joined and hasn't left, in that order, with
//! what ends their connections.

ghost use Rattle.std.specs.Prelude.{◌≡◌, ◌<◌, ◌+◌, ◌^◌, ◌++◌, ◌∷◌, ◌↔◌, [], true, false, length};
ghost use Rattle.std.specs.Prelude.{IfOk, IfErr, IfSome, IsNone, OnOk, OnErr, IsSome, slice_index_or};
ghost use Rattle.std.specs.IoError.{error_kind};
ghost use Rattle.net.specs.Members.{Leaves, LacksNumber, refusal_of};

use crate::runs::Runs;
use crate::socket_closer::SocketCloser;
use std::alloc::Global;
use std::io;
use std::io::ErrorKind;

/// The members of a group.
#[derive(Drop)]
pub(crate) struct Members<R: Runs> {
    numbers: Vec<u64>,
    // What ends the connection of each, at the same place; none once they were ended.
    closers: Vec<SocketCloser<R>>,
    next: u64,
    // Whether nobody joins any more.
    over: bool,
}

/// The place of a member, which it has to give back.
pub(crate) struct Joined {
    number: u64,
}

/// That nobody was left in a group.
#[derive(Drop)]
pub struct NoneLeft {
    _made: (),
}

// Where the number stands.
fn place_of(numbers: &[u64], number: u64) -> Option<usize>
    ensures found { IfSome result (λ at. (at < length numbers.now)
        × (slice_index_or numbers.now at number ≡ number)) }
    ensures none { IsNone result → LacksNumber number (length numbers.now) numbers.now }
{
    for at in 0..numbers.len() {
        if numbers[at] == number {
            return Some(at);
        }
    }
    None
}

impl<R: Runs> Members<R> {
    /// Nobody yet.
    pub(crate) fn none(alloc: Global) -> Members<R>
        ensures none { result.numbers.items ≡ [] }
        ensures open { result.over ≡ false }
    {
        Members {
            numbers: Vec::new(alloc),
            closers: Vec::new(alloc),
            next: 0,
            over: false,
        }
    }

    /// One more, unless the group was ended.
    pub(crate) fn join(&mut self, closer: SocketCloser<R>) -> io::Result<Joined>
        ensures joined { IfOk result (λ joined.
            self.new.numbers.items ≡ self.old.numbers.items ++ joined.number ∷ []) }
        ensures closer { OnOk result (self.new.closers.items ≡ self.old.closers.items ++ closer ∷ []) }
        ensures open { OnOk result (self.old.over ≡ false) }
        ensures kept { OnErr result (self.new.numbers.items ≡ self.old.numbers.items) }
        ensures over { self.new.over ≡ self.old.over }
        ensures refused { IfErr result (λ error. error_kind error ≡ refusal_of self.old.over) }
    {
        if self.over {
            return Err(ErrorKind::NotConnected.into());
        }
        self.numbers.reserve(1)?;
        self.closers.push(closer)?;
        let number = self.next;
        self.next = number.wrapping_add(1);
        self.numbers.push(number)?;
        Ok(Joined { number })
    }

    /// One less.
    pub(crate) fn leave(&mut self, joined: Joined)
        ensures left { Leaves joined.number self.old.numbers.items self.new.numbers.items }
        ensures over { self.new.over ≡ self.old.over }
    {
        let Joined { number } = joined;
        if let Some(at) = place_of(self.numbers.as_slice(), number) {
            self.numbers.remove(at);
            if at < self.closers.len() {
                let _ = self.closers.remove(at);
            }
        }
    }

    /// How many there are.
    pub(crate) fn count(&self) -> usize
        ensures { result ≡ length self.now.numbers.items }
    {
        self.numbers.len()
    }

    /// Whether nobody is left, and that it was so.
    pub(crate) fn none_left(&self) -> Option<NoneLeft>
        ensures { IsSome result ↔ (self.now.numbers.items ≡ []) }
    {
        if self.numbers.is_empty() {
            Some(NoneLeft { _made: () })
        } else {
            None
        }
    }

    /// From now on nobody joins. It gives what ends the connections of all who are there.
    pub(crate) fn end(&mut self, alloc: Global) -> Vec<SocketCloser<R>>
        ensures over { self.new.over ≡ true }
        ensures all { result.items ≡ self.old.closers.items }
        ensures stay { self.new.numbers.items ≡ self.old.numbers.items }
    {
        self.over = true;
        std::mem::replace(&mut self.closers, Vec::new(alloc))
    }
}
