//! The paths that binds of the relay's own made.

ghost use Rattle.std.specs.Prelude.{◌≡◌, ◌++◌, ◌∷◌, [], IfOk, IfErr, OnOk, OnErr};
ghost use Rattle.std.specs.List.{position_or_len};
ghost use Rattle.readiness.specs.Sockets.{is_tcp_addr, is_tcp_listener};
ghost use Rattle.relay_shared.specs.Addr.{socket_address};
ghost use Rattle.relay_shared.specs.BoundPath.{bound_addr, is_bound_at, paths_without, paths_in};

use crate::address::socket_address;
use base_types::OutOfMemory;
use readiness::{Listen, listen_with};
use relay_admin::{Addr, is_same_addr};
use rwloops::DevKind;
use std::alloc::Global;
use std::fs;
use std::fs::Files;
use std::net::Net;

/// What a bind of ours made: at a Unix address its path. `bind` alone makes one, so that a listener
/// which was given has none, and its path stays. It can't be copied or dropped: a removal spends
/// it, so that no path is left, and none is removed twice.
pub struct BoundPath {
    addr: Addr,
}

/// Binds a listener at this address, whose path has this mode, where one is said; its path is to be
/// removed from then on. The fault is `Other`.
pub fn bind<R: Files + Net>(
    rt: &R,
    addr: &Addr,
    mode: Option<u16>,
) -> Result<(Listen, BoundPath), DevKind>
    ensures path { IfOk result (λ bound. bound_addr bound.1 ≡ addr.now) }
    ensures family { IfOk result (λ bound.
        is_tcp_listener bound.0 ≡ is_tcp_addr (socket_address addr.now)) }
    ensures faults { IfErr result (λ kind. kind ≡ DevKind.Other) }
{
    match listen_with(rt, &socket_address(addr), mode.map(u32::from)) {
        Ok(listener) => Ok((listener, BoundPath { addr: *addr })),
        Err(kind) => Err(kind),
    }
}

impl BoundPath {
    /// Removes it, and passes over faults.
    pub fn remove<R: Files>(self, rt: &R) {
        let BoundPath { addr } = self;
        if let Addr::Unix(path) = addr {
            let _ = fs::remove_file(rt, path.as_str());
        }
    }
}

/// The paths that are to be removed, in the order in which they were bound. It can't be dropped:
/// `end` alone lets it go.
pub struct BoundPaths {
    paths: Vec<BoundPath>,
}

// The place of the first of this address; how many there are, where none is.
fn place_of_path(paths: &[BoundPath], addr: &Addr) -> usize
    ensures { result ≡ position_or_len (is_bound_at addr.now) paths.now }
{
    for place in 0..paths.len() {
        if is_same_addr(&paths[place].addr, addr) {
            return place;
        }
    }
    paths.len()
}

impl BoundPaths {
    /// None. It takes no memory.
    pub fn none(alloc: Global) -> BoundPaths
        ensures { paths_in result ≡ [] }
    {
        BoundPaths {
            paths: Vec::new(alloc),
        }
    }

    /// Keeps one; or removes it, where memory is refused.
    pub fn keep<R: Files>(&mut self, rt: &R, path: BoundPath) -> Result<(), OutOfMemory>
        ensures kept { OnOk result (paths_in self.new ≡ paths_in self.old ++ path ∷ []) }
        ensures refused { OnErr result (paths_in self.new ≡ paths_in self.old) }
    {
        match self.paths.push(path) {
            Ok(()) => Ok(()),
            Err(refused) => {
                refused.value.remove(rt);
                Err(OutOfMemory)
            }
        }
    }

    /// Removes the first of this address, if there is one.
    pub fn remove_at<R: Files>(&mut self, rt: &R, addr: &Addr)
        ensures { paths_in self.new ≡ paths_without addr.now (paths_in self.old) }
    {
        let place = place_of_path(self.paths.as_slice(), addr);
        if place < self.paths.len() {
            self.paths.remove(place).remove(rt);
        }
    }

    /// Removes all.
    pub fn remove_all<R: Files>(&mut self, rt: &R)
        ensures { paths_in self.new ≡ [] }
    {
        while let Some(path) = self.paths.pop() {
            path.remove(rt);
        }
    }

    /// Removes all that are left.
    pub fn end<R: Files>(self, rt: &R) {
        let BoundPaths { paths } = self;
        let mut left = paths;
        while let Some(path) = left.pop() {
            path.remove(rt);
        }
        left.destroy_empty();
    }
}
