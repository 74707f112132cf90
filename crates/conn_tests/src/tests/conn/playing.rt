//! How a scene is played: over which sockets, and by which threads.

use super::acting::start;
use super::holds;
use super::scene::{Part, Scene};
use super::stage::Stage;
use super::watch::Watch;
use super::world::{HeldEnd, open};
use readiness::Addr;
use std::alloc::Global;
use std::fs::Files;
use std::net::Net;
use std::process::Abort;
use std::sync::{Arc, Wait};
use std::thread::{JoinHandle, Threads};
use std::time::Clock;

/// Starts all roles of these parts at an end.
fn start_all<R>(
    rt: R,
    stage: &Arc<Stage<R>>,
    end: &mut HeldEnd,
    (scene, parts): (&'static str, &[Part]),
    running: &mut Vec<JoinHandle<()>>,
)
where
    R: Wait + Threads + Clock + Abort + Copy + Drop + Send + Sync + 'static,
{
    for part in parts {
        for _ in 0..part.0 {
            let role = start(rt, stage, end.share(&rt), (scene, part.1));
            running.push(role).expect(&rt, "room");
        }
    }
}

/// Plays a scene over a connection at this address.
fn play<R>(rt: R, alloc: Global, addr: &Addr, scene: &Scene)
where
    R: Wait + Threads + Net + Files + Clock + Abort + Copy + Drop + Send + Sync + 'static,
{
    let watch = Watch::over(rt, alloc, scene.name);
    let mut world = open(rt, alloc, addr);
    let mut running = Vec::new(alloc);
    let (near, far) = ((scene.name, scene.near), (scene.name, scene.far));
    start_all(rt, &world.stage, &mut world.near, near, &mut running);
    start_all(rt, &world.stage, &mut world.far, far, &mut running);
    for role in running {
        role.join(&rt);
    }
    holds(&rt, world.stage.balances(scene.is_whole), scene.name);
    world.stop(&rt);
    watch.end(&rt);
}

/// Plays a scene over connections at each of these addresses.
fn play_at_each<R>(rt: R, alloc: Global, addrs: &[Addr], scene: &Scene)
where
    R: Wait + Threads + Net + Files + Clock + Abort + Copy + Drop + Send + Sync + 'static,
{
    for addr in addrs {
        play(rt, alloc, addr, scene);
    }
}

/// Plays each scene over connections at each of these addresses.
pub(super) fn plays<R>(rt: R, alloc: Global, addrs: Option<[Addr; 2]>, scenes: &[Scene])
where
    R: Wait + Threads + Net + Files + Clock + Abort + Copy + Drop + Send + Sync + 'static,
{
    let addrs = addrs.expect(&rt, "a path");
    for scene in scenes {
        play_at_each(rt, alloc, addrs.as_slice(), scene);
    }
}
