//! Plays scenes, step by step.

use super::calls::Noted;
use super::open;
use super::scene::Scene;
use super::scripted::Told;
use super::stage::Stage;
use super::watch::Watch;
use std::alloc::Global;
use std::process::Abort;
use std::sync::{Mutex, Wait};
use std::thread::Threads;
use std::time::Clock;

/// The first step of a scene that doesn't come to what it says.
fn wrong_step<T: Threads + Wait + Clock + Abort + Copy + Send + Drop + 'static>(
    rt: T,
    alloc: Global,
    scene: &Scene,
) -> Option<usize> {
    let told = Told::shared(&rt, alloc);
    let handle = open(rt, alloc, &told, scene.1, scene.2);
    let last = Mutex::new(None);
    let mut stage = Stage {
        rt,
        told,
        alarms: Noted { rt, last },
        handles: Vec::new(alloc),
        started: Vec::new(alloc),
    };
    stage.keep(Some(handle));
    let mut tasks = (None, None);
    for (at, step) in scene.3.iter().enumerate() {
        if !stage.goes(&mut tasks, *step) {
            return Some(at);
        }
    }
    None
}

/// Plays scenes, each of which ends in time.
pub(super) fn play_all<T: Threads + Wait + Clock + Abort + Copy + Send + Drop + 'static>(
    rt: T,
    alloc: Global,
    scenes: &[Scene],
) {
    for scene in scenes {
        let watch = Watch::start(rt, alloc, scene.0);
        let wrong = wrong_step(rt, alloc, scene);
        assert!(rt; wrong.is_none(), "{}: step {wrong:?}", scene.0);
        watch.end(&rt);
    }
}
