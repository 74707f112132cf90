//! A scene's task: one half that is read and one that is written at a time.

use super::scene::Task;
use super::scripted::Pair;
use super::stage::Stage;
use base_types::Dir;
use fd_descriptor::{TaskReader, TaskWriter};
use std::sync::Wait;
use std::time::Clock;

/// The half that is read and the half that is written, where there is one. They aren't on the stage,
/// since no struct states what a generic type has as its field that has a ghost field of its own.
pub(super) type Tasks<T> = (
    Option<TaskReader<Pair<T>, T>>,
    Option<TaskWriter<Pair<T>, T>>,
);

fn begins<T: Wait + Clock + Copy + Drop>(
    stage: &mut Stage<T>,
    tasks: &mut Tasks<T>,
    dir: Dir,
) -> bool {
    let Some(handle) = stage.share() else {
        return false;
    };
    match dir {
        Dir::Read => {
            let half = tasks.0.insert(TaskReader::new(stage.rt, handle));
            half.begin().is_ok()
        }
        Dir::Write => {
            let half = tasks.1.insert(TaskWriter::new(stage.rt, handle));
            half.begin().is_ok()
        }
    }
}

/// Whether what is done to a half comes to what it says.
pub(super) fn does<T: Wait + Clock + Copy + Drop>(
    stage: &mut Stage<T>,
    tasks: &mut Tasks<T>,
    task: Task,
) -> bool {
    match task {
        Task::Begin(dir) => begins(stage, tasks, dir),
        Task::Read(want) => match &mut tasks.0 {
            Some(half) => half.poll_read(&mut [0; 4]) == want,
            None => false,
        },
        Task::Write(bytes, want) => match &mut tasks.1 {
            Some(half) => half.poll_write(bytes) == want,
            None => false,
        },
        Task::Share => {
            let handle = match &mut tasks.0 {
                Some(half) => half.share().ok(),
                None => None,
            };
            stage.keep(handle)
        }
        Task::End => match tasks.0.take() {
            Some(half) => stage.keep(Some(half.into_handle())),
            None => false,
        },
        Task::Drop(Dir::Read) => tasks.0.take().is_some(),
        Task::Drop(Dir::Write) => tasks.1.take().is_some(),
    }
}
