//! What is done in worlds. Each task says which commands make its world, and one function makes it.

use crate::locks::LockTask;
use crate::mirrors::MirrorTask;
use crate::scenes::FALLING;
use crate::shared::RoundWork;
use crate::{locks, mirrors, shared};
use check_scenes::{Piles, Stop, World, Worlds, commands_of, end_without};
use std::alloc::Global;
use std::sync::Wait;
use std::thread::Threads;
use std::time::Clock;
use world_core::{Command, Refusal, WorldCore};

/// What is done in a world.
#[derive(Clone, Copy)]
pub enum Task<'a> {
    Lock(LockTask<'a>),
    Mirror(MirrorTask),
    /// A round of seats, workers, a publisher and readers in two piles.
    Round(RoundWork),
}

impl Task<'_> {
    /// The commands that make its world.
    fn commands(&self, alloc: Global) -> Result<Vec<Command>, Refusal> {
        match self {
            Task::Lock(task) => task.commands(alloc),
            Task::Mirror(_) => commands_of(alloc, FALLING),
            Task::Round(_) => Piles::Two.commands(alloc),
        }
    }

    /// Whether memory may be refused to it, so that it tells what came of that.
    fn is_try(&self) -> bool {
        match self {
            Task::Lock(LockTask::Try(_, _)) => true,
            _ => false,
        }
    }
}

fn do_in<R: Print + Threads + Wait + Clock + Sync, W: World>(
    rt: &R,
    alloc: Global,
    task: Task<'_>,
    worlds: &mut Worlds<W>,
) -> Result<(), Stop> {
    match task {
        Task::Lock(task) => locks::do_in(rt, alloc, task, worlds),
        Task::Mirror(task) => mirrors::do_in(rt, alloc, task, worlds.reference.core()),
        Task::Round(work) => shared::do_in(rt, alloc, work, worlds),
    }
}

/// Makes the worlds of a task and does it. It is the one function of this program that has worlds to drop.
fn do_after<R: Print + Threads + Wait + Clock + Sync, W: World>(
    rt: &R,
    alloc: Global,
    task: Task<'_>,
    commands: &[Command],
) -> Result<(), Stop> {
    match Worlds::<W>::after(alloc, commands) {
        Ok(mut worlds) => do_in(rt, alloc, task, &mut worlds),
        Err(refusal) => end_without(rt, task.is_try(), refusal),
    }
}

/// Does a task in a world of its own.
pub fn do_task<R: AllocGlobal + Print + Threads + Wait + Clock + Sync>(
    rt: &R,
    task: Task<'_>,
) -> Result<(), Stop> {
    match task.commands(rt.alloc()) {
        Ok(commands) => do_after::<R, WorldCore>(rt, rt.alloc(), task, commands.as_slice()),
        Err(refusal) => end_without(rt, task.is_try(), refusal),
    }
}
