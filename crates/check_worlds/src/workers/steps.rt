//! Steps by workers, in functions that promise nothing. They are no methods of a trait, since a method of a trait
//! starts no threads.

use crew::Gate;
use std::alloc::Global;
use std::sync::Wait;
use std::thread;
use std::thread::{Scope, Threads};
use world_core::{Refusal, Reply, WorldCore};
use world_workers::{PartMemory, StepCrew, StepWorkers, step_with};

/// So many ticks by so many workers.
#[derive(Clone, Copy)]
pub struct WorkerStep {
    pub workers: u64,
    pub ticks: i64,
}

/// A step by workers that are started for it.
pub fn step_by_workers<R: AllocGlobal + Threads + Wait + Sync, G: Gate + Sync>(
    rt: &R,
    gate: &G,
    world: &mut WorldCore,
    step: WorkerStep,
) -> Result<Reply, Refusal> {
    step_with(world, rt, gate, step.workers, step.ticks)
}

/// A step by workers that stay.
pub fn step_by_kept_workers<'s, 'e, E, R: Threads + Wait + Sync, G: Gate + Sync>(
    workers: &mut StepWorkers<'s, 'e, E, R, G>,
    world: &mut WorldCore,
    ticks: i64,
) -> Result<Reply, Refusal> {
    workers.step(world, ticks)
}

/// A step by a crew of these workers that solves it by parts, however small it is.
fn step_by_crew<'s, E, R: Threads + Wait + Sync, G: Gate + Sync>(
    scope: &Scope<'s, E>,
    rt: &'s R,
    alloc: Global,
    gate: &'s G,
    world: &mut WorldCore,
    step: WorkerStep,
) -> Result<Reply, Refusal> {
    let memory = PartMemory::for_all_steps(alloc);
    let mut crew = StepCrew::start(scope, rt, alloc, gate, step.workers as usize, memory)?;
    let answer = world.step_by(&mut crew, step.ticks);
    drop(crew.end());
    answer
}

/// The same with a crew that is started for it.
pub fn step_by_parts<R: AllocGlobal + Threads + Wait + Sync, G: Gate + Sync>(
    rt: &R,
    gate: &G,
    world: &mut WorldCore,
    step: WorkerStep,
) -> Result<Reply, Refusal> {
    let alloc = rt.alloc();
    thread::scope(thread::scope_env(), rt, |scope| {
        step_by_crew(scope, rt, alloc, gate, world, step)
    })
}
