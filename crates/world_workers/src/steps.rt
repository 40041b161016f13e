//! A step by workers that are started for it.

ghost use Rattle.std.specs.Prelude.{◌≡◌, ◌<◌, ◌^◌, true, pos};
ghost use Rattle.crew.specs.Refusals.{are_workers};
ghost use Rattle.shapes.specs.Shapes.{is_between};
ghost use Rattle.world_rules.specs.Apply.{apply};
ghost use Rattle.world_rules.specs.declared.command.Command.TheVariants.{Step};
ghost use Rattle.world_workers.specs.Workers.{AnswersByThreads, step_due};

use crate::step_crew::StepCrew;
use crew::Gate;
use fixed_geom::{Refusal, ZERO_VECTOR};
use part_solver::{LEAST_CONSTRAINTS, LEAST_PARTS, PartMemory};
use std::alloc::Global;
use std::sync::Wait;
use std::thread::{Scope, Threads};
use std::{mem, thread};
use world_core::{Reply, WorldCore, is_tick_count};

/// How many workers may solve a step at most.
const MOST_WORKERS: u64 = 64;

pub(crate) fn are_workers(workers: u64) -> bool
    ensures { result ≡ are_workers workers }
{
    workers >= 1 && workers <= MOST_WORKERS
}

/// Whether the calling thread makes the step alone: too few workers are asked for, or too little acts.
pub(crate) fn is_for_one(world: &WorldCore, workers: u64) -> bool {
    workers < LEAST_PARTS || world.acting_constraints() < LEAST_CONSTRAINTS
}

/// A world, and how many ticks it is to make.
#[derive(Drop)]
struct Task {
    world: WorldCore,
    ticks: i64,
}

/// A task that was made, or refused.
#[derive(Drop)]
struct Done {
    world: WorldCore,
    answer: Result<Reply, Refusal>,
}

/// Makes a step with workers that start in the scope, and ends them.
fn step_in<'s, E, R: Threads + Wait + Sync, G: Gate + Sync>(
    scope: &Scope<'s, E>,
    rt: &'s R,
    alloc: Global,
    gate: &'s G,
    workers: usize,
    task: Task,
) -> Done
    requires calls { task.world.plain.calls < 2 ^ 40 }
    requires ticks { is_between (pos 1) (pos 8) task.ticks ≡ true }
    requires workers { are_workers workers ≡ true }
    ensures { AnswersByThreads (apply task.world.plain (Step task.ticks)) task.world result.answer result.world }
{
    let Task { mut world, ticks } = task;
    match StepCrew::start(scope, rt, alloc, gate, workers, PartMemory::new(alloc)) {
        Err(refused) => Done {
            world,
            answer: Err(refused),
        },
        Ok(mut crew) => {
            let answer = world.step_by(&mut crew, ticks);
            drop(crew.end());
            Done { world, answer }
        }
    }
}

/// Opens a scope for it.
fn step_scoped<R: Threads + Wait + Sync, G: Gate + Sync>(
    rt: &R,
    alloc: Global,
    gate: &G,
    workers: usize,
    task: Task,
) -> Done
    requires calls { task.world.plain.calls < 2 ^ 40 }
    requires ticks { is_between (pos 1) (pos 8) task.ticks ≡ true }
    requires workers { are_workers workers ≡ true }
    ensures { AnswersByThreads (apply task.world.plain (Step task.ticks)) task.world result.answer result.world }
{
    thread::scope(
        thread::scope_env(),
        rt,
        move |scope| -> Done
            requires { (task.world.plain.calls < 2 ^ 40) × (is_between (pos 1) (pos 8) task.ticks ≡ true) × (are_workers workers ≡ true) }
            ensures { AnswersByThreads (apply task.world.plain (Step task.ticks)) task.world result.answer result.world }
        { step_in(scope, rt, alloc, gate, workers, task) },
    )
}

/// Makes a step with workers that start for it. Another world stands in this one's place meanwhile, since what a scope
/// changes behind a reference can't be told.
fn step_apart<R: AllocGlobal + Threads + Wait + Sync, G: Gate + Sync>(
    world: &mut WorldCore,
    aside: WorldCore,
    rt: &R,
    gate: &G,
    workers: usize,
    ticks: i64,
) -> Result<Reply, Refusal>
    requires calls { world.old.plain.calls < 2 ^ 40 }
    requires ticks { is_between (pos 1) (pos 8) ticks ≡ true }
    requires workers { are_workers workers ≡ true }
    ensures { AnswersByThreads (apply world.old.plain (Step ticks)) world.old result world.new }
{
    let task = Task {
        world: mem::replace(world, aside),
        ticks,
    };
    let Done {
        world: made,
        answer,
    } = step_scoped(rt, rt.alloc(), gate, workers, task);
    drop(mem::replace(world, made));
    answer
}

/// Lets 1 to 8 ticks pass, solved by 1 to 64 workers, of which the caller is one; each enters the gate before each of
/// its pieces. It is what `step_one` does. Refused 10 or 5, 1 where memory is wanting, or 11 where a thread can't be
/// started, with nothing changed.
pub fn step_with<R: AllocGlobal + Threads + Wait + Sync, G: Gate + Sync>(
    world: &mut WorldCore,
    rt: &R,
    gate: &G,
    workers: u64,
    ticks: i64,
) -> Result<Reply, Refusal>
    ensures { AnswersByThreads (step_due workers world.old.plain ticks) world.old result world.new }
{
    if world.is_worn_out() {
        return Err(Refusal::WornOut);
    }
    if !are_workers(workers) {
        return Err(Refusal::OutOfRange);
    }
    if !is_tick_count(ticks) {
        return Err(Refusal::OutOfRange);
    }
    if is_for_one(world, workers) {
        return world.step_one(ticks);
    }
    let alloc = rt.alloc();
    match WorldCore::new(alloc, ZERO_VECTOR) {
        Err(refused) => Err(refused),
        Ok(aside) => step_apart(world, aside, rt, gate, workers as usize, ticks),
    }
}
