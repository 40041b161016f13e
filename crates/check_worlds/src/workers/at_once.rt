//! Steps by workers beside the same steps by one thread.

use crate::whole_world::WholeWorld;
use crate::workers::gates::Meeting;
use crate::workers::steps::{WorkerStep, step_by_kept_workers, step_by_workers};
use check_scenes::{Piles, Stop, World, Worlds, text_of};
use crew::{Gate, OpenGate};
use std::alloc::Global;
use std::sync::Wait;
use std::thread;
use std::thread::{Scope, Threads};
use world_core::{PieceMap, Refusal, StepWorker, WorldLook};
use world_workers::{PartMemory, StepCrew, StepWorkers};

/// How many ticks each step has.
const TICKS: i64 = 4;

/// How many workers make all steps, started for each.
const STARTED: [u64; 4] = [1, 2, 3, 64];

/// How many make all steps that stay from the first one on.
const STAYING: u64 = 3;

/// How many steps are made by workers that stay.
const FEW: usize = 3;

/// Makes so many steps in a world, and answers its text after each.
fn texts_of<W: WholeWorld>(
    alloc: Global,
    world: &mut W,
    steps: u64,
) -> Result<Vec<String>, Refusal> {
    let mut texts = Vec::new(alloc);
    for _ in 0..steps {
        let _ = world.step(TICKS)?;
        texts.push(text_of(alloc, world)?)?;
    }
    Ok(texts)
}

/// Whether the world has this text.
fn is_text<W: World>(alloc: Global, world: &W, text: &str) -> Result<bool, Refusal> {
    Ok(text_of(alloc, world)?.as_str() == text)
}

/// Makes the world equal to the reference again.
fn restart<W: World>(worlds: &mut Worlds<W>) -> Result<(), Refusal> {
    match worlds.reference.copied() {
        Ok(world) => {
            worlds.world = world;
            Ok(())
        }
        Err(refusal) => Err(refusal),
    }
}

/// Whether each step by workers that are started for it leaves what one thread leaves.
fn are_steps_with<R: AllocGlobal + Threads + Wait + Sync, G: Gate + Sync, W: WholeWorld>(
    rt: &R,
    gate: &G,
    world: &mut W,
    workers: u64,
    after: &[String],
) -> Result<bool, Refusal> {
    let step = WorkerStep {
        workers,
        ticks: TICKS,
    };
    for text in after {
        let _ = step_by_workers(rt, gate, world.core(), step)?;
        if !is_text(rt.alloc(), world, text.as_str())? {
            return Ok(false);
        }
    }
    Ok(true)
}

/// The same from the beginning.
fn are_alike<R: AllocGlobal + Threads + Wait + Sync, G: Gate + Sync, W: WholeWorld>(
    rt: &R,
    gate: &G,
    worlds: &mut Worlds<W>,
    workers: u64,
    after: &[String],
) -> Result<bool, Refusal> {
    restart(worlds)?;
    are_steps_with(rt, gate, &mut worlds.world, workers, after)
}

/// Whether each step by workers that stay leaves what one thread leaves.
fn are_kept_steps<'s, 'e, E, R: Threads + Wait + Sync, G: Gate + Sync, W: WholeWorld>(
    alloc: Global,
    workers: &mut StepWorkers<'s, 'e, E, R, G>,
    world: &mut W,
    after: &[String],
) -> Result<bool, Refusal> {
    for text in after {
        let _ = step_by_kept_workers(workers, world.core(), TICKS)?;
        if !is_text(alloc, world, text.as_str())? {
            return Ok(false);
        }
    }
    Ok(true)
}

/// The same, by workers that are ended then.
fn are_steps_in<'s, E, R: Threads + Wait + Sync, G: Gate + Sync, W: WholeWorld>(
    scope: &Scope<'s, E>,
    rt: &'s R,
    alloc: Global,
    gate: &'s G,
    world: &mut W,
    after: &[String],
) -> Result<bool, Refusal> {
    let mut workers = StepWorkers::new(scope, rt, alloc, gate, STAYING);
    let are_same = are_kept_steps(alloc, &mut workers, world, after);
    workers.end();
    are_same
}

/// The same from the beginning.
fn are_alike_kept<R: AllocGlobal + Threads + Wait + Sync, W: WholeWorld>(
    rt: &R,
    worlds: &mut Worlds<W>,
    after: &[String],
) -> Result<bool, Refusal> {
    restart(worlds)?;
    let alloc = rt.alloc();
    thread::scope(thread::scope_env(), rt, |scope| {
        are_steps_in(scope, rt, alloc, &OpenGate, &mut worlds.world, after)
    })
}

/// Whether each step by this solver leaves what one thread leaves.
fn are_steps_by<W: WholeWorld, S: StepWorker + PieceMap<WorldLook>>(
    alloc: Global,
    world: &mut W,
    solver: &mut S,
    after: &[String],
) -> Result<bool, Refusal> {
    for text in after {
        let _ = world.step_by(solver, TICKS)?;
        if !is_text(alloc, world, text.as_str())? {
            return Ok(false);
        }
    }
    Ok(true)
}

/// The same from the beginning.
fn are_alike_by<W: WholeWorld, S: StepWorker + PieceMap<WorldLook>>(
    alloc: Global,
    worlds: &mut Worlds<W>,
    solver: &mut S,
    after: &[String],
) -> Result<bool, Refusal> {
    restart(worlds)?;
    are_steps_by(alloc, &mut worlds.world, solver, after)
}

/// Whether each step by a crew that solves it by parts, however small it is, leaves what one thread leaves.
fn are_steps_of<'s, E, W: WholeWorld, R: AllocGlobal + Threads + Wait + Sync, G: Gate + Sync>(
    scope: &Scope<'s, E>,
    rt: &'s R,
    gate: &'s G,
    workers: usize,
    worlds: &mut Worlds<W>,
    after: &[String],
) -> Result<bool, Refusal> {
    let alloc = rt.alloc();
    let memory = PartMemory::for_all_steps(alloc);
    match StepCrew::start(scope, rt, alloc, gate, workers, memory) {
        Ok(mut crew) => {
            let are_same = are_alike_by(alloc, worlds, &mut crew, after);
            drop(crew.end());
            are_same
        }
        Err(refusal) => Err(refusal),
    }
}

fn are_alike_by_crew<W: WholeWorld, R: AllocGlobal + Threads + Wait + Sync, G: Gate + Sync>(
    rt: &R,
    gate: &G,
    worlds: &mut Worlds<W>,
    workers: usize,
    after: &[String],
) -> Result<bool, Refusal> {
    thread::scope(thread::scope_env(), rt, |scope| {
        are_steps_of(scope, rt, gate, workers, worlds, after)
    })
}

fn print_workers<R: Print>(rt: &R, name: &str, workers: u64, are_same: bool) -> Result<(), Stop> {
    println!(rt; "{name}, workers started for each step: {workers}, the same steps: {are_same}")?;
    Ok(())
}

/// What two workers made that wait for each other.
fn print_meeting<R: Print>(
    rt: &R,
    name: &str,
    are_same: bool,
    meeting: &Meeting,
) -> Result<(), Stop> {
    let (late, has_met) = (meeting.late(), meeting.has_met());
    println!(rt;
        "{name}, two workers that wait for each other: in vain {late}, met {has_met}, the same steps: {are_same}"
    )?;
    Ok(())
}

/// Makes all steps by workers that are started for each, and by some that stay.
fn check_workers<R: AllocGlobal + Print + Threads + Wait + Sync, W: WholeWorld>(
    rt: &R,
    name: &str,
    worlds: &mut Worlds<W>,
    after: &[String],
) -> Result<(), Stop> {
    for workers in STARTED {
        let are_same = are_alike(rt, &OpenGate, worlds, workers, after)?;
        print_workers(rt, name, workers, are_same)?;
    }
    let are_same = are_alike_kept(rt, worlds, after)?;
    println!(rt; "{name}, workers that stay: {STAYING}, the same steps: {are_same}")?;
    Ok(())
}

/// Makes all steps of a wide pile by a crew of two workers that wait for each other and solve each by parts.
fn check_meeting<R: AllocGlobal + Print + Threads + Wait + Sync, W: WholeWorld>(
    rt: &R,
    worlds: &mut Worlds<W>,
    after: &[String],
) -> Result<(), Stop> {
    let meeting = Meeting::new();
    let are_same = are_alike_by_crew(rt, &meeting, worlds, 2, after)?;
    print_meeting(rt, "a wide pile", are_same, &meeting)
}

/// Makes some steps of a pile by crews that stay and solve each by parts. One has workers that wait for each other.
fn check_crews<R: AllocGlobal + Print + Threads + Wait + Sync, W: WholeWorld>(
    rt: &R,
    worlds: &mut Worlds<W>,
    after: &[String],
) -> Result<(), Stop> {
    let are_same = are_alike_by_crew(rt, &OpenGate, worlds, 3, after)?;
    println!(rt; "a pile, a crew of 3 that solves it by parts, the same steps: {are_same}")?;
    let meeting = Meeting::new();
    let are_same = are_alike_by_crew(rt, &meeting, worlds, 2, after)?;
    print_meeting(rt, "a pile", are_same, &meeting)
}

/// Checks steps of piles. They are so small that the calling thread solves them, but for a crew that is to solve each
/// step by parts.
fn check_after<R: AllocGlobal + Print + Threads + Wait + Sync, W: WholeWorld>(
    rt: &R,
    piles: Piles,
    worlds: &mut Worlds<W>,
    after: &[String],
) -> Result<(), Stop> {
    match piles {
        Piles::One => {
            check_workers(rt, "a pile", worlds, after)?;
            let few = after.get(..FEW).unwrap_or(after);
            check_crews(rt, worlds, few)
        }
        Piles::Two => check_workers(rt, "two piles", worlds, after),
        Piles::Wide => {
            check_workers(rt, "a wide pile", worlds, after)?;
            check_meeting(rt, worlds, after)
        }
    }
}

/// Makes so many steps of piles by one thread, and the same by workers.
pub fn check<R: AllocGlobal + Print + Threads + Wait + Sync, W: WholeWorld>(
    rt: &R,
    piles: Piles,
    worlds: &mut Worlds<W>,
    steps: u64,
) -> Result<(), Stop> {
    match texts_of(rt.alloc(), &mut worlds.world, steps) {
        Ok(after) => check_after(rt, piles, worlds, after.as_slice()),
        Err(refusal) => Err(Stop::Refused(refusal)),
    }
}
