//! Workers that stay from one step of a world to the next.

ghost use Rattle.std.specs.Prelude.{◌≡◌, IfErr};
ghost use Rattle.crew.specs.Refusals.{MayRefuseStart};
ghost use Rattle.world_workers.specs.Workers.{AnswersByThreads, step_due};

use crate::step_crew::StepCrew;
use crate::steps::{are_workers, is_for_one};
use crew::Gate;
use fixed_geom::Refusal;
use part_solver::PartMemory;
use std::alloc::Global;
use std::marker::Model;
use std::mem;
use std::sync::Wait;
use std::thread::{Scope, Threads};
use world_core::{Reply, WorldCore, is_tick_count};

/// The workers of a caller's steps, of which the caller is one. They are started in its scope by the first step that is
/// worth them, and stay until they are ended: its type sees to that, since it can't be let go otherwise. Contracts see
/// how many workers there are to be.
pub struct StepWorkers<'s, 'e, E, R, G: Gate> {
    scope: &'e Scope<'s, E>,
    rt: &'s R,
    alloc: Global,
    gate: &'s G,
    workers: u64,
    crew: Option<StepCrew<'s, R, G>>,
}

impl<'s, 'e, E, R, G: Gate> Model for StepWorkers<'s, 'e, E, R, G> {
    ghost use Rattle.std.specs.Prelude.{ℕ};

    ghost Value = { ℕ };

    ghost view = { λ a. a.workers };
}

impl<'s, 'e, E, R: Threads + Wait + Sync, G: Gate + Sync> StepWorkers<'s, 'e, E, R, G> {
    /// No worker is started yet. Each that is one day enters the gate before each of its pieces.
    pub fn new(
        scope: &'e Scope<'s, E>,
        rt: &'s R,
        alloc: Global,
        gate: &'s G,
        workers: u64,
    ) -> StepWorkers<'s, 'e, E, R, G>
        ensures { result ≡ workers }
    {
        StepWorkers {
            scope,
            rt,
            alloc,
            gate,
            workers,
            crew: None,
        }
    }

    /// The workers, started where none are. Refused 5 where they aren't 1 to 64, 1 where memory is wanting, and 11
    /// where a thread can't be started.
    fn hired(&mut self) -> Result<StepCrew<'s, R, G>, Refusal>
        ensures refused { IfErr result (MayRefuseStart self.old) }
        ensures workers { self.new ≡ self.old }
    {
        match mem::replace(&mut self.crew, None) {
            Some(crew) => Ok(crew),
            None => StepCrew::start(
                self.scope,
                self.rt,
                self.alloc,
                self.gate,
                self.workers as usize,
                PartMemory::new(self.alloc),
            ),
        }
    }

    /// Keeps the workers for the next step.
    fn keep(&mut self, crew: StepCrew<'s, R, G>)
        ensures { self.new ≡ self.old }
    {
        if let Some(other) = mem::replace(&mut self.crew, Some(crew)) {
            drop(other.end());
        }
    }

    /// Lets 1 to 8 ticks pass, solved by the workers where that is worth it. It is what `step_one` does. Refused 10 or
    /// 5, 1 where memory is wanting, or 11 where a thread can't be started, with nothing changed: the next step tries
    /// it again.
    pub fn step(&mut self, world: &mut WorldCore, ticks: i64) -> Result<Reply, Refusal>
        ensures answer { AnswersByThreads (step_due self.old world.old.plain ticks) world.old result world.new }
        ensures workers { self.new ≡ self.old }
    {
        if world.is_worn_out() {
            return Err(Refusal::WornOut);
        }
        if !are_workers(self.workers) {
            return Err(Refusal::OutOfRange);
        }
        if !is_tick_count(ticks) {
            return Err(Refusal::OutOfRange);
        }
        if is_for_one(world, self.workers) {
            return world.step_one(ticks);
        }
        match self.hired() {
            Err(refused) => Err(refused),
            Ok(mut crew) => {
                let answer = world.step_by(&mut crew, ticks);
                self.keep(crew);
                answer
            }
        }
    }

    /// Ends the workers and joins them.
    pub fn end(self) {
        let StepWorkers {
            scope: _,
            rt: _,
            alloc: _,
            gate: _,
            workers: _,
            crew,
        } = self;
        if let Some(crew) = crew {
            drop(crew.end());
        }
    }
}
