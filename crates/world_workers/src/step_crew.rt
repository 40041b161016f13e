//! The crew of a step: one kind of work for the parts of its ticks and for the pieces of its collide.

ghost use Rattle.std.specs.Prelude.{◌≡◌, ◌++◌, ◌+◌, ◌≤◌, IfErr, map, true, vec_capacity, vec_len};
ghost use Rattle.std.specs.Arc.{arc_value};
ghost use Rattle.std.specs.List.{filter_map};
ghost use Rattle.contacts.specs.PairPieces.{evaluated};
ghost use Rattle.crew.specs.Refusals.{MayRefuseStart};
ghost use Rattle.world_workers.specs.Tasks.{done_of, looked_by};

use crate::tasks::{
    Answer, Done, Task, TaskWork, WorldSurvey, list_looks, list_pairs, list_seats, take_answers,
};
use colour_solver::StepSums;
use contacts::{EvaluatedPairs, LookedPlaces, PairLists, PairPiece};
use crew::{Crew, CrewDef, Gate, PieceMap, Returned, sole, start};
use fixed_geom::Refusal;
use graph_colours::Colours;
use momenta::BodyState;
use part_solver::{Part, PartMemory, PartSolver, Seat, SeatMap};
use plain_world::Constraint;
use std::alloc::Global;
use std::sync::{Arc, Wait};
use std::thread::{Scope, Threads};
use world_core::{StepWorker, WorldLook};
use world_core_base::{Constraints, GatheredRows, MovingSlots, Pace, StepSolver};

/// The threads of a crew, and lists of tasks, which stay from map to map.
pub(crate) struct Hands<'s, R, G: Gate> {
    rt: &'s R,
    alloc: Global,
    workers: usize,
    crew: Crew<'s, G, TaskWork>,
    work: Arc<TaskWork, Global>,
    tasks: Vec<Task>,
    done: Vec<Done>,
}

/// The workers of steps, of which the calling thread is one, kept over any number of steps. Its type sees to it that it
/// is ended: it can't be let go otherwise.
pub struct StepCrew<'s, R, G: Gate> {
    hands: Hands<'s, R, G>,
    memory: PartMemory,
}

impl<'s, R: Wait, G: Gate> Hands<'s, R, G> {
    /// Works the tasks, if there is memory for what they answer, and takes the answers of one kind. No task is left.
    fn map_tasks<T: Answer>(&mut self, answers: &mut Vec<T>) -> bool
        requires { vec_len answers.old + vec_len self.old.tasks ≤ vec_capacity answers.old }
        ensures { result ≡ true → answers.new.items ≡ answers.old.items ++ filter_map T.taken (map done_of self.old.tasks.items) }
    {
        self.done.clear();
        if self.done.reserve(self.tasks.len()).is_err() {
            self.tasks.clear();
            return false;
        }
        self.crew
            .map_with(self.rt, &self.work, &mut self.tasks, &mut self.done);
        take_answers(&mut self.done, answers);
        true
    }

    /// Works pieces of near pairs over what is lent to them.
    fn map_pairs(
        &mut self,
        lent: &Arc<PairLists, Global>,
        pieces: &mut Vec<PairPiece>,
        answers: &mut Vec<EvaluatedPairs>,
    ) -> bool
        requires { vec_len answers.old + vec_len pieces.old ≤ vec_capacity answers.old }
        ensures { result ≡ true → answers.new.items ≡ answers.old.items ++ map (evaluated (arc_value lent.now)) pieces.old.items }
    {
        if !list_pairs(&mut self.tasks, lent, pieces) {
            return false;
        }
        self.map_tasks(answers)
    }

    /// Works pieces of a look over contacts over what is lent to them.
    fn map_looks(
        &mut self,
        lent: &Arc<WorldSurvey, Global>,
        pieces: &mut Vec<WorldLook>,
        answers: &mut Vec<LookedPlaces>,
    ) -> bool
        requires { vec_len answers.old + vec_len pieces.old ≤ vec_capacity answers.old }
        ensures { result ≡ true → answers.new.items ≡ answers.old.items ++ map (looked_by (arc_value lent.now)) pieces.old.items }
    {
        if !list_looks(&mut self.tasks, lent, pieces) {
            return false;
        }
        self.map_tasks(answers)
    }
}

impl<'s, R: Wait, G: Gate> SeatMap for Hands<'s, R, G> {
    fn map_seats(&mut self, seats: &mut Vec<Seat>, parts: &mut Vec<Part>) -> bool {
        if !list_seats(&mut self.tasks, seats) {
            return false;
        }
        self.map_tasks(parts)
    }
}

impl<'s, R, G: Gate> StepCrew<'s, R, G> {
    /// How many threads work the pieces of a collide: the calling thread alone where the last step wasn't worth more.
    fn piece_workers(&self) -> usize {
        if self.memory.was_worth() {
            self.hands.workers
        } else {
            1
        }
    }
}

impl<'s, R: Wait, G: Gate> PieceMap<PairPiece> for StepCrew<'s, R, G> {
    fn workers(&self) -> usize {
        self.piece_workers()
    }

    fn map_pieces(
        &mut self,
        lent: PairLists,
        pieces: &mut Vec<PairPiece>,
        answers: &mut Vec<EvaluatedPairs>,
    ) -> Returned<PairLists> {
        match Arc::new(self.hands.alloc, lent) {
            Err(failed) => Returned {
                lent: failed.value,
                is_done: false,
            },
            Ok(shared) => {
                let is_done = self.hands.map_pairs(&shared, pieces, answers);
                Returned {
                    lent: sole(self.hands.rt, shared),
                    is_done,
                }
            }
        }
    }
}

impl<'s, R: Wait, G: Gate> PieceMap<WorldLook> for StepCrew<'s, R, G> {
    fn workers(&self) -> usize {
        self.piece_workers()
    }

    fn map_pieces(
        &mut self,
        lent: WorldSurvey,
        pieces: &mut Vec<WorldLook>,
        answers: &mut Vec<LookedPlaces>,
    ) -> Returned<WorldSurvey> {
        match Arc::new(self.hands.alloc, lent) {
            Err(failed) => Returned {
                lent: failed.value,
                is_done: false,
            },
            Ok(shared) => {
                let is_done = self.hands.map_looks(&shared, pieces, answers);
                Returned {
                    lent: sole(self.hands.rt, shared),
                    is_done,
                }
            }
        }
    }
}

impl<'s, R: Wait, G: Gate> StepSolver for StepCrew<'s, R, G> {
    fn run_step(
        &mut self,
        states: &mut Vec<BodyState>,
        constraints: &mut Constraints,
        colours: &Colours<Constraint>,
        gathered: &mut GatheredRows,
        moving: MovingSlots,
        pace: Pace,
    ) -> StepSums {
        let rt = self.hands.rt;
        let workers = self.hands.workers;
        let mut solver = PartSolver {
            rt,
            mapper: &mut self.hands,
            memory: &mut self.memory,
            workers,
        };
        solver.run_step(states, constraints, colours, gathered, moving, pace)
    }
}

impl<'s, R: Wait, G: Gate> StepWorker for StepCrew<'s, R, G> {}

impl<'s, R: Threads + Wait + Sync, G: Gate + Sync> StepCrew<'s, R, G> {
    /// Starts so many workers, but for the calling thread, which go on with what a crew before left. Refused 5 where
    /// they aren't 1 to 64, 1 where memory is wanting, and 11 where a thread can't be started: those that run are then
    /// ended and joined.
    pub fn start<E>(
        scope: &Scope<'s, E>,
        rt: &'s R,
        alloc: Global,
        gate: &'s G,
        workers: usize,
        memory: PartMemory,
    ) -> Result<StepCrew<'s, R, G>, Refusal>
        ensures { IfErr result (MayRefuseStart workers) }
    {
        let def = CrewDef {
            workers,
            least: 1,
            room: 1,
        };
        let crew = start(scope, rt, alloc, gate, def)?;
        let Ok(work) = Arc::new(alloc, TaskWork) else {
            crew.end(rt);
            return Err(Refusal::NoMemory);
        };
        let hands = Hands {
            rt,
            alloc,
            workers,
            crew,
            work,
            tasks: Vec::new(alloc),
            done: Vec::new(alloc),
        };
        Ok(StepCrew { hands, memory })
    }

    /// Ends the workers and joins them, and answers what the next crew can go on with.
    pub fn end(self) -> PartMemory {
        let StepCrew { hands, memory } = self;
        let Hands {
            rt,
            alloc: _,
            workers: _,
            crew,
            work: _,
            tasks: _,
            done: _,
        } = hands;
        crew.end(rt);
        memory
    }
}
