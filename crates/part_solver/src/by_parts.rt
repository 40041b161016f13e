//! A step that is solved by parts where that is worth it.

use crate::part_memory::PartMemory;
use crate::parting::{PartPlan, solve_by_parts};
use crate::seat_map::SeatMap;
use crate::sums::MOST_PARTS;
use crate::team::Team;
use colour_solver::StepSums;
use graph_colours::Colours;
use momenta::BodyState;
use plain_world::Constraint;
use std::sync::Wait;
use world_core_base::{Constraints, GatheredRows, MovingSlots, Pace, StepSolver, run_alone};

/// A solver of steps by so many workers, who work the seats of its parts.
#[derive(Drop)]
pub struct PartSolver<'a, R, M> {
    pub rt: &'a R,
    pub mapper: &'a mut M,
    pub memory: &'a mut PartMemory,
    pub workers: usize,
}

impl<R: Wait, M: SeatMap> StepSolver for PartSolver<'_, R, M> {
    fn run_step(
        &mut self,
        states: &mut Vec<BodyState>,
        constraints: &mut Constraints,
        colours: &Colours<Constraint>,
        gathered: &mut GatheredRows,
        moving: MovingSlots,
        pace: Pace,
    ) -> StepSums {
        let memory = &mut *self.memory;
        let workers = self.workers.min(MOST_PARTS);
        let Some(room) = memory.is_worth(
            states.as_slice(),
            &*constraints,
            colours,
            moving.awake,
            workers,
        ) else {
            return run_alone(states, constraints, colours, gathered, moving, pace);
        };
        let plan = PartPlan {
            parts: workers,
            room,
            pace,
        };
        let team = Team {
            rt: self.rt,
            mapper: &mut *self.mapper,
        };
        let solved = solve_by_parts(team, memory, states, constraints, moving, plan);
        match solved {
            Some(outcome) => {
                memory.heed(outcome.long_waits);
                outcome.sums
            }
            None => run_alone(states, constraints, colours, gathered, moving, pace),
        }
    }
}
