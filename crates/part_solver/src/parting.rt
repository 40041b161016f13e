//! A step that is solved by parts, and read back from them.

ghost use Rattle.std.specs.Prelude.{◌≡◌, ◌≤◌, ◌^◌, None, length, IfSome};
ghost use Rattle.fixed_geom.specs.Vectors.{IsWithin};
ghost use Rattle.graph_colours.specs.Colours.{all_members};
ghost use Rattle.colour_solver.specs.States.{carried_of, movers_of};
ghost use Rattle.part_solver.specs.Parts.{AreDealt};
ghost use Rattle.part_solver.specs.Lending.{CanLend};
ghost use Rattle.part_solver.specs.Stages.{lists_of};
ghost use Rattle.world_core_base.specs.StepRuns.{HasLeft, HaveImpulses, run_over};

use crate::back::read_back;
use crate::lending::lend_to_parts;
use crate::part_memory::PartMemory;
use crate::run::Outcome;
use crate::seat_map::SeatMap;
use crate::stages::Stage;
use crate::team::Team;
use body_handles::MAX_SLOTS;
use graph_colours::COLOURS;
use momenta::BodyState;
use std::sync::Wait;
use world_core_base::{Constraints, MovingSlots, Pace};

/// How a step is run by parts: by how many, for how many bodies each ring has room, and its pace.
#[derive(Clone, Copy)]
pub(crate) struct PartPlan {
    pub(crate) parts: usize,
    pub(crate) room: usize,
    pub(crate) pace: Pace,
}

/// How many constraints there are in some stages.
fn count_rows(stages: &[Stage]) -> Option<usize>
    ensures { IfSome result (λ count. count ≡ length (all_members (lists_of stages.now))) }
{
    let mut count: usize = 0;
    for number in 0..stages.len() {
        count = count.checked_add(stages[number].members.len())?;
    }
    Some(count)
}

/// Runs the ticks of a step by parts. Answers as `run_step` does, or nothing, and then nothing is changed: where memory
/// is wanting, or where the sums are too large.
pub(crate) fn solve_by_parts<R: Wait, M: SeatMap>(
    team: Team<'_, R, M>,
    memory: &mut PartMemory,
    states: &mut Vec<BodyState>,
    constraints: &mut Constraints,
    moving: MovingSlots,
    plan: PartPlan,
) -> Option<Outcome>
    requires few { length states.old.items ≤ MAX_SLOTS }
    requires gravity { IsWithin (2 ^ 16) plan.pace.gravity }
    requires count { plan.pace.count ≤ 8 }
    requires lend { CanLend states.old.items constraints.old.joints.joints constraints.old.contacts.contacts memory.old.lists.stages.items }
    requires awake { moving.awake.now ≡ movers_of states.old.items }
    requires carried { moving.carried.now ≡ carried_of states.old.items }
    requires dealt { AreDealt memory.old.deal.home.items plan.parts states.old.items }
    ensures left { IfSome result (λ outcome. HasLeft (run_over plan.pace.count plan.pace.gravity states.old.items constraints.old.joints.joints constraints.old.contacts.contacts (lists_of memory.old.lists.stages.items)) states.old.items states.new.items outcome.sums) }
    ensures impulses { IfSome result (λ outcome. HaveImpulses (run_over plan.pace.count plan.pace.gravity states.old.items constraints.old.joints.joints constraints.old.contacts.contacts (lists_of memory.old.lists.stages.items)) constraints.old.joints.joints constraints.old.contacts.contacts constraints.new.joints.joints constraints.new.contacts.contacts outcome.sums) }
    ensures numbered { constraints.new.contacts.numbered ≡ constraints.old.contacts.numbered }
    ensures states { result ≡ None → states.new.items ≡ states.old.items }
    ensures joints { result ≡ None → constraints.new.joints.joints ≡ constraints.old.joints.joints }
    ensures contacts { result ≡ None → constraints.new.contacts.contacts ≡ constraints.old.contacts.contacts }
{
    let all = count_rows(&memory.lists.stages)?;
    if memory
        .lists
        .prepare(states.len(), all, COLOURS, moving, plan.parts)
        .is_err()
    {
        return None;
    }
    if !lend_to_parts(team, memory, states, constraints, plan) {
        return None;
    }
    read_back(
        &memory.lists,
        memory.deal.home.as_slice(),
        states,
        constraints,
    )
}
