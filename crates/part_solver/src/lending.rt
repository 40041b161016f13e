//! What a step works on is lent to its parts, and comes back whole.

ghost use Rattle.std.specs.Prelude.{◌≡◌, ◌<◌, ◌≤◌, ℕ, [], true, length, vec_capacity, All};
ghost use Rattle.std.specs.Arc.{arc_value};
ghost use Rattle.colour_solver.specs.States.{carried_of, movers_of};
ghost use Rattle.part_runs.specs.Laws.{AreHomes};
ghost use Rattle.part_runs.specs.Runs.{part_ran};
ghost use Rattle.part_solver.specs.Parts.{run_at};
ghost use Rattle.part_solver.specs.Benches.{IsRoomyFor};
ghost use Rattle.part_solver.specs.Lending.{CanLend, IsLent, step_of, step_over};
ghost use Rattle.part_solver.specs.Steps.{CanSolve};

use crate::lent::Lent;
use crate::part_memory::PartMemory;
use crate::parting::PartPlan;
use crate::seat_map::SeatMap;
use crate::seating::run_parts;
use crate::stages::Stage;
use crate::step_lists::StepLists;
use crate::sums::MOST_PARTS;
use crate::team::Team;
use crew::sole;
use momenta::BodyState;
use std::alloc::Global;
use std::mem;
use std::snapshot::Snapshot;
use std::sync::{Arc, Wait};
use world_core_base::{Constraints, Pace};

/// Takes a list out of its place, where an empty one stands then.
fn taken<T>(alloc: Global, list: &mut Vec<T>) -> Vec<T>
    ensures { result.items ≡ list.old.items }
{
    mem::replace(list, Vec::new(alloc))
}

/// Joints, contacts and stages, which are taken out of their places.
fn take_lent(alloc: Global, stages: &mut Vec<Stage>, constraints: &mut Constraints) -> Lent
    ensures joints { result.constraints.joints.joints ≡ constraints.old.joints.joints }
    ensures contacts { result.constraints.contacts.contacts ≡ constraints.old.contacts.contacts }
    ensures numbered { result.constraints.contacts.numbered ≡ constraints.old.contacts.numbered }
    ensures stages { result.stages.items ≡ stages.old.items }
{
    Lent {
        constraints: mem::replace(constraints, Constraints::new(alloc)),
        stages: taken(alloc, stages),
    }
}

/// Puts them back into their places.
fn put_lent(lent: Lent, stages: &mut Vec<Stage>, constraints: &mut Constraints)
    ensures joints { constraints.new.joints.joints ≡ lent.constraints.joints.joints }
    ensures contacts { constraints.new.contacts.contacts ≡ lent.constraints.contacts.contacts }
    ensures numbered { constraints.new.contacts.numbered ≡ lent.constraints.contacts.numbered }
{
    let Lent {
        constraints: own_constraints,
        stages: own_stages,
    } = lent;
    *constraints = own_constraints;
    *stages = own_stages;
}

/// The lists of a step, which are taken out of their places.
fn take_step(
    memory: &mut PartMemory,
    states: &mut Vec<BodyState>,
    lent: &Lent,
    pace: Pace,
) -> StepLists
    requires can { CanSolve (step_of states.old.items lent.now memory.old.deal.home.items pace) }
    requires awake { memory.old.lists.awake.items ≡ movers_of states.old.items }
    requires carried { memory.old.lists.carried.items ≡ carried_of states.old.items }
    ensures step { result ≡ step_of states.old.items lent.now memory.old.deal.home.items pace }
    ensures seats { memory.new.lists.seats ≡ memory.old.lists.seats }
    ensures parts { memory.new.lists.parts ≡ memory.old.lists.parts }
    ensures benches { memory.new.lists.benches ≡ memory.old.lists.benches }
{
    let alloc = memory.lists.alloc;
    StepLists {
        states: taken(alloc, states),
        lent: Snapshot::of(lent),
        home: taken(alloc, &mut memory.deal.home),
        awake: taken(alloc, &mut memory.lists.awake),
        carried: taken(alloc, &mut memory.lists.carried),
        gravity: pace.gravity,
        count: pace.count,
    }
}

/// Puts them back into their places.
fn put_step(step: StepLists, memory: &mut PartMemory, states: &mut Vec<BodyState>)
    ensures states { states.new.items ≡ step.states }
    ensures home { memory.new.deal.home.items ≡ step.home }
    ensures parts { memory.new.lists.parts ≡ memory.old.lists.parts }
{
    let StepLists {
        states: own_states,
        lent: _,
        home,
        awake,
        carried,
        gravity: _,
        count: _,
    } = step;
    *states = own_states;
    memory.deal.home = home;
    memory.lists.awake = awake;
    memory.lists.carried = carried;
}

/// Runs all parts of a step, and answers whether they have run: not where memory is wanting. Its bodies and their homes
/// come back as they were.
fn solve_parts<R: Wait, M: SeatMap>(
    team: Team<'_, R, M>,
    memory: &mut PartMemory,
    states: &mut Vec<BodyState>,
    lent: &Arc<Lent, Global>,
    plan: PartPlan,
) -> bool
    requires can { CanSolve (step_of states.old.items (arc_value lent.now) memory.old.deal.home.items plan.pace) }
    requires lent { IsLent states.old.items (arc_value lent.now) }
    requires awake { memory.old.lists.awake.items ≡ movers_of states.old.items }
    requires carried { memory.old.lists.carried.items ≡ carried_of states.old.items }
    requires few { length memory.old.lists.benches.items ≤ MOST_PARTS }
    requires homes { AreHomes (length memory.old.lists.benches.items) (step_of states.old.items (arc_value lent.now) memory.old.deal.home.items plan.pace) }
    requires rooms { All (IsRoomyFor (step_of states.old.items (arc_value lent.now) memory.old.deal.home.items plan.pace)) memory.old.lists.benches.items }
    requires no_seats { memory.old.lists.seats.items ≡ [] }
    requires no_parts { memory.old.lists.parts.items ≡ [] }
    requires parts_room { length memory.old.lists.benches.items ≤ vec_capacity memory.old.lists.parts }
    ensures states { states.new.items ≡ states.old.items }
    ensures home { memory.new.deal.home.items ≡ memory.old.deal.home.items }
    ensures runs { result ≡ true → (k : ℕ) → k < length memory.new.lists.parts.items → run_at memory.new.lists.parts.items k ≡ part_ran (step_of states.old.items (arc_value lent.now) memory.old.deal.home.items plan.pace) k }
    ensures as_many { result ≡ true → length memory.new.lists.parts.items ≡ length memory.old.lists.benches.items }
{
    let step = take_step(memory, states, &**lent, plan.pace);
    match Arc::new(memory.lists.alloc, step) {
        Err(failed) => {
            put_step(failed.value, memory, states);
            false
        }
        Ok(step) => {
            let solved = run_parts(team.mapper, &mut memory.lists, &step, lent, plan.room);
            put_step(sole(team.rt, step), memory, states);
            solved
        }
    }
}

/// The same, for which joints and contacts are lent to the parts. They come back whole.
pub(crate) fn lend_to_parts<R: Wait, M: SeatMap>(
    team: Team<'_, R, M>,
    memory: &mut PartMemory,
    states: &mut Vec<BodyState>,
    constraints: &mut Constraints,
    plan: PartPlan,
) -> bool
    requires can { CanSolve (step_over states.old.items constraints.old.joints.joints constraints.old.contacts.contacts memory.old.lists.stages.items memory.old.deal.home.items plan.pace) }
    requires lend { CanLend states.old.items constraints.old.joints.joints constraints.old.contacts.contacts memory.old.lists.stages.items }
    requires homes { AreHomes (length memory.old.lists.benches.items) (step_over states.old.items constraints.old.joints.joints constraints.old.contacts.contacts memory.old.lists.stages.items memory.old.deal.home.items plan.pace) }
    requires rooms { All (IsRoomyFor (step_over states.old.items constraints.old.joints.joints constraints.old.contacts.contacts memory.old.lists.stages.items memory.old.deal.home.items plan.pace)) memory.old.lists.benches.items }
    requires awake { memory.old.lists.awake.items ≡ movers_of states.old.items }
    requires carried { memory.old.lists.carried.items ≡ carried_of states.old.items }
    requires few { length memory.old.lists.benches.items ≤ MOST_PARTS }
    requires no_seats { memory.old.lists.seats.items ≡ [] }
    requires no_parts { memory.old.lists.parts.items ≡ [] }
    requires parts_room { length memory.old.lists.benches.items ≤ vec_capacity memory.old.lists.parts }
    ensures states { states.new.items ≡ states.old.items }
    ensures home { memory.new.deal.home.items ≡ memory.old.deal.home.items }
    ensures joints { constraints.new.joints.joints ≡ constraints.old.joints.joints }
    ensures contacts { constraints.new.contacts.contacts ≡ constraints.old.contacts.contacts }
    ensures numbered { constraints.new.contacts.numbered ≡ constraints.old.contacts.numbered }
    ensures runs { result ≡ true → (k : ℕ) → k < length memory.new.lists.parts.items → run_at memory.new.lists.parts.items k ≡ part_ran (step_over states.old.items constraints.old.joints.joints constraints.old.contacts.contacts memory.old.lists.stages.items memory.old.deal.home.items plan.pace) k }
    ensures as_many { result ≡ true → length memory.new.lists.parts.items ≡ length memory.old.lists.benches.items }
{
    let rt = team.rt;
    let lent = take_lent(memory.lists.alloc, &mut memory.lists.stages, constraints);
    match Arc::new(memory.lists.alloc, lent) {
        Err(failed) => {
            put_lent(failed.value, &mut memory.lists.stages, constraints);
            false
        }
        Ok(lent) => {
            let solved = solve_parts(team, memory, states, &lent, plan);
            put_lent(sole(rt, lent), &mut memory.lists.stages, constraints);
            solved
        }
    }
}
