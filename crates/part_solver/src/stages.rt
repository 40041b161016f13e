//! The constraints that act in a step, colour after colour, each with the slots of its bodies.

ghost use Rattle.std.specs.Prelude.{◌≡◌, ◌++◌, ◌∷◌, ◌<◌, [], OnOk, length, option_copied, slice_index_or};
ghost use Rattle.plain_world.specs.declared.constraint.Constraint.{Constraint as TheConstraint};
ghost use Rattle.graph_colours.specs.declared.member.Member.{Member as TheMember};
ghost use Rattle.part_solver.specs.Stages.{AreStages, IsStageOf, joint_ends, lists_of, slot_lists, slots_in, slots_of};

use colour_solver::Slots;
use fixed_geom::Refusal;
use graph_colours::{Colours, Member, OVERFLOW};
use plain_world::{BodyJoint, Constraint, item_at};
use std::alloc::Global;

/// The constraints of a colour, or of the overflow, and the slots of the two bodies of each.
#[derive(Drop)]
pub(crate) struct Stage {
    pub(crate) members: Vec<Member<Constraint>>,
    pub(crate) slots: Vec<Slots>,
}

/// The slots of a joint's bodies; 0 and 0 of none.
#[inline(always)]
fn joint_ends(joint: Option<&BodyJoint>) -> Slots
    ensures { result ≡ joint_ends (option_copied joint.entry) }
{
    match joint {
        None => Slots { a: 0, b: 0 },
        Some(joint) => Slots {
            a: joint.a,
            b: joint.b,
        },
    }
}

/// The slots of the bodies of a constraint.
#[inline(always)]
fn slots_in(joints: &[Option<BodyJoint>], id: Constraint) -> Slots
    ensures { result ≡ slots_in joints.now id }
{
    match id {
        Constraint::Joint(handle) => joint_ends(item_at(joints, handle.slot as usize)),
        Constraint::Contact(key) => Slots {
            a: key.first.slot,
            b: key.second.slot,
        },
    }
}

/// The constraint at a place.
#[inline(always)]
fn id_at(members: &[Member<Constraint>], index: usize) -> Constraint
    requires { index < length members.now }
    ensures { (m : TheMember TheConstraint) → result ≡ (slice_index_or members.now index m).id }
{
    members[index].id
}

/// Lists the slots of constraints.
fn list_slots(
    slots: &mut Vec<Slots>,
    joints: &[Option<BodyJoint>],
    members: &[Member<Constraint>],
) -> Result<(), Refusal>
    ensures { OnOk result (slots.new.items ≡ slots_of joints.now members.now) }
{
    slots.clear();
    slots.reserve(members.len())?;
    for index in 0..members.len() {
        let id = id_at(members, index);
        slots.push_reserved(slots_in(joints, id));
    }
    Ok(())
}

/// Fills a stage with the constraints of its colour.
fn fill_stage(
    stage: &mut Stage,
    joints: &[Option<BodyJoint>],
    members: &[Member<Constraint>],
) -> Result<(), Refusal>
    ensures { OnOk result (IsStageOf joints.now members.now stage.new) }
{
    stage.members.clear();
    stage.members.extend_from_slice(members)?;
    list_slots(&mut stage.slots, joints, members)?;
    Ok(())
}

/// A stage whose memory is used again, or a new one.
fn next_stage(alloc: Global, spare: &mut Vec<Stage>) -> Stage {
    match spare.pop() {
        Some(stage) => stage,
        None => Stage {
            members: Vec::new(alloc),
            slots: Vec::new(alloc),
        },
    }
}

/// Takes all stages out of their list, the first of them to be used again first.
fn clear_stages(stages: &mut Vec<Stage>, spare: &mut Vec<Stage>)
    ensures { stages.new.items ≡ [] }
{
    for _ in 0..stages.len() {
        if let Some(stage) = stages.pop() {
            let _ = spare.push(stage);
        }
    }
    stages.clear();
}

/// Adds a stage.
fn push_stage(stages: &mut Vec<Stage>, stage: Stage) -> Result<(), Refusal>
    ensures { OnOk result (stages.new.items ≡ stages.old.items ++ stage ∷ []) }
{
    if stages.push(stage).is_err() {
        return Err(Refusal::NoMemory);
    }
    Ok(())
}

/// Adds a stage with these constraints.
fn add_stage(
    alloc: Global,
    stages: &mut Vec<Stage>,
    spare: &mut Vec<Stage>,
    joints: &[Option<BodyJoint>],
    members: &[Member<Constraint>],
) -> Result<(), Refusal>
    ensures lists { OnOk result (lists_of stages.new.items ≡ lists_of stages.old.items ++ members.now ∷ []) }
    ensures slots { OnOk result (slot_lists stages.new.items ≡ slot_lists stages.old.items ++ slots_of joints.now members.now ∷ []) }
{
    let mut stage = next_stage(alloc, spare);
    fill_stage(&mut stage, joints, members)?;
    push_stage(stages, stage)?;
    Ok(())
}

/// Lists the constraints that act, a stage for each colour and for the overflow, in memory that is kept from step to
/// step.
pub(crate) fn list_stages(
    alloc: Global,
    stages: &mut Vec<Stage>,
    spare: &mut Vec<Stage>,
    joints: &[Option<BodyJoint>],
    colours: &Colours<Constraint>,
) -> Result<(), Refusal>
    requires flushed { colours.now.pending ≡ 0 }
    ensures lists { OnOk result (lists_of stages.new.items ≡ colours.now.lists) }
    ensures are { OnOk result (AreStages joints.now stages.new.items) }
{
    clear_stages(stages, spare);
    for colour in 0..OVERFLOW + 1 {
        add_stage(alloc, stages, spare, joints, colours.members(colour))?;
    }
    Ok(())
}
