//! The joints of one body, by the slots that the table of joints has of them: whom they join, and which constraints
//! they are.

ghost use Rattle.std.specs.Prelude.{◌≡◌, ◌<◌, ◌≤◌, IfOk, length, map, vec_capacity};
ghost use Rattle.std.specs.Option.{option_copied};
ghost use Rattle.std.specs.Result.{IsOkUnless};
ghost use Rattle.world_core_base.specs.JointTables.{own_slots};
ghost use Rattle.plain_world.specs.Joints.{joint_at};
ghost use Rattle.plain_world.specs.Slots.{AreMatched};
ghost use Rattle.solver_sets.specs.Beside.{joined_to};
ghost use Rattle.solver_sets.specs.Joining.{handle_at};
ghost use Rattle.solver_sets.specs.Ties.{joint_ties_at, slots_of};
ghost use Rattle.solver_sets.specs.BesideByTies.{joint_tie_of};

use body_handles::{Handle, SlotEntry};
use fixed_geom::Refusal;
use graph_colours::Member;
use plain_world::{Body, BodyJoint, Constraint, item_at};
use sleep_wake::put_some;
use solver_sets::joint_tie;
use std::alloc::Global;
use world_core_base::JointTable;

/// The joints in these slots.
fn joints_in(
    alloc: Global,
    joints: &[Option<BodyJoint>],
    slots: &[u32],
) -> Result<Vec<Option<BodyJoint>>, Refusal>
    ensures joints { IfOk result (λ found. found.items ≡ map (joint_at joints.now) slots.now) }
    ensures memory_only { IsOkUnless result Refusal.NoMemory }
{
    let mut found = Vec::with_capacity(alloc, slots.len())?;
    for place in 0..slots.len() {
        found.push(item_at(joints, slots[place] as usize).copied())?;
    }
    Ok(found)
}

/// The movers at the other ends of the joints of the body in a slot, which are in these slots, in their order.
pub(crate) fn list_joined(
    alloc: Global,
    bodies: &[Option<Body>],
    joints: &[Option<BodyJoint>],
    slots: &[u32],
    body: u32,
) -> Result<Vec<u32>, Refusal>
    requires { slots.now ≡ own_slots body joints.now }
    ensures slots { IfOk result (λ joined. joined.items ≡ joined_to bodies.now joints.now body) }
    ensures memory_only { IsOkUnless result Refusal.NoMemory }
{
    let own = joints_in(alloc, joints, slots)?;
    let joined = solver_sets::list_joined(alloc, bodies, &own, body)?;
    Ok(joined)
}

/// The tie of a joint, if there is one and one of its ends is the body.
fn joint_tie_of(
    bodies: &[Option<Body>],
    body: u32,
    handle: Handle,
    joint: Option<&BodyJoint>,
) -> Option<Member<Constraint>>
    ensures { result ≡ joint_tie_of bodies.now body handle (option_copied joint.entry) }
{
    match joint {
        None => None,
        Some(joint) => {
            if joint.is_of(body) {
                joint_tie(bodies, handle, joint)
            } else {
                None
            }
        }
    }
}

/// The tie of the joint in a slot, if one of its ends is the body.
fn tie_at(
    bodies: &[Option<Body>],
    slot_entries: &[SlotEntry],
    joints: &[Option<BodyJoint>],
    slot: u32,
    body: u32,
) -> Option<Member<Constraint>>
    requires { slot < length slot_entries.now }
    ensures { result ≡ joint_tie_of bodies.now body (handle_at slot_entries.now slot) (joint_at joints.now slot) }
{
    let handle = Handle {
        slot,
        generation: slot_entries[slot as usize].generation,
    };
    joint_tie_of(bodies, body, handle, item_at(joints, slot as usize))
}

/// Fills a list, which has room for a tie of each of these slots, with the ties of the joints of a body, which are in
/// these slots, in their order.
pub(crate) fn fill_joint_ties(
    ties: &mut Vec<Member<Constraint>>,
    bodies: &[Option<Body>],
    slot_entries: &[SlotEntry],
    joints: &[Option<BodyJoint>],
    slots: &[u32],
    body: u32,
)
    requires matched { AreMatched slot_entries.now joints.now }
    requires slots { slots.now ≡ own_slots body joints.now }
    requires room { length slots.now ≤ vec_capacity ties.old }
    ensures ties { ties.new.items ≡ joint_ties_at body bodies.now (slots_of slot_entries.now joints.now) }
    ensures few { length ties.new.items ≤ length slots.now }
{
    ties.clear();
    for place in 0..slots.len() {
        put_some(
            ties,
            tie_at(bodies, slot_entries, joints, slots[place], body),
        );
    }
}

/// The ties of the joints of the body in a slot, in ascending order of the joints' slots. Costs by how many joints it
/// has.
pub(crate) fn joint_ties(
    alloc: Global,
    bodies: &[Option<Body>],
    slot_entries: &[SlotEntry],
    joints: &JointTable,
    body: u32,
) -> Result<Vec<Member<Constraint>>, Refusal>
    requires { AreMatched slot_entries.now joints.now.joints }
    ensures ties { IfOk result (λ ties. ties.items ≡ joint_ties_at body bodies.now (slots_of slot_entries.now joints.now.joints)) }
    ensures memory_only { IsOkUnless result Refusal.NoMemory }
{
    let slots = joints.slots_of(body)?;
    let mut ties = Vec::with_capacity(alloc, slots.len())?;
    fill_joint_ties(
        &mut ties,
        bodies,
        slot_entries,
        joints.joints(),
        &slots,
        body,
    );
    Ok(ties)
}
