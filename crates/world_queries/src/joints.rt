//! Joints: what can be seen of one, and which a body has (Box2D: `b2Joint_GetBodyA` and its like, `b2Body_GetJoints`).

ghost use Rattle.std.specs.Prelude.{◌≡◌, IfOk, map};
ghost use Rattle.std.specs.Result.{IsOkUnless};
ghost use Rattle.solver_sets.specs.Joining.{handle_at};
ghost use Rattle.world_queries.specs.Joints.{joint_seen, joint_view, joints_at};

use crate::live::{handle_at, is_live};
use body_handles::SlotEntry;
use fixed_geom::Refusal;
use plain_world::{BodyJoint, item_at};
use std::alloc::Global;
use world_core::{Handle, Joint, WorldCore};

/// What can be seen of a joint: the ids of its two bodies, whether they may collide, and its anchors (u, from each
/// body's centre in the body's own axes), its length (u) and the impulse that it keeps (mass·u/tick).
#[derive(Clone, Copy, Debug, PartialEq, Eq)]
pub struct JointView {
    pub a: Handle,
    pub b: Handle,
    pub collide: bool,
    pub joint: Joint,
}

fn joint_view(slot_entries: &[SlotEntry], joint: &BodyJoint) -> JointView
    ensures { result ≡ joint_view slot_entries.now joint.now }
{
    JointView {
        a: handle_at(slot_entries, joint.a),
        b: handle_at(slot_entries, joint.b),
        collide: joint.collide,
        joint: joint.joint,
    }
}

/// What can be seen of a joint; `None` where the handle names none.
pub fn joint(world: &WorldCore, handle: Handle) -> Option<JointView>
    ensures { result ≡ joint_seen world.now.plain handle }
{
    if !is_live(world.joint_entries(), handle) {
        return None;
    }
    match item_at(world.joints().joints(), handle.slot as usize) {
        None => None,
        Some(joint) => Some(joint_view(world.slot_entries(), joint)),
    }
}

/// The ids of the joints that have the body in a slot as an end, ascending by their slots. Costs by how many there are.
pub fn joints_of(alloc: Global, world: &WorldCore, slot: u32) -> Result<Vec<Handle>, Refusal>
    ensures joints { IfOk result (λ joints. joints.items ≡ joints_at slot world.now.plain) }
    ensures memory_only { IsOkUnless result Refusal.NoMemory }
{
    let slots = world.joints().slots_of(slot)?;
    list_handles(alloc, world.joint_entries(), &slots)
}

/// The ids at which these slots were given out.
fn list_handles(
    alloc: Global,
    slot_entries: &[SlotEntry],
    slots: &[u32],
) -> Result<Vec<Handle>, Refusal>
    ensures handles { IfOk result (λ handles. handles.items ≡ map (handle_at slot_entries.now) slots.now) }
    ensures memory_only { IsOkUnless result Refusal.NoMemory }
{
    let mut handles = Vec::with_capacity(alloc, slots.len())?;
    for slot in slots {
        handles.push(handle_at(slot_entries, *slot))?;
    }
    Ok(handles)
}
