//! The joints of a world, as an answer tells them.

ghost use Rattle.plain_world.specs.Bodies.{AreBodies};
ghost use Rattle.plain_world.specs.Joints.{AreJoints};

use body_handles::{Handle, SlotEntry};
use fixed_geom::Refusal;
use plain_world::{BodyJoint, Plain, item_at};
use std::alloc::Global;
use world_core::WorldCore;
use world_script_base::{JointReport, JointView, joint_view};

/// The handle of what is in a slot.
fn handle_in(slot_entries: &[SlotEntry], slot: u32) -> Handle {
    let generation = match slot_entries.get(slot as usize) {
        Some(place) => place.generation,
        None => 0,
    };
    Handle { slot, generation }
}

fn report_of(plain: &Plain, slot: u32, joint: &BodyJoint, view: JointView) -> JointReport {
    JointReport {
        joint: handle_in(plain.joint_entries(), slot),
        a: handle_in(plain.slot_entries(), joint.a),
        b: handle_in(plain.slot_entries(), joint.b),
        ends: (view.from, view.to),
        length: joint.joint.length,
        stretch: view.stretch,
        impulse: joint.joint.impulse,
        set: view.set,
    }
}

/// Adds the joint in a slot, if there is one.
fn add_joint(reports: &mut Vec<JointReport>, plain: &Plain, slot: u32) -> Result<(), Refusal>
    requires bodies { AreBodies plain.now.bodies }
    requires joints { AreJoints plain.now.bodies plain.now.joints }
{
    let Some(joint) = item_at(plain.joints(), slot as usize) else {
        return Ok(());
    };
    match joint_view(plain.bodies(), plain.joints(), slot as usize) {
        Some(view) => Ok(reports.push(report_of(plain, slot, joint, view))?),
        None => Ok(()),
    }
}

fn list_joints(alloc: Global, plain: &Plain) -> Result<Vec<JointReport>, Refusal>
    requires bodies { AreBodies plain.now.bodies }
    requires joints { AreJoints plain.now.bodies plain.now.joints }
{
    let mut reports = Vec::new(alloc);
    let count = u32::try_from(plain.joints().len()).unwrap_or(u32::MAX);
    for slot in 0..count {
        add_joint(&mut reports, plain, slot)?;
    }
    Ok(reports)
}

/// The joints by slot.
pub(crate) fn joints_of(alloc: Global, world: &WorldCore) -> Result<Vec<JointReport>, Refusal> {
    let plain = world.plain()?;
    list_joints(alloc, &plain)
}
