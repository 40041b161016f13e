//! A joint in the tables of a world and among its constraints: how it comes and how it is taken out.

ghost use Rattle.std.specs.Prelude.{◌≡◌, ◌≢◌, ◌<◌, None, OnOk, Some, length, slice_set};
ghost use Rattle.std.specs.Option.{option_copied};
ghost use Rattle.std.specs.Result.{result_err};
ghost use Rattle.body_handles.specs.SlotEntries.{IsLive, slot_entries_without};
ghost use Rattle.plain_world.specs.Joints.{IsBodyJoint, is_end_in, joint_made, joint_of};
ghost use Rattle.joint_rows.specs.Joints.{IsJoint};
ghost use Rattle.world_core_base.specs.JointTables.{own_slots};
ghost use Rattle.plain_world.specs.Slots.{AreMatched, body_of};
ghost use Rattle.world_rules.specs.Apply.{join_refusal};
ghost use Rattle.solver_sets.specs.Joining.{unjoined_all, unjoined_if};
ghost use Rattle.solver_sets.specs.Ties.{slots_of};

use body_handles::{Handle, Handles};
use fixed_geom::Refusal;
use plain_world::{Body, BodyJoint, JointDef, body_of, item_at};
use world_core_base::JointTable;

/// Tests whether two bodies can be joined so: refused 7, 8 or 5, in this order.
fn can_join(a: &Body, b: &Body, def: &JointDef) -> Result<(), Refusal>
    ensures refusal { result_err result ≡ join_refusal (Some a.now) (Some b.now) def.now }
    ensures apart { OnOk result (def.now.a.slot ≢ def.now.b.slot) }
    ensures joint { OnOk result (IsJoint (joint_made def.now).joint) }
{
    if def.a.slot == def.b.slot {
        return Err(Refusal::SameBody);
    }
    if !a.enabled {
        return Err(Refusal::BodyDisabled);
    }
    if !b.enabled {
        return Err(Refusal::BodyDisabled);
    }
    def.check()
}

/// Tests whether a joint can be made: refused 2, 7, 8 or 5, in this order.
pub(crate) fn check_join(
    handles: &Handles,
    bodies: &[Option<Body>],
    def: &JointDef,
) -> Result<(), Refusal>
    ensures refusal { result_err result ≡ join_refusal (body_of handles.now.slot_entries bodies.now def.now.a) (body_of handles.now.slot_entries bodies.now def.now.b) def.now }
    ensures joint { OnOk result (IsBodyJoint bodies.now (joint_made def.now)) }
{
    match (
        body_of(handles, bodies, def.a),
        body_of(handles, bodies, def.b),
    ) {
        (Some(a), Some(b)) => can_join(a, b, def),
        _ => Err(Refusal::StaleHandle),
    }
}

/// Whether one of the ends of a joint, if there is one, is the body in this slot.
fn is_end_in(body: u32, joint: Option<&BodyJoint>) -> bool
    ensures { result ≡ is_end_in body (option_copied joint.entry) }
{
    match joint {
        None => false,
        Some(joint) => joint.is_of(body),
    }
}

/// The joint in a slot goes, if one of its ends is the body.
fn drop_if(handles: &mut Handles, joints: &mut JointTable, body: u32, slot: u32)
    requires matched { AreMatched handles.old.slot_entries joints.old.joints }
    requires slot { slot < length joints.old.joints }
    ensures gone { slots_of handles.new.slot_entries joints.new.joints ≡ unjoined_if body slot (slots_of handles.old.slot_entries joints.old.joints) }
    ensures matched { AreMatched handles.new.slot_entries joints.new.joints }
    ensures slots { length joints.new.joints ≡ length joints.old.joints }
{
    if is_end_in(body, item_at(joints.joints(), slot as usize)) {
        let handle = Handle {
            slot,
            generation: handles.slot_entries()[slot as usize].generation,
        };
        joints.clear(slot);
        handles.remove(handle);
    }
}

/// The joints of the body in a slot go, which are in these slots, in ascending order.
pub(crate) fn drop_joints(handles: &mut Handles, joints: &mut JointTable, body: u32, slots: &[u32])
    requires matched { AreMatched handles.old.slot_entries joints.old.joints }
    requires slots { slots.now ≡ own_slots body joints.old.joints }
    ensures gone { slots_of handles.new.slot_entries joints.new.joints ≡ unjoined_all body (slots_of handles.old.slot_entries joints.old.joints) }
{
    for place in 0..slots.len() {
        drop_if(handles, joints, body, slots[place]);
    }
}

/// The joint that a handle names; `None` where it names none that lives.
pub(crate) fn joint_of(handles: &Handles, joints: &JointTable, handle: Handle) -> Option<BodyJoint>
    ensures { result ≡ joint_of handles.now.slot_entries joints.now.joints handle }
{
    if handles.is_live(handle) {
        item_at(joints.joints(), handle.slot as usize).copied()
    } else {
        None
    }
}
