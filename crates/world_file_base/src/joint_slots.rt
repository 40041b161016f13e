//! The slots of joints, read and written.

ghost use Rattle.std.specs.Prelude.{◌≡◌, ◌∷◌, ◌++◌, [], IfErr, IfOk, OnOk, option_map};
ghost use Rattle.std.specs.Result.{IsOkUnless};
ghost use Rattle.world_file_base.specs.Reading.{items_in, seen};
ghost use Rattle.world_file_base.specs.Written.{written};
ghost use Rattle.world_file_base.specs.declared.clause.Broken.TheVariants.{NoMemory};
ghost use Rattle.world_file_base.specs.SavedSlots.{
  joint_key,
  joint_slot_of,
  joints_in,
  joints_data,
  slot_entry_in,
  slot_entries_in,
  put_item,
  slot_joint,
};
ghost use Rattle.world_file_base.specs.AskedSlots.{item_asks, joint_slot_asks, joints_asks, slots_asks, joint_asks};
ghost use Rattle.world_file_base.specs.SavedJoints.{joint_in, joint_data};
ghost use Rattle.serde_json.specs.View.{items_view, view};

use crate::clause::Broken;
use crate::counts::lesser;
use crate::joints::{joint_value, read_joint};
use crate::members::{Members, array_value};
use crate::reader::Reader;
use crate::saved::{SavedJoint, SavedJoints};
use crate::slots::{read_slot_entry, read_slots};
use crate::values::field;
use crate::version::Version;
use body_handles::SlotEntry;
use fixed_geom::Refusal;
use plain_world::BodyJoint;
use serde_json::Value;
use std::alloc::Global;

/// Reads what is in a slot of joints.
fn read_slot_joint(
    reader: &mut Reader,
    value: Option<&Value>,
    version: Version,
) -> Option<SavedJoint>
    ensures value { result ≡ option_map (joint_in version) (seen value.entry) }
    ensures asked { reader.new ≡ item_asks (joint_asks version) (seen value.entry) reader.old }
{
    match value {
        Some(item) => Some(read_joint(reader, item, version)),
        None => None,
    }
}

/// Reads a slot of joints.
fn read_joint_slot(
    reader: &mut Reader,
    value: &Value,
    version: Version,
    joints: &mut SavedJoints,
) -> Result<(), Broken>
    ensures slot_entries { OnOk result (joints.new.slot_entries.items ≡ joints.old.slot_entries.items ++ slot_entry_in joint_key (view value.now) ∷ []) }
    ensures joints { OnOk result (joints.new.joints.items ≡ joints.old.joints.items ++ slot_joint version (view value.now) ∷ []) }
    ensures asked { OnOk result (reader.new ≡ joint_slot_asks version (view value.now) reader.old) }
    ensures memory { IfErr result (λ e. e ≡ NoMemory) }
{
    let slot_entry = read_slot_entry(reader, value, "joint");
    let joint = read_slot_joint(reader, field(value, "joint"), version);
    joints.slot_entries.push(slot_entry)?;
    joints.joints.push(joint)?;
    Ok(())
}

/// Reads each slot of joints of a list.
fn read_each_joint(
    alloc: Global,
    reader: &mut Reader,
    slots: &[Value],
    version: Version,
) -> Result<SavedJoints, Broken>
    ensures slot_entries { IfOk result (λ saved. saved.slot_entries.items ≡ slot_entries_in joint_key (items_view slots.now)) }
    ensures joints { IfOk result (λ saved. saved.joints.items ≡ joints_in version (items_view slots.now)) }
    ensures asked { OnOk result (reader.new ≡ joints_asks version (items_view slots.now) reader.old) }
    ensures memory { IfErr result (λ e. e ≡ NoMemory) }
{
    let mut joints = SavedJoints {
        slot_entries: Vec::new(alloc),
        joints: Vec::new(alloc),
    };
    for slot in slots {
        read_joint_slot(reader, slot, version, &mut joints)?;
    }
    Ok(joints)
}

/// Reads the joints of a world.
pub fn read_joints(
    alloc: Global,
    reader: &mut Reader,
    value: Option<&Value>,
    version: Version,
) -> Result<SavedJoints, Broken>
    ensures slot_entries { IfOk result (λ saved. saved.slot_entries.items ≡ slot_entries_in joint_key (items_in (seen value.entry))) }
    ensures joints { IfOk result (λ saved. saved.joints.items ≡ joints_in version (items_in (seen value.entry))) }
    ensures asked { OnOk result (reader.new ≡ joints_asks version (items_in (seen value.entry)) (slots_asks version (seen value.entry) reader.old)) }
    ensures memory { IfErr result (λ e. e ≡ NoMemory) }
{
    let slots = read_slots(reader, value, version);
    read_each_joint(alloc, reader, slots, version)
}

fn put_joint(
    members: &mut Members,
    alloc: Global,
    slot_entries: &[SlotEntry],
    entry: &Option<BodyJoint>,
    colour: Option<u8>,
) -> Result<(), Refusal>
    ensures put { OnOk result (written members.new ≡ put_item joint_key (option_map (λ j. joint_data slot_entries.now j colour) entry.now) (written members.old)) }
    ensures memory_only { IsOkUnless result Refusal.NoMemory }
{
    match entry {
        Some(joint) => members.put("joint", joint_value(alloc, slot_entries, joint, colour)?),
        None => Ok(()),
    }
}

fn joint_slot_value(
    alloc: Global,
    slot_entries: &[SlotEntry],
    slot_entry: SlotEntry,
    entry: &Option<BodyJoint>,
    colour: Option<u8>,
) -> Result<Value, Refusal>
    ensures value { IfOk result (λ value. view value ≡ joint_slot_of slot_entries.now slot_entry entry.now colour) }
    ensures memory_only { IsOkUnless result Refusal.NoMemory }
{
    let mut members = Members::new(alloc);
    put_joint(&mut members, alloc, slot_entries, entry, colour)?;
    members.put("generation", Value::from(slot_entry.generation))?;
    Ok(members.object())
}

/// The joints as they are written, between bodies of these slot entries, each with its colour.
pub fn joints_value(
    alloc: Global,
    slot_entries: &[SlotEntry],
    joint_entries: &[SlotEntry],
    joints: &[Option<BodyJoint>],
    colours: &[Option<u8>],
) -> Result<Value, Refusal>
    ensures value { IfOk result (λ value. view value ≡ joints_data slot_entries.now joint_entries.now joints.now colours.now) }
    ensures memory_only { IsOkUnless result Refusal.NoMemory }
{
    let mut items = Vec::new(alloc);
    for slot in 0..lesser(lesser(joint_entries.len(), joints.len()), colours.len()) {
        let item = joint_slot_value(
            alloc,
            slot_entries,
            joint_entries[slot],
            &joints[slot],
            colours[slot],
        )?;
        items.push(item)?;
    }
    Ok(array_value(items))
}
