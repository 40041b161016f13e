//! The slots of joints, written.

ghost use Rattle.std.specs.Prelude.{◌≡◌, ◌∷◌, [], List, Some, IfOk, OnOk, nat_eq, string_bytes};
ghost use Rattle.std.specs.HashMap.{get};
ghost use Rattle.body_handles.specs.declared.slot_table.SlotEntry.{SlotEntry};
ghost use Rattle.serde_json.specs.Data.{string};
ghost use Rattle.world_file_base.specs.SavedJoints.{id_at, joint_data};
ghost use Rattle.world_file_base.specs.SavedSlots.{joint_slot_of, joints_data};
ghost use Rattle.world_file.specs.Taken.{joint_colours_by};
ghost use Rattle.saved_text.specs.Tokens.{AddsValue};

use crate::bodies::put_free;
use crate::leaves::Leaf;
use crate::members::{put_members, put_object};
use body_handles::{Handle, IdText, SlotEntry};
use json::Writer;
use plain_world::BodyJoint;
use std::alloc::{AllocError, Global};
use std::collections::HashMap;
use world_file::{colour_at, joint_number};
use world_file_base::lesser;

/// The id of the body in a slot.
fn name_at(alloc: Global, slot_entries: &[SlotEntry], slot: u32) -> Result<String, AllocError>
    ensures name { IfOk result (λ name. string (string_bytes name) ≡ id_at slot_entries.now slot) }
{
    let generation = match slot_entries.get(slot as usize) {
        Some(slot_entry) => slot_entry.generation,
        None => 0,
    };
    let id = IdText(Handle { slot, generation });
    let name = format!(in alloc; "{id}")?;
    Ok(name)
}

/// Writes a joint between bodies of these names.
fn put_named<'a>(
    out: &mut Writer,
    joint: &'a BodyJoint,
    a: &'a str,
    b: &'a str,
    colour: Option<u8>,
) -> Result<(), AllocError>
    ensures text { (slot_entries : List SlotEntry) → string a.now ≡ id_at slot_entries joint.now.a → string b.now ≡ id_at slot_entries joint.now.b → OnOk result (AddsValue (joint_data slot_entries joint.now colour) out.old out.new) }
{
    put_object(
        out,
        &[
            ("a", Leaf::Text(a)),
            ("b", Leaf::Text(b)),
            ("collide", Leaf::Truth(joint.collide)),
            ("colour", Leaf::Colour(colour)),
            ("from", Leaf::Vector(joint.joint.from)),
            ("impulse", Leaf::Integer(&joint.joint.impulse)),
            ("length", Leaf::Integer(&joint.joint.length)),
            ("to", Leaf::Vector(joint.joint.to)),
        ],
    )
}

/// Writes a joint between bodies of these slot entries, with its colour if it acts.
fn put_joint(
    out: &mut Writer,
    alloc: Global,
    slot_entries: &[SlotEntry],
    joint: &BodyJoint,
    colour: Option<u8>,
) -> Result<(), AllocError>
    ensures text { OnOk result (AddsValue (joint_data slot_entries.now joint.now colour) out.old out.new) }
{
    let a = name_at(alloc, slot_entries, joint.a)?;
    let b = name_at(alloc, slot_entries, joint.b)?;
    put_named(out, joint, &a, &b, colour)?;
    Ok(())
}

fn put_taken(
    out: &mut Writer,
    alloc: Global,
    slot_entries: &[SlotEntry],
    slot_entry: SlotEntry,
    joint: &BodyJoint,
    colour: Option<u8>,
) -> Result<(), AllocError>
    ensures text { OnOk result (AddsValue (joint_slot_of slot_entries.now slot_entry (Some joint.now) colour) out.old out.new) }
{
    out.begin_object()?;
    put_members(out, &[("generation", Leaf::Count(slot_entry.generation))])?;
    out.key("joint")?;
    put_joint(out, alloc, slot_entries, joint, colour)?;
    out.end_object()?;
    Ok(())
}

fn put_slot(
    out: &mut Writer,
    alloc: Global,
    slot_entries: &[SlotEntry],
    slot_entry: SlotEntry,
    entry: &Option<BodyJoint>,
    colour: Option<u8>,
) -> Result<(), AllocError>
    ensures text { OnOk result (AddsValue (joint_slot_of slot_entries.now slot_entry entry.now colour) out.old out.new) }
{
    match entry {
        Some(joint) => put_taken(out, alloc, slot_entries, slot_entry, joint, colour),
        None => put_free(out, slot_entry),
    }
}

/// Writes the joints by slot, between bodies of these slot entries, each with the colour of its number.
pub(crate) fn put_joints(
    out: &mut Writer,
    alloc: Global,
    slot_entries: &[SlotEntry],
    joint_entries: &[SlotEntry],
    joints: &[Option<BodyJoint>],
    by_number: &HashMap<u128, u8>,
) -> Result<(), AllocError>
    ensures text { OnOk result (AddsValue (joints_data slot_entries.now joint_entries.now joints.now (joint_colours_by (get nat_eq by_number.now) 0 joint_entries.now)) out.old out.new) }
{
    out.begin_array()?;
    for slot in 0..lesser(joint_entries.len(), joints.len()) {
        let slot_entry = joint_entries[slot];
        let colour = colour_at(by_number, joint_number(slot, slot_entry.generation));
        put_slot(out, alloc, slot_entries, slot_entry, &joints[slot], colour)?;
    }
    out.end_array()?;
    Ok(())
}
