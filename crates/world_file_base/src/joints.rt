//! A saved joint.

ghost use Rattle.std.specs.Prelude.{◌≡◌, IfOk};
ghost use Rattle.std.specs.Result.{IsOkUnless};
ghost use Rattle.world_file_base.specs.SavedJoints.{id_at, joint_in, joint_data};
ghost use Rattle.world_file_base.specs.AskedSlots.{joint_asks};
ghost use Rattle.serde_json.specs.View.{view};

use crate::clause::Clause;
use crate::members::{Members, id_value};
use crate::reader::Reader;
use crate::saved::SavedJoint;
use crate::values::{field, has_keys};
use crate::version::{Version, colour_value, read_colour};
use body_handles::{Handle, SlotEntry};
use fixed_geom::Refusal;
use joint_rows::{Joint, MAX_ANCHOR, MAX_JOINT_IMPULSE, MAX_JOINT_LENGTH};
use plain_world::BodyJoint;
use serde_json::Value;
use std::alloc::Global;

/// Reads a joint.
#[tactic(auto, unfolding(crate::specs::SavedJoints::joint_in, crate::specs::AskedSlots::joint_asks))]
pub(crate) fn read_joint(reader: &mut Reader, value: &Value, version: Version) -> SavedJoint
    ensures value { result ≡ joint_in version (view value.now) }
    ensures asked { reader.new ≡ joint_asks version (view value.now) reader.old }
{
    reader.ask(has_keys(value, 8), Clause::Form);
    let a = reader.handle(field(value, "a"));
    let b = reader.handle(field(value, "b"));
    let collide = reader.truth(field(value, "collide"));
    let colour = read_colour(reader, field(value, "colour"), version);
    let from = reader.vector_within(field(value, "from"), MAX_ANCHOR.unsigned_abs());
    let impulse = reader.signed(
        field(value, "impulse"),
        -MAX_JOINT_IMPULSE,
        MAX_JOINT_IMPULSE,
    );
    let length = reader.signed(field(value, "length"), 0, MAX_JOINT_LENGTH);
    let to = reader.vector_within(field(value, "to"), MAX_ANCHOR.unsigned_abs());
    SavedJoint {
        a,
        b,
        joint: BodyJoint {
            a: a.slot,
            b: b.slot,
            collide,
            joint: Joint {
                from,
                to,
                length,
                impulse,
            },
        },
        colour,
    }
}

/// The id of the body in a slot as a text.
fn id_at(alloc: Global, slot_entries: &[SlotEntry], slot: u32) -> Result<Value, Refusal>
    ensures value { IfOk result (λ value. view value ≡ id_at slot_entries.now slot) }
    ensures memory_only { IsOkUnless result Refusal.NoMemory }
{
    let generation = match slot_entries.get(slot as usize) {
        Some(place) => place.generation,
        None => 0,
    };
    id_value(alloc, Handle { slot, generation })
}

/// A joint as it is written.
#[tactic(auto, unfolding(crate::specs::SavedJoints::joint_data))]
pub(crate) fn joint_value(
    alloc: Global,
    slot_entries: &[SlotEntry],
    joint: &BodyJoint,
    colour: Option<u8>,
) -> Result<Value, Refusal>
    ensures value { IfOk result (λ value. view value ≡ joint_data slot_entries.now joint.now colour) }
    ensures memory_only { IsOkUnless result Refusal.NoMemory }
{
    let mut members = Members::new(alloc);
    members.put("a", id_at(alloc, slot_entries, joint.a)?)?;
    members.put("b", id_at(alloc, slot_entries, joint.b)?)?;
    members.put("collide", Value::from(joint.collide))?;
    members.put("colour", colour_value(colour))?;
    members.put_vector("from", joint.joint.from)?;
    members.put("impulse", Value::from(joint.joint.impulse))?;
    members.put("length", Value::from(joint.joint.length))?;
    members.put_vector("to", joint.joint.to)?;
    Ok(members.object())
}
