//! The slots of bodies, read and written.

ghost use Rattle.std.specs.Prelude.{◌≡◌, ◌∷◌, ◌++◌, [], IfErr, IfOk, OnOk, option_map};
ghost use Rattle.std.specs.Result.{IsOkUnless};
ghost use Rattle.islands.specs.Labels.{label_at};
ghost use Rattle.world_file_base.specs.Reading.{items_in, seen};
ghost use Rattle.world_file_base.specs.Written.{written};
ghost use Rattle.world_file_base.specs.declared.clause.Broken.TheVariants.{NoMemory};
ghost use Rattle.world_file_base.specs.SavedSlots.{
  bodies_in,
  bodies_data,
  body_key,
  body_slot_of,
  membership_or_none,
  memberships_in,
  slot_entry_in,
  slot_entries_in,
  put_item,
  slot_body,
  slot_membership,
};
ghost use Rattle.world_file_base.specs.AskedSlots.{bodies_asks, body_slot_asks, item_asks, slots_asks};
ghost use Rattle.world_file_base.specs.SavedBodies.{body_in, body_data};
ghost use Rattle.world_file_base.specs.AskedBodies.{body_asks};
ghost use Rattle.serde_json.specs.View.{items_view, view};

use crate::bodies::read_body;
use crate::clause::Broken;
use crate::counts::lesser;
use crate::members::{Members, array_value};
use crate::reader::Reader;
use crate::saved::{NO_MEMBERSHIP, SavedBodies};
use crate::slots::{read_slot_entry, read_slots};
use crate::values::field;
use crate::version::Version;
use crate::writing_bodies::body_value;
use body_handles::SlotEntry;
use fixed_geom::Refusal;
use islands::Label;
use plain_world::Body;
use serde_json::Value;
use std::alloc::Global;

/// Reads what is in a slot of bodies.
fn read_slot_body(
    alloc: Global,
    reader: &mut Reader,
    value: Option<&Value>,
    most_ticks: u64,
    bodies: &mut SavedBodies,
) -> Result<(), Broken>
    ensures slot_entries { OnOk result (bodies.new.slot_entries.items ≡ bodies.old.slot_entries.items) }
    ensures bodies { OnOk result (bodies.new.bodies.items ≡ bodies.old.bodies.items ++ option_map (body_in most_ticks) (seen value.entry) ∷ []) }
    ensures memberships { OnOk result (bodies.new.memberships.items ≡ bodies.old.memberships.items ++ membership_or_none (seen value.entry) ∷ []) }
    ensures asked { OnOk result (reader.new ≡ item_asks (body_asks most_ticks) (seen value.entry) reader.old) }
    ensures memory { IfErr result (λ e. e ≡ NoMemory) }
{
    match value {
        Some(item) => {
            let saved = read_body(alloc, reader, item, most_ticks)?;
            bodies.bodies.push(Some(saved.body))?;
            bodies.memberships.push(saved.membership)?;
        }
        None => {
            bodies.bodies.push(None)?;
            bodies.memberships.push(NO_MEMBERSHIP)?;
        }
    }
    Ok(())
}

/// Reads a slot of bodies.
fn read_body_slot(
    alloc: Global,
    reader: &mut Reader,
    value: &Value,
    most_ticks: u64,
    bodies: &mut SavedBodies,
) -> Result<(), Broken>
    ensures slot_entries { OnOk result (bodies.new.slot_entries.items ≡ bodies.old.slot_entries.items ++ slot_entry_in body_key (view value.now) ∷ []) }
    ensures bodies { OnOk result (bodies.new.bodies.items ≡ bodies.old.bodies.items ++ slot_body most_ticks (view value.now) ∷ []) }
    ensures memberships { OnOk result (bodies.new.memberships.items ≡ bodies.old.memberships.items ++ slot_membership (view value.now) ∷ []) }
    ensures asked { OnOk result (reader.new ≡ body_slot_asks most_ticks (view value.now) reader.old) }
    ensures memory { IfErr result (λ e. e ≡ NoMemory) }
{
    let slot_entry = read_slot_entry(reader, value, "body");
    bodies.slot_entries.push(slot_entry)?;
    read_slot_body(alloc, reader, field(value, "body"), most_ticks, bodies)
}

/// Reads each slot of bodies of a list.
fn read_each_body(
    alloc: Global,
    reader: &mut Reader,
    slots: &[Value],
    most_ticks: u64,
) -> Result<SavedBodies, Broken>
    ensures slot_entries { IfOk result (λ saved. saved.slot_entries.items ≡ slot_entries_in body_key (items_view slots.now)) }
    ensures bodies { IfOk result (λ saved. saved.bodies.items ≡ bodies_in most_ticks (items_view slots.now)) }
    ensures memberships { IfOk result (λ saved. saved.memberships.items ≡ memberships_in (items_view slots.now)) }
    ensures asked { OnOk result (reader.new ≡ bodies_asks most_ticks (items_view slots.now) reader.old) }
    ensures memory { IfErr result (λ e. e ≡ NoMemory) }
{
    let mut bodies = SavedBodies {
        slot_entries: Vec::new(alloc),
        bodies: Vec::new(alloc),
        memberships: Vec::new(alloc),
    };
    for slot in slots {
        read_body_slot(alloc, reader, slot, most_ticks, &mut bodies)?;
    }
    Ok(bodies)
}

/// Reads the bodies of a world in which none has been slow for longer than `most_ticks`.
pub fn read_bodies(
    alloc: Global,
    reader: &mut Reader,
    value: Option<&Value>,
    version: Version,
    most_ticks: u64,
) -> Result<SavedBodies, Broken>
    ensures slot_entries { IfOk result (λ saved. saved.slot_entries.items ≡ slot_entries_in body_key (items_in (seen value.entry))) }
    ensures bodies { IfOk result (λ saved. saved.bodies.items ≡ bodies_in most_ticks (items_in (seen value.entry))) }
    ensures memberships { IfOk result (λ saved. saved.memberships.items ≡ memberships_in (items_in (seen value.entry))) }
    ensures asked { OnOk result (reader.new ≡ bodies_asks most_ticks (items_in (seen value.entry)) (slots_asks version (seen value.entry) reader.old)) }
    ensures memory { IfErr result (λ e. e ≡ NoMemory) }
{
    let slots = read_slots(reader, value, version);
    read_each_body(alloc, reader, slots, most_ticks)
}

/// What is under the key of a slot, if something is.
fn put_body(
    members: &mut Members,
    alloc: Global,
    entry: &Option<Body>,
    label: Option<Label>,
) -> Result<(), Refusal>
    ensures put { OnOk result (written members.new ≡ put_item body_key (option_map (λ b. body_data b label) entry.now) (written members.old)) }
    ensures memory_only { IsOkUnless result Refusal.NoMemory }
{
    match entry {
        Some(body) => members.put("body", body_value(alloc, body, label)?),
        None => Ok(()),
    }
}

fn body_slot_value(
    alloc: Global,
    slot_entry: SlotEntry,
    entry: &Option<Body>,
    label: Option<Label>,
) -> Result<Value, Refusal>
    ensures value { IfOk result (λ value. view value ≡ body_slot_of slot_entry entry.now label) }
    ensures memory_only { IsOkUnless result Refusal.NoMemory }
{
    let mut members = Members::new(alloc);
    put_body(&mut members, alloc, entry, label)?;
    members.put("generation", Value::from(slot_entry.generation))?;
    Ok(members.object())
}

/// The label of the mover in a slot, if one is there.
pub fn label_at(labels: &[Option<Label>], slot: usize) -> Option<Label>
    ensures { result ≡ label_at labels.now slot }
{
    if slot < labels.len() {
        labels[slot]
    } else {
        None
    }
}

/// The bodies as they are written.
pub fn bodies_value(
    alloc: Global,
    slot_entries: &[SlotEntry],
    bodies: &[Option<Body>],
    labels: &[Option<Label>],
) -> Result<Value, Refusal>
    ensures value { IfOk result (λ value. view value ≡ bodies_data slot_entries.now bodies.now labels.now) }
    ensures memory_only { IsOkUnless result Refusal.NoMemory }
{
    let mut items = Vec::new(alloc);
    for slot in 0..lesser(slot_entries.len(), bodies.len()) {
        let label = label_at(labels, slot);
        items.push(body_slot_value(alloc, slot_entries[slot], &bodies[slot], label)?)?;
    }
    Ok(array_value(items))
}
