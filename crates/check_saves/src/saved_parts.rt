//! Saved worlds and their parts: each read, and what was read written.

use body_handles::SlotEntry;
use contacts_base::{ContactEntry, PackedSurface, Surface};
use fixed_geom::Refusal;
use loaded_text::read_text;
use plain_world::BodyJoint;
use saved_text::write_text;
use serde_json::Value;
use std::alloc::Global;
use world_file::{list_labels, read, write};
use world_file_base::{
    Broken, Clause, Reader, SavedContact, SavedJoint, Version, bodies_value, contacts_value,
    joints_value, read_bodies, read_contacts, read_joints, read_totals, totals_value,
};

/// How many ticks a mover may have been slow.
const MOST_TICKS: u64 = 1_000;

/// The slot entries of eight bodies.
const SLOT_ENTRIES: [SlotEntry; 8] = [SlotEntry {
    generation: 1,
    live: true,
}; 8];

/// A saved world, or a part of one.
#[derive(Clone, Copy)]
pub enum Part {
    Bodies,
    Joints,
    Contacts,
    Totals,
    World,
    /// A world whose text is written with no value between.
    Text,
    /// A world whose text is read with no value of it.
    Quick,
    /// The same of a world of free slots.
    Slots,
}

impl Part {
    pub fn of_word(word: &str) -> Option<Part> {
        match word {
            "bodies" => Some(Part::Bodies),
            "joints" => Some(Part::Joints),
            "contacts" => Some(Part::Contacts),
            "ledger" => Some(Part::Totals),
            "world" => Some(Part::World),
            "text" => Some(Part::Text),
            "quick" => Some(Part::Quick),
            "slots" => Some(Part::Slots),
            _ => None,
        }
    }
}

/// The text of a part, read and written again, or the first clause that it breaks.
pub fn rewritten(
    alloc: Global,
    version: Version,
    part: Part,
    value: &Value,
) -> Result<String, Broken> {
    if let Part::Text = part {
        return text(alloc, value);
    }
    let written = written_again(alloc, version, part, value)?;
    Ok(written.to_string(alloc)?)
}

fn written_again(
    alloc: Global,
    version: Version,
    part: Part,
    value: &Value,
) -> Result<Value, Broken> {
    let mut reader = Reader::new();
    let written = match part {
        Part::Bodies => bodies(alloc, &mut reader, version, value)?,
        Part::Joints => joints(alloc, &mut reader, version, value)?,
        Part::Contacts => contacts(alloc, &mut reader, version, value)?,
        Part::Totals => totals(alloc, &mut reader, value)?,
        Part::World | Part::Text | Part::Quick | Part::Slots => world(alloc, value)?,
    };
    reader.verdict(Clause::Momentum)?;
    Ok(written)
}

fn written(value: Result<Value, Refusal>) -> Result<Value, Broken> {
    match value {
        Ok(value) => Ok(value),
        Err(_) => Err(Broken::NoMemory),
    }
}

fn bodies(
    alloc: Global,
    reader: &mut Reader,
    version: Version,
    value: &Value,
) -> Result<Value, Broken> {
    let saved = read_bodies(alloc, reader, Some(value), version, MOST_TICKS)?;
    let labels = list_labels(alloc, &saved.memberships)?;
    written(bodies_value(alloc, &saved.slot_entries, &saved.bodies, &labels))
}

/// The joints of what was read, and the colour of each.
#[derive(Drop)]
struct JointLists {
    joints: Vec<Option<BodyJoint>>,
    colours: Vec<Option<u8>>,
}

fn joint_lists(alloc: Global, saved: &[Option<SavedJoint>]) -> Result<JointLists, Broken> {
    let mut lists = JointLists {
        joints: Vec::new(alloc),
        colours: Vec::new(alloc),
    };
    for entry in saved {
        lists.joints.push(match entry {
            Some(joint) => Some(joint.joint),
            None => None,
        })?;
        lists.colours.push(match entry {
            Some(joint) => joint.colour,
            None => None,
        })?;
    }
    Ok(lists)
}

/// The joints are written with the ids of bodies that are there for the first time.
fn joints(
    alloc: Global,
    reader: &mut Reader,
    version: Version,
    value: &Value,
) -> Result<Value, Broken> {
    let saved = read_joints(alloc, reader, Some(value), version)?;
    let lists = joint_lists(alloc, &saved.joints)?;
    written(joints_value(
        alloc,
        &SLOT_ENTRIES,
        &saved.slot_entries,
        &lists.joints,
        &lists.colours,
    ))
}

/// The contacts of what was read, and the colour of each.
#[derive(Drop)]
struct ContactLists {
    contacts: Vec<ContactEntry>,
    colours: Vec<Option<u8>>,
}

/// A contact without its surface, which no file has.
fn entry_of(saved: &SavedContact) -> ContactEntry {
    ContactEntry {
        key: saved.key,
        surface: PackedSurface::new(Surface {
            friction: 0,
            restitution: 0,
        }),
        contact: saved.contact,
    }
}

fn contact_lists(alloc: Global, saved: &[SavedContact]) -> Result<ContactLists, Broken> {
    let mut lists = ContactLists {
        contacts: Vec::new(alloc),
        colours: Vec::new(alloc),
    };
    for contact in saved {
        lists.contacts.push(entry_of(contact))?;
        lists.colours.push(contact.colour)?;
    }
    Ok(lists)
}

fn contacts(
    alloc: Global,
    reader: &mut Reader,
    version: Version,
    value: &Value,
) -> Result<Value, Broken> {
    let saved = read_contacts(alloc, reader, Some(value), version)?;
    let lists = contact_lists(alloc, &saved)?;
    written(contacts_value(alloc, &lists.contacts, &lists.colours))
}

fn totals(alloc: Global, reader: &mut Reader, value: &Value) -> Result<Value, Broken> {
    let saved = read_totals(reader, Some(value));
    written(totals_value(alloc, &saved))
}

/// A world says its version itself.
fn world(alloc: Global, value: &Value) -> Result<Value, Broken> {
    let (plain, totals) = read(alloc, value)?;
    written(write(alloc, &plain, &totals))
}

fn text(alloc: Global, value: &Value) -> Result<String, Broken> {
    let (plain, totals) = read(alloc, value)?;
    match write_text(alloc, &plain, &totals) {
        Ok(text) => Ok(text),
        Err(_) => Err(Broken::NoMemory),
    }
}

/// What a world has whose text is read with no value of it, if the text is one that a save wrote.
pub fn sizes(alloc: Global, text: &str) -> Result<String, Broken> {
    let Some(read) = read_text(alloc, text.as_bytes()) else {
        return Ok(format!(in alloc; "no save")?);
    };
    let (plain, _) = read?;
    let (slots, contacts) = (plain.slot_entries().len(), plain.contacts().len());
    let (joints, steps) = (plain.joint_entries().len(), plain.steps());
    Ok(format!(in alloc; "{slots} slots, {joints} joints, {contacts} contacts, {steps} steps")?)
}
