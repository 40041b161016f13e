//! The slots of bodies, read.

ghost use Rattle.std.specs.Prelude.{◌≡◌, ◌∷◌, ◌++◌, [], IfSome};
ghost use Rattle.loaded_text.specs.Bodies.{BodiesHold, BodySlotHolds, are_timed, is_timed};

use crate::bodies::read_body;
use crate::leaves::read_generation;
use crate::text::Text;
use body_handles::{MAX_SLOTS, SlotEntry, WORN_OUT};
use plain_world::Body;
use std::alloc::Global;
use world_file_base::{Membership, NO_MEMBERSHIP, SavedBodies};

/// A slot, and what is in it.
#[derive(Drop)]
struct BodySlot {
    entry: SlotEntry,
    body: Option<Body>,
    membership: Membership,
}

/// A slot in which nothing is.
fn read_free(text: &mut Text) -> Option<BodySlot>
    ensures { IfSome result (λ slot. BodySlotHolds slot text.old.rest.now text.new.rest.now) }
{
    text.expect(b"{")?;
    let generation = read_generation(text, b"\"generation\":")?;
    text.expect(b"}")?;
    Some(BodySlot {
        entry: SlotEntry {
            generation,
            live: false,
        },
        body: None,
        membership: NO_MEMBERSHIP,
    })
}

/// A slot in which a body is. It isn't at its last generation.
fn read_taken(text: &mut Text, alloc: Global) -> Option<BodySlot>
    ensures { IfSome result (λ slot. BodySlotHolds slot text.old.rest.now text.new.rest.now) }
{
    text.expect(b"{")?;
    let loaded = read_body(text, b"\"body\":", alloc)?;
    let generation = read_generation(text, b",\"generation\":")?;
    text.expect(b"}")?;
    if generation == WORN_OUT {
        return None;
    }
    Some(BodySlot {
        entry: SlotEntry {
            generation,
            live: true,
        },
        body: Some(loaded.body),
        membership: loaded.membership,
    })
}

fn read_slot(text: &mut Text, alloc: Global) -> Option<BodySlot>
    ensures { IfSome result (λ slot. BodySlotHolds slot text.old.rest.now text.new.rest.now) }
{
    let start = *text;
    if let Some(slot) = read_free(text) {
        return Some(slot);
    }
    *text = start;
    read_taken(text, alloc)
}

fn keep_slot(bodies: &mut SavedBodies, slot: BodySlot) -> Option<()>
    ensures slot_entries { IfSome result (λ _. bodies.new.slot_entries.items ≡ bodies.old.slot_entries.items ++ slot.entry ∷ []) }
    ensures bodies { IfSome result (λ _. bodies.new.bodies.items ≡ bodies.old.bodies.items ++ slot.body ∷ []) }
    ensures memberships { IfSome result (λ _. bodies.new.memberships.items ≡ bodies.old.memberships.items ++ slot.membership ∷ []) }
{
    bodies.slot_entries.push(slot.entry).ok()?;
    bodies.bodies.push(slot.body).ok()?;
    bodies.memberships.push(slot.membership).ok()
}

/// Reads the slots of bodies, and adds them to those that there are.
pub(crate) fn add_bodies(
    text: &mut Text,
    lead: &[u8],
    alloc: Global,
    bodies: &mut SavedBodies,
) -> Option<()>
    ensures { IfSome result (λ _. BodiesHold lead.now bodies.old bodies.new text.old.rest.now text.new.rest.now) }
{
    text.expect(lead)?;
    text.expect(b"[")?;
    for count in 0..MAX_SLOTS + 1 {
        let more = text.has_item(count == 0)?;
        if !more {
            return Some(());
        }
        let slot = read_slot(text, alloc)?;
        keep_slot(bodies, slot)?;
    }
    None
}

/// Whether a body was slow for so many ticks at most.
fn is_timed(body: &Option<Body>, most_ticks: u64) -> bool
    ensures { result ≡ is_timed most_ticks body.now }
{
    match body {
        Some(body) => body.timer <= most_ticks,
        None => true,
    }
}

/// Whether each body was slow for so many ticks at most.
pub(crate) fn are_timed(bodies: &[Option<Body>], most_ticks: u64) -> bool
    ensures { result ≡ are_timed most_ticks bodies.now }
{
    bodies.iter().all(|body| is_timed(body, most_ticks))
}
