//! The events of a world's last step, as a desk keeps them.

ghost use Rattle.std.specs.Prelude.{◌≡◌, IfOk, map};
ghost use Rattle.std.specs.Result.{IsOkUnless};
ghost use Rattle.contacts_base.specs.Contacts.{lookup};
ghost use Rattle.contacts_base.specs.Split.{contacts_in};
ghost use Rattle.solver_sets.specs.Joining.{handle_at};
ghost use Rattle.world_desk.specs.Logs.{events_of, is_stepped, points_of, rested, touched, with_tag};

use crate::step_event::{EventBody, StepEvent, Tagged};
use crate::tags::tag_of;
use body_handles::{NO_HANDLE, SlotEntry};
use contacts_base::{Hint, PackedContact, SplitContacts};
use fixed_geom::Refusal;
use std::alloc::Global;
use world_core::{ContactKey, Handle, Reply, ShapeId, WorldCore};

/// The second body of an event that is of one.
const NO_BODY: EventBody = EventBody {
    body: NO_HANDLE,
    tag: 0,
};

/// The shapes of an event that is of a body.
const NO_SHAPES: ContactKey = ContactKey {
    first: ShapeId { slot: 0, index: 0 },
    second: ShapeId { slot: 0, index: 0 },
};

/// Whether a command was a step that was accepted.
pub(crate) fn is_stepped(outcome: &Result<Reply, Refusal>) -> bool
    ensures { result ≡ is_stepped outcome.now }
{
    match outcome {
        Ok(Reply::Stepped(_)) => true,
        Ok(Reply::Body(_)) => false,
        Ok(Reply::Joint(_)) => false,
        Ok(Reply::Done) => false,
        Err(_) => false,
    }
}

/// The id of the body in a slot.
fn handle_at(slot_entries: &[SlotEntry], slot: u32) -> Handle
    ensures { result ≡ handle_at slot_entries.now slot }
{
    let generation = match slot_entries.get(slot as usize) {
        Some(entry) => entry.generation,
        None => 1,
    };
    Handle { slot, generation }
}

fn with_tag(tags: &[Tagged], body: Handle) -> EventBody
    ensures { result ≡ with_tag tags.now body }
{
    EventBody {
        body,
        tag: tag_of(tags, body),
    }
}

/// The points of the contact with a key: none where it isn't kept any more.
fn points_between(contacts: &SplitContacts, hint: &mut Hint, key: ContactKey) -> PackedContact
    ensures { result ≡ points_of (lookup (contacts_in contacts.now) key) }
{
    match contacts.find(hint, key).copied() {
        None => PackedContact::apart(),
        Some(entry) => entry.contact,
    }
}

/// Two shapes began to touch, or ceased to.
fn touched(
    begun: bool,
    tags: &[Tagged],
    world: &WorldCore,
    hint: &mut Hint,
    key: ContactKey,
) -> StepEvent
    ensures { result ≡ touched begun tags.now world.now.plain key }
{
    StepEvent {
        step: world.steps(),
        kind: if begun { 0 } else { 1 },
        first: with_tag(tags, handle_at(world.slot_entries(), key.first.slot)),
        second: with_tag(tags, handle_at(world.slot_entries(), key.second.slot)),
        key,
        contact: points_between(world.contacts().split(), hint, key),
    }
}

/// A body fell asleep, or woke.
fn rested(slept: bool, tags: &[Tagged], world: &WorldCore, body: Handle) -> StepEvent
    ensures { result ≡ rested slept tags.now world.now.plain body }
{
    StepEvent {
        step: world.steps(),
        kind: if slept { 2 } else { 3 },
        first: with_tag(tags, body),
        second: NO_BODY,
        key: NO_SHAPES,
        contact: PackedContact::apart(),
    }
}

/// The shapes that began to touch, or those that ceased to.
fn list_touches(
    alloc: Global,
    world: &WorldCore,
    tags: &[Tagged],
    keys: &[ContactKey],
    begun: bool,
) -> Result<Vec<StepEvent>, Refusal>
    ensures events { IfOk result (λ events. events.items ≡ map (touched begun tags.now world.now.plain) keys.now) }
    ensures memory_only { IsOkUnless result Refusal.NoMemory }
{
    let mut events = Vec::new(alloc);
    let mut hint = Hint { long: 0, short: 0 };
    for key in keys {
        events.push(touched(begun, tags, world, &mut hint, *key))?;
    }
    Ok(events)
}

/// The bodies that fell asleep, or those that woke.
fn list_rests(
    alloc: Global,
    world: &WorldCore,
    tags: &[Tagged],
    bodies: &[Handle],
    slept: bool,
) -> Result<Vec<StepEvent>, Refusal>
    ensures events { IfOk result (λ events. events.items ≡ map (rested slept tags.now world.now.plain) bodies.now) }
    ensures memory_only { IsOkUnless result Refusal.NoMemory }
{
    let mut events = Vec::new(alloc);
    for body in bodies {
        events.push(rested(slept, tags, world, *body))?;
    }
    Ok(events)
}

/// The events of the last step.
pub(crate) fn events_of(
    alloc: Global,
    world: &WorldCore,
    tags: &[Tagged],
) -> Result<Vec<StepEvent>, Refusal>
    ensures events { IfOk result (λ events. events.items ≡ events_of tags.now world.now) }
    ensures memory_only { IsOkUnless result Refusal.NoMemory }
{
    let told = world.events();
    let mut events = list_touches(alloc, world, tags, told.begin(), true)?;
    events.append(&mut list_touches(alloc, world, tags, told.end(), false)?)?;
    events.append(&mut list_rests(alloc, world, tags, told.slept(), true)?)?;
    events.append(&mut list_rests(alloc, world, tags, told.woke(), false)?)?;
    Ok(events)
}
