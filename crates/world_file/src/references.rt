//! Whether joints and contacts are of what is there, and what a world keeps of them.

ghost use Rattle.std.specs.Prelude.{◌≡◌, IfErr, IfOk, IsTrue, None, map};
ghost use Rattle.plain_world.specs.Formed.{is_surface, mixed_of, mixed_surface, shape_with_id, shape_of_body};
ghost use Rattle.plain_world.specs.Slots.{body_at};
ghost use Rattle.std.specs.List.{list_all};
ghost use Rattle.body_handles.specs.SlotEntries.{is_live};
ghost use Rattle.contacts_base.specs.Surfaces.{IsSurface};
ghost use Rattle.world_file_base.specs.declared.clause.Broken.TheVariants.{NoMemory};
ghost use Rattle.world_file.specs.Fitting.{
  are_points,
  are_rising_after,
  entry_read,
  has_points,
  is_above,
  is_contact_fitting,
  is_dynamic_body,
  is_joint_fitting,
  joint_kept,
};

use body_handles::{Handle, SlotEntry};
use contacts_base::{
    ContactEntry, ContactPoint, MAX_FRICTION, MAX_RESTITUTION, PackedSurface, ShapeId, Surface,
};
use plain_world::{Body, BodyJoint, surface_of};
use shapes::ShapeDef;
use std::alloc::Global;
use world_file_base::{Broken, SavedContact, SavedJoint};

/// Whether the handle names a body that is there.
fn is_live(slot_entries: &[SlotEntry], handle: Handle) -> bool
    ensures { result ≡ is_live slot_entries.now handle }
{
    match slot_entries.get(handle.slot as usize) {
        Some(place) => place.live && place.generation == handle.generation,
        None => false,
    }
}

/// Whether a joint is between two different bodies that are there.
fn is_joint_fitting(slot_entries: &[SlotEntry], entry: Option<SavedJoint>) -> bool
    ensures { result ≡ is_joint_fitting slot_entries.now entry }
{
    match entry {
        Some(joint) => {
            is_live(slot_entries, joint.a)
                && is_live(slot_entries, joint.b)
                && joint.a.slot != joint.b.slot
        }
        None => true,
    }
}

/// Whether all joints are between two different bodies that are there.
pub(crate) fn are_joints_fitting(slot_entries: &[SlotEntry], joints: &[Option<SavedJoint>]) -> bool
    ensures { result ≡ list_all (is_joint_fitting slot_entries.now) joints.now }
{
    for entry in joints {
        if !is_joint_fitting(slot_entries, *entry) {
            return false;
        }
    }
    true
}

/// Whether these are the first two of so many points as a contact that touches has: of two different candidates if it
/// has two.
fn are_points(first: Option<ContactPoint>, second: Option<ContactPoint>, count: usize) -> bool
    ensures { result ≡ are_points first second count }
{
    match (first, second) {
        (Some(_), None) => true,
        (Some(first), Some(second)) => count == 2 && first.candidate != second.candidate,
        (None, _) => false,
    }
}

/// Whether a contact has points just if it touches.
fn has_points(saved: &SavedContact) -> bool
    ensures { result ≡ has_points saved.now }
{
    if saved.touching {
        are_points(saved.contact.first(), saved.contact.second(), saved.points)
    } else {
        saved.points == 0
    }
}

fn shape_of_body(entry: &Option<Body>, index: usize) -> Option<ShapeDef>
    ensures { result ≡ shape_of_body entry.now index }
{
    match entry {
        Some(body) => {
            if body.enabled {
                body.shapes.as_slice().get(index).copied()
            } else {
                None
            }
        }
        None => None,
    }
}

/// The shape of this name, if it is one of an enabled body.
fn shape_with_id(bodies: &[Option<Body>], id: ShapeId) -> Option<ShapeDef>
    ensures { result ≡ shape_with_id bodies.now id }
{
    let slot = id.slot as usize;
    if slot < bodies.len() {
        shape_of_body(&bodies[slot], id.index as usize)
    } else {
        None
    }
}

fn is_dynamic_body(bodies: &[Option<Body>], slot: usize) -> bool
    ensures { result ≡ is_dynamic_body (body_at bodies.now slot) }
{
    if slot >= bodies.len() {
        return false;
    }
    match &bodies[slot] {
        Some(body) => body.kind.is_dynamic(),
        None => false,
    }
}

/// Whether a contact is of shapes of two enabled bodies, the lesser first, one of them dynamic, and has the points that
/// it needs.
fn is_contact_fitting(bodies: &[Option<Body>], saved: &SavedContact) -> bool
    ensures { result ≡ is_contact_fitting bodies.now saved.now }
{
    let key = saved.key;
    if shape_with_id(bodies, key.first).is_none() {
        return false;
    }
    if shape_with_id(bodies, key.second).is_none() {
        return false;
    }
    if key.first.slot >= key.second.slot {
        return false;
    }
    if !is_dynamic_body(bodies, key.first.slot as usize)
        && !is_dynamic_body(bodies, key.second.slot as usize)
    {
        return false;
    }
    has_points(saved)
}

/// Whether all contacts are of what is there.
pub(crate) fn are_contacts_fitting(bodies: &[Option<Body>], contacts: &[SavedContact]) -> bool
    ensures { result ≡ list_all (is_contact_fitting bodies.now) contacts.now }
{
    for saved in contacts {
        if !is_contact_fitting(bodies, saved) {
            return false;
        }
    }
    true
}

/// Whether each key is above those before it.
pub(crate) fn are_rising(contacts: &[SavedContact]) -> bool
    ensures { result ≡ are_rising_after None contacts.now }
{
    let mut last = None;
    for saved in contacts {
        let number = saved.key.number();
        if !is_above(last, number) {
            return false;
        }
        last = Some(number);
    }
    true
}

fn is_above(last: Option<u128>, number: u128) -> bool
    ensures { result ≡ is_above last number }
{
    match last {
        Some(last) => last < number,
        None => true,
    }
}

/// Whether friction and restitution are within their limits.
fn is_surface(surface: Surface) -> bool
    ensures value { result ≡ is_surface surface }
    ensures surface { IsTrue result → IsSurface surface }
{
    0 <= surface.friction
        && surface.friction.unsigned_abs() <= MAX_FRICTION
        && 0 <= surface.restitution
        && surface.restitution.unsigned_abs() <= MAX_RESTITUTION
}

fn mixed_surface(first: Surface, second: Surface) -> Surface
    ensures value { result ≡ mixed_surface first second }
    ensures surface { IsSurface result }
{
    if is_surface(first) && is_surface(second) {
        first.mixed(second)
    } else {
        Surface {
            friction: 0,
            restitution: 0,
        }
    }
}

fn mixed_of(first: Option<ShapeDef>, second: Option<ShapeDef>) -> Surface
    ensures value { result ≡ mixed_of first second }
    ensures surface { IsSurface result }
{
    match (first, second) {
        (Some(first), Some(second)) => mixed_surface(surface_of(&first), surface_of(&second)),
        _ => Surface {
            friction: 0,
            restitution: 0,
        },
    }
}

/// The contact as a world keeps it.
fn entry_of(bodies: &[Option<Body>], saved: &SavedContact) -> ContactEntry
    ensures { result ≡ entry_read bodies.now saved.now }
{
    let first = shape_with_id(bodies, saved.key.first);
    let second = shape_with_id(bodies, saved.key.second);
    ContactEntry {
        key: saved.key,
        surface: PackedSurface::new(mixed_of(first, second)),
        contact: saved.contact,
    }
}

/// The contacts as a world keeps them.
pub(crate) fn list_contacts(
    alloc: Global,
    bodies: &[Option<Body>],
    saved: &[SavedContact],
) -> Result<Vec<ContactEntry>, Broken>
    ensures value { IfOk result (λ entries. entries.items ≡ map (entry_read bodies.now) saved.now) }
    ensures memory { IfErr result (λ e. e ≡ NoMemory) }
{
    let mut entries = Vec::new(alloc);
    for contact in saved {
        entries.push(entry_of(bodies, contact))?;
    }
    Ok(entries)
}

fn joint_kept(entry: Option<SavedJoint>) -> Option<BodyJoint>
    ensures { result ≡ joint_kept entry }
{
    match entry {
        Some(saved) => Some(saved.joint),
        None => None,
    }
}

/// The joints as a world keeps them.
pub(crate) fn list_joints(
    alloc: Global,
    saved: &[Option<SavedJoint>],
) -> Result<Vec<Option<BodyJoint>>, Broken>
    ensures value { IfOk result (λ joints. joints.items ≡ map joint_kept saved.now) }
    ensures memory { IfErr result (λ e. e ≡ NoMemory) }
{
    let mut joints = Vec::new(alloc);
    for entry in saved {
        joints.push(joint_kept(*entry))?;
    }
    Ok(joints)
}
