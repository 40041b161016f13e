//! The colour of a contact, which joints there are, and what a joint is. Nothing here changes a world.

ghost use Rattle.std.specs.Prelude.{◌≡◌, ◌≤◌, length, option_map};
ghost use Rattle.body_handles.specs.declared.slot_table.TheConstants.{MAX_SLOTS};
ghost use Rattle.dillmonth.specs.Forms.{handle_shown};
ghost use Rattle.dillmonth.specs.Getters.{IsJointIn, IsWritten, colour_in, contact_colour, ids_up, joint_ids, joint_in, joint_of, joint_shown, joints_in, key_of, number_or_none};
ghost use Rattle.dillmonth.specs.Lists.{written};

use crate::conversions::{handle_of, show_handle, show_vector};
use crate::forms::{CHandle, CJointDef, CShapeId};
use crate::getter_forms::{CJointView, NOBODY, NONE, id_or_nobody, number_of};
use crate::held::{CWorld, put, take};
use crate::on_shape::id_of;
use crate::shown::write_next;
use crate::statuses::{DONE, NO_WORLD};
use contacts_base::{ContactKey, ShapeId};
use std::alloc::Global;
use world_core::{Constraint, Handle, WorldCore};
use world_queries::{JointView, joint};

// ---- colours

/// The colour of a constraint, if it acts.
fn colour_number(colour: Option<u8>) -> u32
    ensures { result ≡ number_or_none colour }
{
    match colour {
        None => NONE,
        Some(colour) => u32::from(colour),
    }
}

/// The name of a contact, where both of its shapes have names.
fn key_of(first: Option<ShapeId>, second: Option<ShapeId>) -> Option<ContactKey>
    ensures { result ≡ key_of first second }
{
    match (first, second) {
        (None, _) => None,
        (Some(_), None) => None,
        (Some(first), Some(second)) => Some(ContactKey { first, second }),
    }
}

/// The colour of the contact of this name, if it acts.
fn colour_of(world: &WorldCore, key: Option<ContactKey>) -> Option<u8>
    ensures { result ≡ contact_colour world.now.plain key }
{
    match key {
        None => None,
        Some(key) => world.colour_of(Constraint::Contact(key)),
    }
}

/// The colour of the contact of two shapes, the lesser name first, while it acts: while they touch, and one of their
/// bodies is a mover that is awake. It is 24 in the overflow, and 2^32 - 1 where no contact of theirs acts.
#[unsafe(no_mangle)]
pub extern "C" fn dm_colour_of(
    alloc: Global,
    world: &mut CWorld,
    first: CShapeId,
    second: CShapeId,
) -> u32
    ensures kept { world.new.desk ≡ world.old.desk }
    ensures colour { result ≡ colour_in world.old.desk first second }
{
    match take(alloc, world) {
        None => NONE,
        Some(desk) => {
            let colour = colour_of(&desk.world, key_of(id_of(first), id_of(second)));
            put(world, desk);
            colour_number(colour)
        }
    }
}

// ---- joints

/// The id of the joint in a slot; one that names nothing where there is none.
#[unsafe(no_mangle)]
pub extern "C" fn dm_joint_in(alloc: Global, world: &mut CWorld, slot: u32) -> CHandle
    ensures kept { world.new.desk ≡ world.old.desk }
    ensures joint { result ≡ joint_in world.old.desk slot }
{
    match take(alloc, world) {
        None => NOBODY,
        Some(desk) => {
            let handle = desk.world.joint_in(slot);
            put(world, desk);
            id_or_nobody(handle)
        }
    }
}

/// The id of a joint in its form for C, if there is one.
fn show_id_of(handle: Option<Handle>) -> Option<CHandle>
    ensures { result ≡ option_map handle_shown handle }
{
    match handle {
        None => None,
        Some(handle) => Some(show_handle(handle)),
    }
}

/// Writes the ids of the joints in these slots, as many as fit, and tells how many there are.
fn write_ids(world: &WorldCore, slots: usize, out: &mut [CHandle]) -> usize
    requires { slots ≤ MAX_SLOTS }
    ensures count { result ≡ length (ids_up world.now.plain.joint_entries slots) }
    ensures written { out.new ≡ written (ids_up world.now.plain.joint_entries slots) out.old }
{
    let mut count = 0;
    for slot in 0..slots {
        let id = show_id_of(world.joint_in(slot as u32));
        count = write_next(out, count, id);
    }
    count
}

/// Writes the ids of all joints, by slot, as many as fit, and tells how many there are.
fn write_joints(world: &WorldCore, out: &mut [CHandle]) -> usize
    ensures count { result ≡ length (joint_ids world.now.plain.joint_entries) }
    ensures written { out.new ≡ written (joint_ids world.now.plain.joint_entries) out.old }
{
    world.know_sound();
    write_ids(world, world.joint_entries().len(), out)
}

/// The ids of all joints, by slot.
#[unsafe(no_mangle)]
pub extern "C" fn dm_joints(alloc: Global, world: &mut CWorld, out: &mut [CHandle]) -> usize
    ensures kept { world.new.desk ≡ world.old.desk }
    ensures count { result ≡ length (joints_in world.old.desk) }
    ensures written { out.new ≡ written (joints_in world.old.desk) out.old }
{
    match take(alloc, world) {
        None => 0,
        Some(desk) => {
            let count = write_joints(&desk.world, out);
            put(world, desk);
            count
        }
    }
}

/// What can be seen of a joint.
fn show_joint(world: &WorldCore, handle: CHandle, view: &JointView) -> CJointView
    ensures { result ≡ joint_shown world.now.plain handle view.now }
{
    CJointView {
        def: CJointDef {
            a: show_handle(view.a),
            b: show_handle(view.b),
            from: show_vector(view.joint.from),
            to: show_vector(view.joint.to),
            length: view.joint.length,
            collide: number_of(view.collide),
            unused: 0,
        },
        impulse: view.joint.impulse,
        colour: colour_number(world.colour_of(Constraint::Joint(handle_of(handle)))),
        unused: 0,
    }
}

/// Writes what can be seen of a joint, or 2 where it isn't there.
fn write_joint(world: &WorldCore, handle: CHandle, out: &mut CJointView) -> u32
    ensures { IsWritten (joint_of world.now.plain handle) result out.old out.new }
{
    match joint(world, handle_of(handle)) {
        None => 2,
        Some(view) => {
            *out = show_joint(world, handle, &view);
            DONE
        }
    }
}

/// What can be seen of a joint: its ends, its anchors, its length, the impulse that it keeps, and its colour. Refused 2
/// where the id names none; `out` is then as it was.
#[unsafe(no_mangle)]
pub extern "C" fn dm_joint(
    alloc: Global,
    world: &mut CWorld,
    joint: CHandle,
    out: &mut CJointView,
) -> u32
    ensures kept { world.new.desk ≡ world.old.desk }
    ensures joint { IsJointIn world.old.desk joint result out.old out.new }
{
    match take(alloc, world) {
        None => NO_WORLD,
        Some(desk) => {
            let status = write_joint(&desk.world, joint, out);
            put(world, desk);
            status
        }
    }
}
