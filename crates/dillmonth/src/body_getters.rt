//! What a body is, and which shapes, joints and contacts it has. Nothing here changes a world.

ghost use Rattle.std.specs.Prelude.{◌≡◌};
ghost use Rattle.dillmonth.specs.Getters.{AreContactsIn, AreJointsIn, AreShapesIn, AreWritten, AreWrittenOrWanting, IsInfoIn, IsWritten, body_in, contacts_shown, info_of, info_shown, joints_shown, kind_shown, shapes_shown};

use crate::conversions::handle_of;
use crate::forms::{CContact, CHandle, CShape};
use crate::getter_forms::{CBodyInfo, NOBODY, id_or_nobody, number_of, number_or_none};
use crate::held::{CWorld, put, take};
use crate::shown::write_all;
use crate::statuses::{DONE, NO_WORLD, status_of};
use plain_world::{Body, Kind};
use std::alloc::Global;
use world_core::WorldCore;
use world_queries::{body_named, contacts_of, joints_of};

/// The number of a kind.
fn kind_number(kind: Kind) -> u32
    ensures { result ≡ kind_shown kind }
{
    match kind {
        Kind::Static => 0,
        Kind::Kinematic(_) => 1,
        Kind::Dynamic => 2,
    }
}

/// What the body in a slot is.
fn show_info(world: &WorldCore, slot: u32, body: &Body) -> CBodyInfo
    ensures { result ≡ info_shown world.now.plain slot body.now }
{
    CBodyInfo {
        kind: kind_number(body.kind),
        enabled: number_of(body.enabled),
        mass: body.mass.mass,
        inertia: body.mass.inertia,
        shapes: body.shapes.as_slice().len(),
        island: number_or_none(world.islands().name_of(slot)),
        unused: 0,
    }
}

/// Writes what a body is, or 2 where it isn't there.
fn write_info(world: &WorldCore, body: CHandle, out: &mut CBodyInfo) -> u32
    ensures { IsWritten (info_of world.now.plain body) result out.old out.new }
{
    match body_named(world, handle_of(body)) {
        None => 2,
        Some(found) => {
            *out = show_info(world, body.slot, found);
            DONE
        }
    }
}

/// What a body is: its kind, whether it takes part, its mass and its inertia, how many shapes it has, and its island.
/// Refused 2 where the id names none; `out` is then as it was.
#[unsafe(no_mangle)]
pub extern "C" fn dm_info(
    alloc: Global,
    world: &mut CWorld,
    body: CHandle,
    out: &mut CBodyInfo,
) -> u32
    ensures kept { world.new.desk ≡ world.old.desk }
    ensures info { IsInfoIn world.old.desk body result out.old out.new }
{
    match take(alloc, world) {
        None => NO_WORLD,
        Some(desk) => {
            let status = write_info(&desk.world, body, out);
            put(world, desk);
            status
        }
    }
}

/// Writes and counts the shapes of a body, or 2 where it isn't there.
fn write_shapes(world: &WorldCore, body: CHandle, out: &mut [CShape], count: &mut usize) -> u32
    ensures { AreWritten (shapes_shown world.now.plain body) result count.old count.new out.old out.new }
{
    match body_named(world, handle_of(body)) {
        None => 2,
        Some(found) => {
            *count = write_all(found.shapes.as_slice(), out);
            DONE
        }
    }
}

/// The shapes of a body, as many as fit; `count` tells how many there are. Refused 2 where the id names none; nothing
/// is written then.
#[unsafe(no_mangle)]
pub extern "C" fn dm_shapes(
    alloc: Global,
    world: &mut CWorld,
    body: CHandle,
    out: &mut [CShape],
    count: &mut usize,
) -> u32
    ensures kept { world.new.desk ≡ world.old.desk }
    ensures shapes { AreShapesIn world.old.desk body result count.old count.new out.old out.new }
{
    match take(alloc, world) {
        None => NO_WORLD,
        Some(desk) => {
            let status = write_shapes(&desk.world, body, out, count);
            put(world, desk);
            status
        }
    }
}

/// Writes and counts the ids of the joints of a body; 2 where it isn't there, 1 where memory is wanting.
fn write_joints_of(
    alloc: Global,
    world: &WorldCore,
    body: CHandle,
    out: &mut [CHandle],
    count: &mut usize,
) -> u32
    ensures { AreWrittenOrWanting (joints_shown world.now.plain body) result count.old count.new out.old out.new }
{
    if body_named(world, handle_of(body)).is_none() {
        return 2;
    }
    match joints_of(alloc, world, body.slot) {
        Ok(joints) => {
            *count = write_all(joints.as_slice(), out);
            DONE
        }
        Err(refusal) => status_of(refusal),
    }
}

/// The ids of the joints of a body, by slot, as many as fit; `count` tells how many there are. Refused 2 where the id
/// names no body, else 1 where memory is wanting; nothing is written then.
#[unsafe(no_mangle)]
pub extern "C" fn dm_joints_of(
    alloc: Global,
    world: &mut CWorld,
    body: CHandle,
    out: &mut [CHandle],
    count: &mut usize,
) -> u32
    ensures kept { world.new.desk ≡ world.old.desk }
    ensures joints { AreJointsIn world.old.desk body result count.old count.new out.old out.new }
{
    match take(alloc, world) {
        None => NO_WORLD,
        Some(desk) => {
            let status = write_joints_of(alloc, &desk.world, body, out, count);
            put(world, desk);
            status
        }
    }
}

/// Writes and counts the contacts of a body; 2 where it isn't there, 1 where memory is wanting.
fn write_contacts_of(
    alloc: Global,
    world: &WorldCore,
    body: CHandle,
    out: &mut [CContact],
    count: &mut usize,
) -> u32
    ensures { AreWrittenOrWanting (contacts_shown world.now.plain body) result count.old count.new out.old out.new }
{
    if body_named(world, handle_of(body)).is_none() {
        return 2;
    }
    match contacts_of(alloc, world, body.slot) {
        Ok(contacts) => {
            *count = write_all(contacts.as_slice(), out);
            DONE
        }
        Err(refusal) => status_of(refusal),
    }
}

/// The contacts of a body, ascending by their shapes, as many as fit; `count` tells how many there are. Refused 2 where
/// the id names no body, else 1 where memory is wanting; nothing is written then.
#[unsafe(no_mangle)]
pub extern "C" fn dm_contacts_of(
    alloc: Global,
    world: &mut CWorld,
    body: CHandle,
    out: &mut [CContact],
    count: &mut usize,
) -> u32
    ensures kept { world.new.desk ≡ world.old.desk }
    ensures contacts { AreContactsIn world.old.desk body result count.old count.new out.old out.new }
{
    match take(alloc, world) {
        None => NO_WORLD,
        Some(desk) => {
            let status = write_contacts_of(alloc, &desk.world, body, out, count);
            put(world, desk);
            status
        }
    }
}

/// The id of the body in a slot; one that names nothing where there is none.
#[unsafe(no_mangle)]
pub extern "C" fn dm_body_in(alloc: Global, world: &mut CWorld, slot: u32) -> CHandle
    ensures kept { world.new.desk ≡ world.old.desk }
    ensures body { result ≡ body_in world.old.desk slot }
{
    match take(alloc, world) {
        None => NOBODY,
        Some(desk) => {
            let handle = desk.world.handle_in(slot);
            put(world, desk);
            id_or_nobody(handle)
        }
    }
}
