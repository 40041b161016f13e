//! The poses of a world's bodies: of all, and of those that a step may move. Nothing here changes it.

ghost use Rattle.std.specs.Prelude.{◌≡◌, false, length, true};
ghost use Rattle.dillmonth.specs.Lists.{is_asked, pose_asked, pose_shown, poses_in, poses_of, poses_up, written};
ghost use Rattle.plain_world.specs.Slots.{AreMatched};

use crate::conversions::show_vector;
use crate::forms::{CFacing, CHandle, CPose};
use crate::held::{CWorld, put, take};
use crate::shown::write_next;
use body_handles::SlotEntry;
use plain_world::Body;
use std::alloc::Global;
use world_core::WorldCore;

/// The pose of a body.
fn show_pose(slot: u32, generation: u32, body: &Body) -> CPose
    ensures { result ≡ pose_shown slot generation body.now }
{
    CPose {
        handle: CHandle { slot, generation },
        at: show_vector(body.motion.x),
        facing: CFacing {
            c: body.motion.rot.c,
            s: body.motion.rot.s,
        },
    }
}

/// Whether a body's pose is asked for: that of each, or of those that a step may move.
fn is_asked(moving: bool, body: &Body) -> bool
    ensures { result ≡ is_asked moving body.now }
{
    if moving { body.can_move() } else { true }
}

/// The pose of the body in a slot, if there is one and it is asked for.
fn pose_asked(moving: bool, slot: u32, generation: u32, entry: &Option<Body>) -> Option<CPose>
    ensures { result ≡ pose_asked moving slot generation entry.now }
{
    match entry {
        None => None,
        Some(body) => {
            if is_asked(moving, body) {
                Some(show_pose(slot, generation, body))
            } else {
                None
            }
        }
    }
}

/// Writes the poses of the bodies by slot, as many as fit, and tells how many there are.
fn write_poses(
    moving: bool,
    slot_entries: &[SlotEntry],
    bodies: &[Option<Body>],
    out: &mut [CPose],
) -> usize
    requires { AreMatched slot_entries.now bodies.now }
    ensures count { result ≡ length (poses_up moving slot_entries.now bodies.now (length bodies.now)) }
    ensures written { out.new ≡ written (poses_up moving slot_entries.now bodies.now (length bodies.now)) out.old }
{
    let mut count = 0;
    for slot in 0..bodies.len() {
        let pose = pose_asked(
            moving,
            slot as u32,
            slot_entries[slot].generation,
            &bodies[slot],
        );
        count = write_next(out, count, pose);
    }
    count
}

/// The same of a world.
fn write_poses_of(world: &WorldCore, moving: bool, out: &mut [CPose]) -> usize
    ensures count { result ≡ length (poses_of moving world.now.plain) }
    ensures written { out.new ≡ written (poses_of moving world.now.plain) out.old }
{
    write_poses(moving, world.slot_entries(), world.bodies(), out)
}

/// The poses of all bodies, by slot.
#[unsafe(no_mangle)]
pub extern "C" fn dm_poses(alloc: Global, world: &mut CWorld, out: &mut [CPose]) -> usize
    ensures kept { world.new.desk ≡ world.old.desk }
    ensures count { result ≡ length (poses_in false world.old.desk) }
    ensures written { out.new ≡ written (poses_in false world.old.desk) out.old }
{
    match take(alloc, world) {
        None => 0,
        Some(desk) => {
            let count = write_poses_of(&desk.world, false, out);
            put(world, desk);
            count
        }
    }
}

/// The poses of those bodies that a step may move: awake movers, and kinematic bodies.
#[unsafe(no_mangle)]
pub extern "C" fn dm_moved(alloc: Global, world: &mut CWorld, out: &mut [CPose]) -> usize
    ensures kept { world.new.desk ≡ world.old.desk }
    ensures count { result ≡ length (poses_in true world.old.desk) }
    ensures written { out.new ≡ written (poses_in true world.old.desk) out.old }
{
    match take(alloc, world) {
        None => 0,
        Some(desk) => {
            let count = write_poses_of(&desk.world, true, out);
            put(world, desk);
            count
        }
    }
}
