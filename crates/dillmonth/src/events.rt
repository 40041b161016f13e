//! The events of step after step, which a world keeps until they are cleared, and the tags of bodies, which they have.

ghost use Rattle.std.specs.Prelude.{◌≡◌, length, map};
ghost use Rattle.dillmonth.specs.Events.{AreTold, AreToldIn, Clears, IsCleared, Tags, TagsAt, event_shown, tag_in};
ghost use Rattle.dillmonth.specs.Forms.{handle_said};
ghost use Rattle.world_rules.specs.World.{body_named};

use crate::conversions::handle_of;
use crate::forms::{CEvent, CHandle};
use crate::held::{CWorld, put, take};
use crate::shown::write_all;
use crate::statuses::{DONE, NO_WORLD, status_of};
use std::alloc::Global;
use world_core::Handle;
use world_desk::Desk;

/// Writes and counts the events that a desk keeps; 1 where memory is wanting for those of the last step.
fn write_events(alloc: Global, desk: &mut Desk, out: &mut [CEvent], count: &mut usize) -> u32
    ensures { AreTold desk.old result count.old count.new out.old out.new desk.new }
{
    match desk.log_last(alloc) {
        Ok(()) => {
            *count = write_all(desk.log.as_slice(), out);
            DONE
        }
        Err(refusal) => status_of(refusal),
    }
}

/// The events of all steps since `dm_events_clear`, step by step, as many as fit; `count` tells how many there are.
/// They stay until they are cleared. Refused 1 where memory is wanting for those of the last step; nothing is written
/// then.
#[unsafe(no_mangle)]
pub extern "C" fn dm_events(
    alloc: Global,
    world: &mut CWorld,
    out: &mut [CEvent],
    count: &mut usize,
) -> u32
    ensures { AreToldIn world.old.desk result count.old count.new out.old out.new world.new.desk }
{
    match take(alloc, world) {
        None => NO_WORLD,
        Some(mut desk) => {
            let status = write_events(alloc, &mut desk, out, count);
            put(world, desk);
            status
        }
    }
}

/// Drops the events that were kept. From now on those of each step are kept; none are where `keeps` is 0, as in a world
/// that never had this call.
#[unsafe(no_mangle)]
pub extern "C" fn dm_events_clear(alloc: Global, world: &mut CWorld, keeps: u32) -> u32
    ensures { Clears keeps world.old.desk result world.new.desk }
{
    match take(alloc, world) {
        None => NO_WORLD,
        Some(mut desk) => {
            desk.clear_events(keeps != 0);
            put(world, desk);
            DONE
        }
    }
}

/// The tag of a body: that which it was given, or 0. That of a body that is gone is told until another body in its slot
/// is given one.
#[unsafe(no_mangle)]
pub extern "C" fn dm_tag(alloc: Global, world: &mut CWorld, body: CHandle) -> u64
    ensures kept { world.new.desk ≡ world.old.desk }
    ensures tag { result ≡ tag_in world.old.desk body }
{
    match take(alloc, world) {
        None => 0,
        Some(desk) => {
            let tag = desk.tag_of(handle_of(body));
            put(world, desk);
            tag
        }
    }
}

/// Gives a body of a desk a tag; 2 where it doesn't live, 1 where memory is wanting.
fn set_tag(alloc: Global, desk: &mut Desk, body: Handle, tag: u64) -> u32
    ensures { TagsAt (body_named desk.old.world.plain body) body tag desk.old result desk.new }
{
    if world_queries::body_named(&desk.world, body).is_none() {
        return 2;
    }
    match desk.set_tag(alloc, body, tag) {
        Ok(()) => DONE,
        Err(refusal) => status_of(refusal),
    }
}

/// Gives a body a tag, which its view and its events from now on have. A tag is no part of the world: no save and no
/// digest has it, and a copy has it too. Refused 2 where the id names no body, else 1 where memory is wanting.
#[unsafe(no_mangle)]
pub extern "C" fn dm_set_tag(alloc: Global, world: &mut CWorld, body: CHandle, tag: u64) -> u32
    ensures { Tags body tag world.old.desk result world.new.desk }
{
    match take(alloc, world) {
        None => NO_WORLD,
        Some(mut desk) => {
            let status = set_tag(alloc, &mut desk, handle_of(body), tag);
            put(world, desk);
            status
        }
    }
}
