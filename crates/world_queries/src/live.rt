//! What a handle names.

ghost use Rattle.std.specs.Prelude.{◌≡◌};
ghost use Rattle.std.specs.Option.{option_copied};
ghost use Rattle.body_handles.specs.SlotEntries.{is_live};
ghost use Rattle.solver_sets.specs.Joining.{handle_at};
ghost use Rattle.world_rules.specs.World.{body_named};

use body_handles::SlotEntry;
use plain_world::{Body, item_at};
use world_core::{Handle, WorldCore};

/// Whether a handle names what has its slot now.
pub(crate) fn is_live(slot_entries: &[SlotEntry], handle: Handle) -> bool
    ensures { result ≡ is_live slot_entries.now handle }
{
    match slot_entries.get(handle.slot as usize) {
        Some(entry) => entry.live && entry.generation == handle.generation,
        None => false,
    }
}

/// The id at which a slot was given out, or will be.
pub(crate) fn handle_at(slot_entries: &[SlotEntry], slot: u32) -> Handle
    ensures { result ≡ handle_at slot_entries.now slot }
{
    let generation = match slot_entries.get(slot as usize) {
        Some(entry) => entry.generation,
        None => 1,
    };
    Handle { slot, generation }
}

/// The body that a handle names, with all that is kept of it; `None` where it doesn't live.
pub fn body_named(world: &WorldCore, handle: Handle) -> Option<&Body>
    ensures { option_copied result ≡ body_named world.now.plain handle }
{
    if is_live(world.slot_entries(), handle) {
        item_at(world.bodies(), handle.slot as usize)
    } else {
        None
    }
}
