//! What a query reads of a world, and a walk over its bodies without a copy.

ghost use Rattle.std.specs.Prelude.{◌≡◌, IfSome, Some, length, option_map};
ghost use Rattle.body_handles.specs.SlotEntries.{IsLive};
ghost use Rattle.plain_world.specs.Placement.{shape_of};
ghost use Rattle.shapes.specs.Poses.{IsPose};
ghost use Rattle.shapes.specs.Shapes.{IsShape};
ghost use Rattle.world_core.specs.Walks.{handle_in, handle_of};
ghost use Rattle.world_rules.specs.Sound.{IsSound};

use crate::WorldCore;
use body_handles::{Handle, SlotEntry};
use contacts_base::ShapeId;
use plain_world::shape_of;
use shapes::{Pose, Shape};

impl WorldCore {
    /// How many body slots were ever used.
    pub fn slots(&self) -> u32
        ensures slots { result ≡ length self.now.plain.bodies }
        ensures sound { IsSound self.now }
    {
        self.bodies().len() as u32
    }

    /// The shape of this name, and the pose of its body; `None` where it names no shape of an enabled body.
    pub fn shape_of(&self, id: ShapeId) -> Option<(&Shape, Pose)>
        ensures value { option_map (λ found. (found.0.now, found.1)) result ≡ shape_of self.now.plain.bodies id }
        ensures shape { IfSome result (λ found. IsShape found.0.now) }
        ensures pose { IfSome result (λ found. IsPose found.1) }
    {
        shape_of(self.bodies(), id)
    }

    /// The id of the body in a slot; `None` where the slot is free or was never used. `bodies` has the body itself in
    /// the same slot, so that both together are a walk over all bodies.
    pub fn handle_in(&self, slot: u32) -> Option<Handle>
        ensures value { result ≡ handle_in self.now.plain.slot_entries slot }
        ensures live { IfSome result (λ handle. IsLive self.now.plain.slot_entries handle) }
    {
        match self.slot_entries().get(slot as usize) {
            Some(entry) => handle_of(slot, *entry),
            None => None,
        }
    }

    /// The id of the joint in a slot; `None` where the slot is free or was never used.
    pub fn joint_in(&self, slot: u32) -> Option<Handle>
        ensures value { result ≡ handle_in self.now.plain.joint_entries slot }
        ensures live { IfSome result (λ handle. IsLive self.now.plain.joint_entries handle) }
    {
        match self.joint_entries().get(slot as usize) {
            Some(entry) => handle_of(slot, *entry),
            None => None,
        }
    }
}

/// The id of what the slot was given out for, if it is taken.
fn handle_of(slot: u32, entry: SlotEntry) -> Option<Handle>
    ensures { result ≡ handle_of slot (Some entry) }
{
    if entry.live {
        Some(Handle {
            slot,
            generation: entry.generation,
        })
    } else {
        None
    }
}
