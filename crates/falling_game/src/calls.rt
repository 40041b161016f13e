//! The world's calls that the game makes, in functions that promise nothing: so no proof of the game has to read what a
//! world promises.

use std::alloc::Global;
use world_core::{BodyView, Command, ContactKey, Handle, Refusal, Reply, Vec2, WorldCore};

pub fn new_world(alloc: Global, gravity: Vec2) -> Result<WorldCore, Refusal> {
    WorldCore::new(alloc, gravity)
}

pub fn apply(world: &mut WorldCore, command: &Command) -> Result<Reply, Refusal> {
    world.apply(command)
}

/// What is seen of one body.
pub fn view_of(world: &WorldCore, handle: Handle) -> Option<BodyView> {
    world.body(handle)
}

/// How many slots of bodies were ever used.
pub fn slots_of(world: &WorldCore) -> u32 {
    world.slots()
}

/// What is seen of the body in a slot, if there is one.
pub fn body_in(world: &WorldCore, slot: u32) -> Option<BodyView> {
    let handle = world.handle_in(slot)?;
    world.body(handle)
}

/// Which shapes began to touch in the last step.
pub fn meetings_of(world: &WorldCore) -> &[ContactKey] {
    world.events().begin()
}
