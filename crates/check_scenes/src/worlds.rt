//! Worlds that commands make.

use crate::making::{NO_GRAVITY, apply_all};
use crate::world::World;
use std::alloc::Global;
use world_core::{Command, Refusal};

/// Two equal worlds.
#[derive(Drop)]
pub struct Worlds<W: World> {
    /// The one to which something is done.
    pub world: W,
    /// What it was before.
    pub reference: W,
}

fn filled_by<W: World>(world: &mut W, commands: &[Command]) -> Result<W, Refusal> {
    apply_all(world, commands)?;
    world.copied()
}

/// A world in which commands were made. It is a copy, whose lists have no spare room, so that whatever grows asks for
/// memory.
pub fn world_after<W: World>(alloc: Global, commands: &[Command]) -> Result<W, Refusal> {
    match W::empty(alloc, NO_GRAVITY) {
        Ok(mut world) => filled_by(&mut world, commands),
        Err(refusal) => Err(refusal),
    }
}

fn with_copy<W: World>(world: W) -> Result<Worlds<W>, Refusal> {
    match world.copied() {
        Ok(reference) => Ok(Worlds { world, reference }),
        Err(refusal) => Err(refusal),
    }
}

impl<W: World> Worlds<W> {
    /// The world in which commands were made, twice.
    pub fn after(alloc: Global, commands: &[Command]) -> Result<Worlds<W>, Refusal> {
        match world_after(alloc, commands) {
            Ok(world) => with_copy(world),
            Err(refusal) => Err(refusal),
        }
    }
}
