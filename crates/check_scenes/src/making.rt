//! What worlds are made of.

use crate::world::World;
use std::alloc::Global;
use world_core::{
    BodyDef, Command, Handle, JointDef, Kind, MassData, Refusal, Rot, ShapeDef, Shapes, Vec2,
};

pub const NO_MASS: MassData = MassData {
    mass: 0,
    inertia: 0,
};

/// The body, or the joint, in the first slot.
pub const FIRST: Handle = Handle {
    slot: 0,
    generation: 1,
};

pub const ORIGIN: Vec2 = Vec2 { x: 0, y: 0 };

pub const NO_GRAVITY: Vec2 = ORIGIN;

pub const PULL: Vec2 = Vec2 { x: 0, y: -157 };

/// A facing that is not turned.
pub const UPRIGHT: Rot = Rot { c: 1 << 30, s: 0 };

/// A place to the right of the origin, or to the left of it.
pub fn right(x: i64) -> Vec2 {
    Vec2 { x, y: 0 }
}

/// A body of one shape.
pub fn body_of(
    alloc: Global,
    kind: Kind,
    mass: MassData,
    x: Vec2,
    shape: ShapeDef,
) -> Result<Command, Refusal> {
    let mut shapes = Shapes::new(alloc);
    shapes.push(shape)?;
    Ok(Command::CreateBody(BodyDef {
        kind,
        mass,
        x,
        rot: UPRIGHT,
        shapes,
    }))
}

/// A joint of two centres.
pub fn between(a: Handle, b: Handle, length: i64) -> JointDef {
    JointDef {
        a,
        b,
        from: ORIGIN,
        to: ORIGIN,
        length,
        collide: false,
    }
}

/// Adds a command to others, if it was made.
pub fn add_made(
    commands: &mut Vec<Command>,
    made: Result<Command, Refusal>,
) -> Result<(), Refusal> {
    match made {
        Ok(command) => {
            commands.push(command)?;
            Ok(())
        }
        Err(refusal) => Err(refusal),
    }
}

/// Applies commands, each of which has to be accepted.
pub fn apply_all<W: World>(world: &mut W, commands: &[Command]) -> Result<(), Refusal> {
    for command in commands {
        let _ = world.apply(command)?;
    }
    Ok(())
}
