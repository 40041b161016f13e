//! What shared worlds are made of: one circle, one that falls, and a heap of circles.

use check_scenes::{NO_MASS, ORIGIN, PULL, add_made, body_of};
use std::alloc::Global;
use world_core::{Command, Course, Handle, Kind, MassData, Refusal, Shape, ShapeDef, Vec2};

/// One circle of mass 1 that doesn't turn, without gravity. Its world has accepted one call.
pub const POINT: &str = "circle 1 0 0 0 100";

/// One circle of one sixteenth of a metre that falls. Its world has accepted two calls.
pub const FALLING: &str = "gravity 0 -157
circle 256 0 0 0 65536";

pub const METRE: i64 = 1 << 20;

/// How far the circles of the heap stand from the middle, and how high.
const COLUMNS: [i64; 6] = [-3 * METRE, -2 * METRE, -METRE, 0, METRE, 2 * METRE];

const ROWS: [i64; 4] = [METRE / 2, METRE + METRE / 2, 3 * METRE, 5 * METRE];

/// How many bodies the heap has: a floor, a lift and its circles.
pub const BODIES: u32 = 26;

/// The kinematic body of the heap, and the second of all bodies.
pub const LIFT: Handle = Handle {
    slot: 1,
    generation: 1,
};

fn circle(radius: i64) -> ShapeDef {
    ShapeDef {
        shape: Shape::Circle {
            center: ORIGIN,
            radius,
        },
        friction: 128,
        restitution: 64,
        ..ShapeDef::default()
    }
}

/// A circle of half a metre that moves.
pub fn mover(alloc: Global, x: Vec2) -> Result<Command, Refusal> {
    let mass = MassData {
        mass: 256,
        inertia: 1 << 45,
    };
    body_of(alloc, Kind::Dynamic, mass, x, circle(METRE / 2))
}

fn floor(alloc: Global) -> Result<Command, Refusal> {
    let reach = 16 * METRE;
    let shape = ShapeDef {
        shape: Shape::Segment {
            first: Vec2 { x: -reach, y: 0 },
            second: Vec2 { x: reach, y: 0 },
        },
        friction: 128,
        ..ShapeDef::default()
    };
    body_of(alloc, Kind::Static, NO_MASS, ORIGIN, shape)
}

fn lift(alloc: Global) -> Result<Command, Refusal> {
    let course = Course {
        velocity: Vec2 { x: 300, y: 0 },
        spin: 0,
    };
    let x = Vec2 {
        x: -8 * METRE,
        y: 2 * METRE,
    };
    body_of(alloc, Kind::Kinematic(course), NO_MASS, x, circle(METRE))
}

/// Adds a row of circles.
fn add_row(alloc: Global, commands: &mut Vec<Command>, y: i64) -> Result<(), Refusal> {
    for x in COLUMNS {
        add_made(commands, mover(alloc, Vec2 { x, y }))?;
    }
    Ok(())
}

fn add_heap(alloc: Global, commands: &mut Vec<Command>) -> Result<(), Refusal> {
    add_made(commands, Ok(Command::SetGravity(PULL)))?;
    add_made(commands, floor(alloc))?;
    add_made(commands, lift(alloc))?;
    for y in ROWS {
        add_row(alloc, commands, y)?;
    }
    add_made(commands, Ok(Command::Step(4)))
}

/// The commands that make a floor, a lift and circles that fall onto them. The last step begins contacts.
pub fn heap_commands(alloc: Global) -> Result<Vec<Command>, Refusal> {
    let mut commands = Vec::new(alloc);
    add_heap(alloc, &mut commands)?;
    Ok(commands)
}
