//! Three hundred circles over a floor.

use crate::making::{NO_MASS, ORIGIN, PULL, add_made, body_of};
use std::alloc::Global;
use world_core::{Command, Kind, MassData, Refusal, Shape, ShapeDef, Vec2};

/// How many circles there are. Their slots begin with 1, after the floor's.
pub const CIRCLES: u64 = 300;

/// Half of the floor's length, in u.
const HALF: i64 = 4_194_304;

const MASS: MassData = MassData {
    mass: 16,
    inertia: 8_589_934_592,
};

const RADIUS: i64 = 32_768;

/// How far the centres of neighbours in a pile are from each other, in u. It is less than two radii, so that they touch
/// at once.
const APART: i64 = 60_000;

/// How high the centres of the lowest row lie over the floor, in u.
const LOWEST: i64 = 100_000;

/// How many circles stand on each other.
const ROWS: i64 = 15;

/// How far to the right of the first pile the second one begins, in u.
const NEXT_PILE: i64 = 2_000_000;

/// What the circles form.
#[derive(Clone, Copy)]
pub enum Piles {
    /// One pile of twenty columns.
    One,
    /// Two of ten columns each, which don't touch.
    Two,
    /// One of sixty columns.
    Wide,
}

fn floor(alloc: Global) -> Result<Command, Refusal> {
    let shape = ShapeDef {
        shape: Shape::Segment {
            first: Vec2 { x: -HALF, y: 0 },
            second: Vec2 { x: HALF, y: 0 },
        },
        friction: 0,
        ..ShapeDef::default()
    };
    body_of(alloc, Kind::Static, NO_MASS, ORIGIN, shape)
}

fn circle(alloc: Global, center: Vec2) -> Result<Command, Refusal> {
    let shape = ShapeDef {
        shape: Shape::Circle {
            center: ORIGIN,
            radius: RADIUS,
        },
        friction: 128,
        ..ShapeDef::default()
    };
    body_of(alloc, Kind::Dynamic, MASS, center, shape)
}

/// The place so many neighbours to the right of another.
fn beside(left: Vec2, column: i64) -> Vec2 {
    Vec2 {
        x: column.saturating_mul(APART).saturating_add(left.x),
        y: left.y,
    }
}

/// Where a row of a pile begins whose left side is there.
fn row_at(left: i64, row: i64) -> Vec2 {
    Vec2 {
        x: left,
        y: row.saturating_mul(APART).saturating_add(LOWEST),
    }
}

/// Adds a row of circles to the right of a place.
fn add_row(
    alloc: Global,
    commands: &mut Vec<Command>,
    columns: i64,
    left: Vec2,
) -> Result<(), Refusal> {
    for column in 0..columns {
        add_made(commands, circle(alloc, beside(left, column)))?;
    }
    Ok(())
}

/// Adds a pile of so many columns to the right of a place on the floor.
fn add_pile(
    alloc: Global,
    commands: &mut Vec<Command>,
    columns: i64,
    left: i64,
) -> Result<(), Refusal> {
    for row in 0..ROWS {
        add_row(alloc, commands, columns, row_at(left, row))?;
    }
    Ok(())
}

impl Piles {
    /// Adds gravity, a floor and these piles.
    fn add(self, alloc: Global, commands: &mut Vec<Command>) -> Result<(), Refusal> {
        add_made(commands, Ok(Command::SetGravity(PULL)))?;
        add_made(commands, floor(alloc))?;
        match self {
            Piles::One => add_pile(alloc, commands, 20, 0),
            Piles::Two => {
                add_pile(alloc, commands, 10, 0)?;
                add_pile(alloc, commands, 10, NEXT_PILE)
            }
            Piles::Wide => add_pile(alloc, commands, 60, 0),
        }
    }

    /// The commands that make them.
    pub fn commands(self, alloc: Global) -> Result<Vec<Command>, Refusal> {
        let mut commands = Vec::new(alloc);
        self.add(alloc, &mut commands)?;
        Ok(commands)
    }
}
