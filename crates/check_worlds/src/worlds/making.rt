//! What worlds are made of, beside what all programs that check worlds have for that.

use check_scenes::{ORIGIN, body_of, right};
use std::alloc::Global;
use world_core::{
    Command, Constraint, ContactKey, Handle, Kind, MassData, Refusal, Shape, ShapeDef, ShapeId,
    Vec2,
};

/// The body, or the joint, in the second slot.
pub const SECOND: Handle = Handle {
    slot: 1,
    generation: 1,
};

/// A handle that no check gives out.
pub const STALE: Handle = Handle {
    slot: 0,
    generation: 9,
};

pub fn circle(radius: i64) -> ShapeDef {
    ShapeDef {
        shape: Shape::Circle {
            center: ORIGIN,
            radius,
        },
        ..ShapeDef::default()
    }
}

/// A dynamic body of one shape, or a static one where the mass is 0.
pub fn create_of(alloc: Global, mass: i64, x: Vec2, shape: ShapeDef) -> Result<Command, Refusal> {
    let kind = if mass == 0 {
        Kind::Static
    } else {
        Kind::Dynamic
    };
    body_of(alloc, kind, MassData { mass, inertia: 0 }, x, shape)
}

fn first_shape(slot: u32) -> ShapeId {
    ShapeId { slot, index: 0 }
}

/// The contact of the first shapes of the bodies in two slots.
pub fn contact(first: u32, second: u32) -> Constraint {
    Constraint::Contact(ContactKey {
        first: first_shape(first),
        second: first_shape(second),
    })
}
