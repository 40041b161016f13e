//! The shapes of bodies: which are allowed, the boxes round them, where two of them touch, and
//! where a ray hits one.
//!
//! A shape is a core, which is one point or the way between two, and all that lies within a radius
//! of it. A circle's core is a point; a capsule's and a segment's have two ends. Only `Shapes`, the
//! list that a body has, takes memory, and only `check` refuses a shape.
#![tactic(auto)]

mod beam;
mod bounds;
mod candidates;
mod choice;
mod cores;
mod discs;
mod filter;
mod limits;
mod manifolds;
mod mixing;
mod points;
mod pose;
mod rays;
mod shape;
mod spots;

pub use bounds::{fat_box, tight_box};
pub use discs::{Disc, disc_of, disc_point};
pub use filter::{Filter, should_collide};
pub use limits::{
    MARGIN, MAX_CORE, MAX_FRICTION, MAX_RADIUS, MAX_RAY, MAX_RESTITUTION, MAX_SHAPES, TOLERANCE,
    check, is_between, limits_in_digits,
};
pub use manifolds::manifold;
pub use mixing::{mixed_friction, mixed_restitution};
pub use points::{Manifold, Point};
pub use pose::{Core, Pose, core_of, transformed};
pub use rays::ray;
pub use shape::{Shape, ShapeDef, Shapes};
