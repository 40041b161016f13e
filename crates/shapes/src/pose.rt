//! Where bodies and cores are in the world.

ghost use Rattle.std.specs.Prelude.{◌≡◌, ℕ, ◌+◌, ◌*◌, ◌^◌, ◌≤◌};
ghost use Rattle.fixed_geom.specs.Vectors.{IsWithin};
ghost use Rattle.shapes.specs.Shapes.{IsShape};
ghost use Rattle.shapes.specs.Poses.{IsPose, IsPosed, transformed, core_of};

use crate::{MAX_CORE, Shape};
use fixed_geom::{Rot, Vec2, plus, rotate_64};

/// Where a body is: its centre, in u, and its facing.
#[derive(Clone, Copy, Debug, PartialEq, Eq)]
pub struct Pose {
    pub x: Vec2,
    pub rot: Rot,
}

/// The core of a shape in the world, by its two ends. Where they are equal it is a point.
#[derive(Clone, Copy, Debug, PartialEq, Eq)]
pub struct Core {
    pub p: Vec2,
    pub q: Vec2,
}

/// Where in the world a point of a body is, given from the body's centre and at most 2^24 u from
/// it in each coordinate.
pub fn transformed(pose: Pose, v: Vec2) -> Vec2
    requires pose { IsPose pose }
    requires near { IsWithin MAX_CORE v }
    ensures value { result ≡ transformed pose v }
    ensures within { IsWithin (2 ^ 36 + 2 ^ 25) result }
{
    // The centre of most circles.
    if v.x == 0 && v.y == 0 {
        return pose.x;
    }
    plus(pose.x, rotate_64(pose.rot, v))
}

/// The core of a shape of a body with this pose.
pub fn core_of(shape: &Shape, pose: Pose) -> Core
    requires shape { IsShape shape.now }
    requires pose { IsPose pose }
    ensures value { result ≡ core_of shape.now pose }
    ensures transformed { IsPosed result }
    ensures first { IsWithin (2 ^ 36 + 2 ^ 25) result.p }
    ensures second { IsWithin (2 ^ 36 + 2 ^ 25) result.q }
{
    let p = transformed(pose, shape.first_end());
    match shape {
        Shape::Circle { .. } => Core { p, q: p },
        _ => Core {
            p,
            q: transformed(pose, shape.second_end()),
        },
    }
}
