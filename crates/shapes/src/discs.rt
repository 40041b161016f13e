//! Circles in the world, and the point at which two of them touch: their manifold by a way of its own, without the
//! choice among candidates.

ghost use Rattle.std.specs.Prelude.{◌≡◌, false, unsigned_abs, IfSome};
ghost use Rattle.fixed_geom.specs.Vectors.{IsWithin};
ghost use Rattle.fixed_geom.specs.declared.limits.TheConstants.{MAX_POSITION};
ghost use Rattle.shapes.specs.Shapes.{IsShape};
ghost use Rattle.shapes.specs.Poses.{IsPose};
ghost use Rattle.shapes.specs.PointsWithin.{IsPair};
ghost use Rattle.shapes.specs.Discs.{IsDisc, disc_of, disc_pair, disc_point};

use crate::manifolds::point_of;
use crate::spots::{Pair, measured, spot_in_place};
use crate::{Core, Point, Pose, Shape, transformed};
use fixed_geom::Vec2;

/// A circle in the world: its centre and its radius, in u.
#[derive(Clone, Copy, Debug, PartialEq, Eq)]
pub struct Disc {
    pub center: Vec2,
    pub radius: i64,
}

/// The circle that a shape of a body with this pose is; `None` for other shapes.
#[inline(always)]
pub fn disc_of(shape: &Shape, pose: Pose) -> Option<Disc>
    requires shape { IsShape shape.now }
    requires pose { IsPose pose }
    ensures value { result ≡ disc_of shape.now pose }
    ensures disc { IfSome result IsDisc }
{
    match shape {
        Shape::Circle { center, radius } => Some(Disc {
            center: transformed(pose, *center),
            radius: *radius,
        }),
        Shape::Capsule {
            first: _,
            second: _,
            radius: _,
        } => None,
        Shape::Segment {
            first: _,
            second: _,
        } => None,
    }
}

/// Two circles as a pair of cores that are points, which never cross.
#[inline(always)]
fn disc_pair(a: Disc, b: Disc) -> Pair
    requires first { IsDisc a }
    requires second { IsDisc b }
    ensures value { result ≡ disc_pair a b }
    ensures pair { IsPair result }
{
    Pair {
        a: Core {
            p: a.center,
            q: a.center,
        },
        b: Core {
            p: b.center,
            q: b.center,
        },
        radius_a: a.radius,
        radius_b: b.radius,
        crossing: false,
    }
}

/// The point at which two circles touch or are nearest, of bodies with these centres: the one point of their manifold.
#[inline(always)]
pub fn disc_point(a: Disc, b: Disc, center_a: Vec2, center_b: Vec2) -> Point
    requires first { IsDisc a }
    requires second { IsDisc b }
    requires first_center { IsWithin (unsigned_abs MAX_POSITION) center_a }
    requires second_center { IsWithin (unsigned_abs MAX_POSITION) center_b }
    ensures { result ≡ disc_point a b center_a center_b }
{
    let spot = spot_in_place(&disc_pair(a, b), &measured(0, a.center, b.center));
    point_of(center_a, center_b, &spot)
}
