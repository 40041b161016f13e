//! Where a ray first meets a shape.

ghost use Rattle.std.specs.Prelude.{◌≡◌, ◌^◌, ◌≤◌, true, false, Some, IfSome, unsigned_abs};
ghost use Rattle.fixed_geom.specs.Vectors.{IsWithin};
ghost use Rattle.shapes.specs.Shapes.{IsShape, radius_of};
ghost use Rattle.shapes.specs.Poses.{IsPose, IsPosed, core_of};
ghost use Rattle.shapes.specs.Cores.{is_point};
ghost use Rattle.shapes.specs.Rays.{IsBeam, to_side, shifted, is_inside, earliest, side_hits, hits, IsEarliest, core_ray, beam_of, ray_of};

use crate::beam::{Beam, earlier, end_hit, side_hit};
use crate::cores::{closest, is_point};
use crate::spots::across;
use crate::{Core, MAX_RADIUS, MAX_RAY, Pose, Shape, core_of};
use fixed_geom::{MAX_POSITION, Vec2, minus, opposite, plus, scaled, span};

/// From the core to the left side of the shape.
fn to_side(core: &Core, radius: i64) -> Vec2
    requires core { IsPosed core.now }
    requires radius { unsigned_abs radius ≤ unsigned_abs MAX_RADIUS }
    requires wide { is_point core.now ≡ false }
    ensures value { result ≡ to_side core.now radius }
    ensures within { IsWithin (2 ^ 24) result }
{
    let normal = across(core);
    Vec2 {
        x: scaled(radius, normal.x),
        y: scaled(radius, normal.y),
    }
}

/// The core moved by `by`.
fn shifted(core: &Core, by: Vec2) -> Core
    requires core { IsPosed core.now }
    requires by { IsWithin (2 ^ 24) by }
    ensures value { result ≡ shifted core.now by }
    ensures first { IsWithin (2 ^ 38) result.p }
    ensures second { IsWithin (2 ^ 38) result.q }
{
    Core {
        p: plus(core.p, by),
        q: plus(core.q, by),
    }
}

/// The position is no further from the core's nearest point than the radius.
#[tactic(auto, unfolding(crate::specs::Rays::is_inside))]
fn is_inside(core: &Core, radius: i64, position: Vec2) -> bool
    requires core { IsPosed core.now }
    requires position { IsWithin (unsigned_abs MAX_POSITION) position }
    ensures { result ≡ is_inside core.now radius position }
{
    span(minus(closest(core, position), position)) <= radius
}

/// The least of a hit and those on the two sides of a core that is no point.
fn earliest_with_sides(best: Option<u32>, beam: &Beam, core: &Core, radius: i64) -> Option<u32>
    requires beam { IsBeam beam.now }
    requires core { IsPosed core.now }
    requires radius { unsigned_abs radius ≤ unsigned_abs MAX_RADIUS }
    requires wide { is_point core.now ≡ false }
    ensures { result ≡ earliest best (side_hits beam.now core.now radius) }
{
    if radius == 0 {
        return earlier(best, side_hit(beam, core));
    }
    let by = to_side(core, radius);
    let left = side_hit(beam, &shifted(core, by));
    let right = side_hit(beam, &shifted(core, opposite(by)));
    earlier(earlier(best, left), right)
}

#[tactic(auto, unfolding(crate::specs::Rays::core_ray))]
fn core_ray(beam: &Beam, core: &Core, radius: i64) -> Option<u32>
    requires beam { IsBeam beam.now }
    requires core { IsPosed core.now }
    requires radius { unsigned_abs radius ≤ unsigned_abs MAX_RADIUS }
    ensures { result ≡ core_ray beam.now core.now radius }
{
    if is_inside(core, radius, beam.from) {
        return Some(0);
    }
    let first = end_hit(beam, radius, core.p);
    if is_point(core) {
        return first;
    }
    let second = end_hit(beam, radius, core.q);
    earliest_with_sides(earlier(first, second), beam, core, radius)
}

/// Where the ray from `from` along `along` first meets the shape of a body with this pose, as a
/// fraction of its way times 2^24, from 0 where it starts in the shape to 16,777,216 at its end;
/// `None` where it misses.
///
/// Each end of the core is met as a circle, and each side as a line (this project's own rule). A
/// way of zero meets only a shape that holds the start.
pub fn ray(shape: &Shape, pose: Pose, from: Vec2, along: Vec2) -> Option<u32>
    requires shape { IsShape shape.now }
    requires pose { IsPose pose }
    requires from { IsWithin (unsigned_abs MAX_POSITION) from }
    requires along { IsWithin (unsigned_abs MAX_RAY) along }
    ensures value { result ≡ ray_of shape.now pose from along }
    ensures within { IfSome result (λ t. t ≤ 2 ^ 24) }
    ensures start { is_inside (core_of shape.now pose) (radius_of shape.now) from ≡ true → result ≡ Some 0 }
    ensures earliest { is_inside (core_of shape.now pose) (radius_of shape.now) from ≡ false → IsEarliest result (hits (beam_of from along) (core_of shape.now pose) (radius_of shape.now)) }
{
    core_ray(&Beam { from, along }, &core_of(shape, pose), shape.radius())
}
