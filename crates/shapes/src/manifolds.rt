//! The manifold of two shapes: the one or two points at which they touch.

ghost use Rattle.std.specs.Prelude.{◌≡◌, ℕ, ◌+◌, ◌*◌, ◌^◌, ◌≤◌, pos, ◌≤ℤ◌, [], IfSome, IfNone, unsigned_abs};
ghost use Rattle.fixed_geom.specs.Vectors.{IsWithin, minus};
ghost use Rattle.shapes.specs.Shapes.{IsShape};
ghost use Rattle.shapes.specs.Poses.{IsPose, IsPosed};
ghost use Rattle.shapes.specs.Spots.{pair_of};
ghost use Rattle.shapes.specs.Manifolds.{point_of, spots, allowed_spots, manifold_between, posed_pair, manifold_of};
ghost use Rattle.shapes.specs.PointsWithin.{IsPointWithin, IsSecond, IsLeastPoint, IsPair, IsSpot};

use crate::candidates::chosen_spots;
use crate::cores::cores_cross;
use crate::spots::{Pair, Spot};
use crate::{Core, MAX_RADIUS, Manifold, Point, Pose, Shape, core_of};
use fixed_geom::{MAX_OFFSET, MAX_POSITION, Vec2, minus};

/// A spot as two bodies with these centres keep it.
#[inline(always)]
pub(crate) fn point_of(center_a: Vec2, center_b: Vec2, spot: &Spot) -> Point
    requires first { IsWithin (unsigned_abs MAX_POSITION) center_a }
    requires second { IsWithin (unsigned_abs MAX_POSITION) center_b }
    requires spot { IsSpot spot.now }
    ensures { result ≡ point_of center_a center_b spot.now }
{
    Point {
        normal: spot.normal,
        separation: spot.separation,
        ra: minus(spot.at, center_a),
        rb: minus(spot.at, center_b),
        candidate: spot.candidate,
    }
}

fn manifold_between(pair: &Pair, center_a: Vec2, center_b: Vec2) -> Manifold
    requires pair { IsPair pair.now }
    requires first { IsWithin (unsigned_abs MAX_POSITION) center_a }
    requires second { IsWithin (unsigned_abs MAX_POSITION) center_b }
    ensures { result ≡ manifold_between pair.now center_a center_b }
{
    let chosen = chosen_spots(pair);
    let first = point_of(center_a, center_b, &chosen.first);
    match chosen.second {
        None => Manifold {
            first,
            second: None,
        },
        Some(second) => Manifold {
            first,
            second: Some(point_of(center_a, center_b, &second)),
        },
    }
}

/// Two cores with their radii, and whether the cores cross.
fn pair_of(a: Core, radius_a: i64, b: Core, radius_b: i64) -> Pair
    requires first { IsPosed a }
    requires second { IsPosed b }
    requires radius_a { unsigned_abs radius_a ≤ unsigned_abs MAX_RADIUS }
    requires radius_b { unsigned_abs radius_b ≤ unsigned_abs MAX_RADIUS }
    ensures value { result ≡ pair_of a radius_a b radius_b }
    ensures pair { IsPair result }
{
    Pair {
        a,
        b,
        radius_a,
        radius_b,
        crossing: cores_cross(&a, &b),
    }
}

/// The manifold of two shapes of bodies with these poses; `a` is the shape with the lesser number.
///
/// Each end of a core and the point of the other core nearest to it are a candidate. The first
/// point is the nearest candidate's, the lesser number's at the same distance; the second is the
/// next such one that lies at most `TOLERANCE` further, where the shapes overlap, and more than
/// that from the first. (Two points as in Box2D's manifolds; the candidates are this project's
/// own rule.) Where the bodies' centres are at most `k` u apart in each coordinate, no offset and no
/// separation is beyond `4·k + 2^28` u in size. Where the shapes touch, none is beyond 2^27 u, and
/// no centres need be near: a core's ends are within 1.5·2^24 u of its body's centre, and cores that
/// cross have a place in common.
pub fn manifold(a: &Shape, pose_a: Pose, b: &Shape, pose_b: Pose) -> Manifold
    requires first { IsShape a.now }
    requires first_pose { IsPose pose_a }
    requires second { IsShape b.now }
    requires second_pose { IsPose pose_b }
    ensures value { result ≡ manifold_of a.now pose_a b.now pose_b }
    ensures first { IsLeastPoint pose_a.x pose_b.x (spots (posed_pair a.now pose_a b.now pose_b)) result.first }
    ensures second { IfSome result.second (λ p. IsLeastPoint pose_a.x pose_b.x (allowed_spots (posed_pair a.now pose_a b.now pose_b)) p) }
    ensures other { IfSome result.second (λ p. IsSecond result.first p) }
    ensures alone { IfNone result.second (allowed_spots (posed_pair a.now pose_a b.now pose_b) ≡ []) }
    ensures first_near { (k : ℕ) → IsWithin k (minus pose_b.x pose_a.x) → IsPointWithin (4 * k + 2 ^ 28) result.first }
    ensures second_near { (k : ℕ) → IsWithin k (minus pose_b.x pose_a.x) → IfSome result.second (λ p. IsPointWithin (4 * k + 2 ^ 28) p) }
    ensures first_touching { result.first.separation ≤ℤ pos 0 → IsPointWithin (unsigned_abs MAX_OFFSET) result.first }
    ensures second_touching { IfSome result.second (λ p. IsPointWithin (unsigned_abs MAX_OFFSET) p) }
{
    let pair = pair_of(
        core_of(a, pose_a),
        a.radius(),
        core_of(b, pose_b),
        b.radius(),
    );
    manifold_between(&pair, pose_a.x, pose_b.x)
}
