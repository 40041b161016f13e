//! Where two shapes touch: the nearest points of their cores, and the contact point of each pair of
//! nearest points.

ghost use Rattle.std.specs.Prelude.{◌≡◌, ℕ, ◌+◌, ◌*◌, ◌^◌, ◌<◌, ◌≤◌, false, pos, neg_ℤ, ◌≤ℤ◌, ◌-ℤ◌, ◌+ℤ◌, unsigned_abs};
ghost use Rattle.fixed_geom.specs.Numbers.{fdiv};
ghost use Rattle.fixed_geom.specs.Vectors.{IsWithin, moved};
ghost use Rattle.shapes.specs.Poses.{IsPosed};
ghost use Rattle.shapes.specs.Cores.{is_point};
ghost use Rattle.shapes.specs.Spots.{measured, square_to, across, flat_normal, normal_of, flipped, separation_of, spot_of};
ghost use Rattle.shapes.specs.PointsWithin.{IsPair, IsCandidate, IsSpot};

use crate::cores::{is_point, way_of};
use crate::{Core, MAX_RADIUS};
use fixed_geom::{UNIT, Vec2, minus, moved, moved_64, opposite, span, unit, unit_along};

/// A distance up to this has a product with a unit vector that has room in 64 bits.
const MAX_DISTANCE_64: u64 = 1 << 32;

/// Two shapes in the world: their cores and radii, in u, and whether the cores cross.
#[derive(Clone, Copy, Debug, PartialEq, Eq)]
pub(crate) struct Pair {
    pub a: Core,
    pub b: Core,
    pub radius_a: i64,
    pub radius_b: i64,
    pub crossing: bool,
}

/// An end of one core and the nearest point of the other: `a` on the first core, `b` on the
/// second, and the distance between them, in u.
#[derive(Clone, Copy, Debug, PartialEq, Eq)]
pub(crate) struct Candidate {
    pub number: u64,
    pub a: Vec2,
    pub b: Vec2,
    pub dist: i64,
}

/// What a candidate makes of the contact: the normal from the first shape to the second, times
/// 2^30, the separation (below zero where the shapes overlap) and the contact point, in u.
#[derive(Clone, Copy, Debug, PartialEq, Eq)]
pub(crate) struct Spot {
    pub candidate: u64,
    pub dist: i64,
    pub normal: Vec2,
    pub separation: i64,
    pub at: Vec2,
}

/// The candidate of these two points.
pub(crate) fn measured(number: u64, a: Vec2, b: Vec2) -> Candidate
    requires first { IsWithin (2 ^ 39) a }
    requires second { IsWithin (2 ^ 39) b }
    ensures value { result ≡ measured number a b }
    ensures candidate { IsCandidate result }
{
    Candidate {
        number,
        a,
        b,
        dist: span(minus(b, a)),
    }
}

/// `v` turned to the left by a quarter.
pub(crate) fn square_to(v: Vec2) -> Vec2
    requires { IsWithin (2 ^ 40) v }
    ensures value { result ≡ square_to v }
    ensures within { (k : ℕ) → IsWithin k v → IsWithin k result }
    ensures same { unsigned_abs result.x + unsigned_abs result.y ≡ unsigned_abs v.x + unsigned_abs v.y }
{
    Vec2 { x: -v.y, y: v.x }
}

/// The unit vector square to a core that is no point.
pub(crate) fn across(core: &Core) -> Vec2
    requires core { IsPosed core.now }
    requires wide { is_point core.now ≡ false }
    ensures value { result ≡ across core.now }
    ensures within { IsWithin (unsigned_abs UNIT) result }
{
    unit(square_to(way_of(core)))
}

/// The normal where the two nearest points are one: square to the second core, if that is a point
/// square to the first, and up if both are points.
#[tactic(auto, unfolding(crate::specs::Spots::flat_normal))]
fn flat_normal(a: &Core, b: &Core) -> Vec2
    requires first { IsPosed a.now }
    requires second { IsPosed b.now }
    ensures value { result ≡ flat_normal a.now b.now }
    ensures within { IsWithin (unsigned_abs UNIT) result }
{
    if is_point(b) {
        if is_point(a) {
            Vec2 { x: 0, y: UNIT }
        } else {
            across(a)
        }
    } else {
        across(b)
    }
}

/// The normal of a candidate: along the way from `a` to `b`, and against it where the cores cross.
#[inline(always)]
#[tactic(auto, unfolding(crate::specs::Spots::normal_of))]
fn normal_of(pair: &Pair, candidate: &Candidate) -> Vec2
    requires pair { IsPair pair.now }
    requires candidate { IsCandidate candidate.now }
    ensures value { result ≡ normal_of pair.now candidate.now }
    ensures within { IsWithin (unsigned_abs UNIT) result }
{
    if candidate.dist == 0 {
        return flat_normal(&pair.a, &pair.b);
    }
    let normal = unit_along(minus(candidate.b, candidate.a), candidate.dist);
    if pair.crossing {
        opposite(normal)
    } else {
        normal
    }
}

fn flipped(flip: bool, x: i64) -> i64
    requires { unsigned_abs x ≤ 2 ^ 41 }
    ensures value { result ≡ flipped flip x }
    ensures small { unsigned_abs result ≤ 2 ^ 41 }
{
    if flip { -x } else { x }
}

fn gap(dist: i64, radius_a: i64, radius_b: i64) -> i64
    requires dist { unsigned_abs dist ≤ 2 ^ 41 }
    requires first { unsigned_abs radius_a ≤ unsigned_abs MAX_RADIUS }
    requires second { unsigned_abs radius_b ≤ unsigned_abs MAX_RADIUS }
    ensures value { result ≡ dist -ℤ radius_a -ℤ radius_b }
    ensures small { unsigned_abs result ≤ 2 ^ 42 }
{
    dist - radius_a - radius_b
}

/// How far the two shapes are apart at a candidate; how deep they overlap, below zero.
#[tactic(auto, unfolding(crate::specs::Spots::separation_of))]
pub(crate) fn separation_of(pair: &Pair, candidate: &Candidate) -> i64
    requires pair { IsPair pair.now }
    requires candidate { IsCandidate candidate.now }
    ensures value { result ≡ separation_of pair.now candidate.now }
    ensures small { unsigned_abs result ≤ 2 ^ 42 }
{
    gap(
        flipped(pair.crossing, candidate.dist),
        pair.radius_a,
        pair.radius_b,
    )
}

/// Half of `x`, rounded down.
fn half(x: i64) -> i64
    ensures value { result ≡ fdiv x (pos 2) }
    ensures small { unsigned_abs result ≤ unsigned_abs x }
{
    x.div_euclid(2)
}

/// How far from `a` along the normal the contact point lies: halfway between the two surfaces.
fn reach(radius: i64, separation: i64) -> i64
    requires first { unsigned_abs radius ≤ unsigned_abs MAX_RADIUS }
    requires second { unsigned_abs separation ≤ 2 ^ 42 }
    ensures value { result ≡ radius +ℤ fdiv separation (pos 2) }
    ensures small { unsigned_abs result ≤ 2 ^ 43 }
{
    radius + half(separation)
}

/// The place at this distance from another along a normal, in 64 bits where the distance leaves room.
fn position_along(from: Vec2, normal: Vec2, distance: i64) -> Vec2
    requires from { IsWithin (2 ^ 39) from }
    requires normal { IsWithin (unsigned_abs UNIT) normal }
    requires distance { unsigned_abs distance ≤ 2 ^ 43 }
    ensures value { result ≡ moved from normal distance }
    ensures within { IsWithin (2 ^ 44) result }
{
    if distance.unsigned_abs() <= MAX_DISTANCE_64 {
        moved_64(from, normal, distance)
    } else {
        moved(from, normal, distance)
    }
}

/// `spot_of`, written out where it is called: of cores that are known to be points little is left of it.
#[inline(always)]
pub(crate) fn spot_in_place(pair: &Pair, candidate: &Candidate) -> Spot
    requires pair { IsPair pair.now }
    requires candidate { IsCandidate candidate.now }
    ensures value { result ≡ spot_of pair.now candidate.now }
    ensures spot { IsSpot result }
{
    let normal = normal_of(pair, candidate);
    let separation = separation_of(pair, candidate);
    let at = position_along(candidate.a, normal, reach(pair.radius_a, separation));
    Spot {
        candidate: candidate.number,
        dist: candidate.dist,
        normal,
        separation,
        at,
    }
}

/// The contact point of a candidate.
#[inline(never)]
pub(crate) fn spot_of(pair: &Pair, candidate: &Candidate) -> Spot
    requires pair { IsPair pair.now }
    requires candidate { IsCandidate candidate.now }
    ensures value { result ≡ spot_of pair.now candidate.now }
    ensures spot { IsSpot result }
{
    spot_in_place(pair, candidate)
}
