//! A line along which impulses pass between two bodies: the speed along it, and an impulse of a given size.

ghost use Rattle.std.specs.Prelude.{◌≡◌, ℕ, ◌^◌, ◌≤◌, ◌+◌, ◌*ℤ◌, unsigned_abs};
ghost use Rattle.fixed_geom.specs.Numbers.{rdiv};
ghost use Rattle.fixed_geom.specs.Vectors.{IsWithin, dot, unit_length};
ghost use Rattle.momenta.specs.Impulses.{parting, speed_along, along};
ghost use Rattle.momenta.specs.ImpulseBounds.{AreStates, IsLine};

use crate::Ends;
use crate::ranges::are_in;
use fixed_geom::{
    MAX_OFFSET, UNIT, Vec2, dot, dot_64, minus, rdiv, rdiv_unit_64, scaled, scaled_64,
};

/// A velocity whose components are at most this many u/tick has a product with a direction that has room in 64 bits.
pub(crate) const VELOCITY_LIMIT_64: i64 = 1 << 31;

/// An impulse below this has a product with a direction that has room in 64 bits.
const SIZE_LIMIT_64: i64 = 1 << 32;

/// A line along which impulses pass between two bodies: its direction (times 2^30), the offsets from the two centres at
/// which it meets them (u), the inverse of the mass that they show along it, times 2^40, and the reciprocal of that
/// inverse, with which impulses are taken.
#[derive(Clone, Copy, Debug, PartialEq, Eq)]
pub struct Line {
    pub direction: Vec2,
    pub ra: Vec2,
    pub rb: Vec2,
    pub inverse_mass: i128,
    pub reciprocal: i64,
}

/// Two bodies after an impulse, and the accumulated impulse along the line (mass·u/tick).
#[derive(Clone, Copy, Debug, PartialEq, Eq)]
pub struct Exerted {
    pub ends: Ends,
    pub total: i64,
}

/// The velocity at which the second body's point at the offset `rb` leaves the first's at `ra` (u), in u/tick.
#[tactic(auto, unfolding(crate::specs::Impulses::parting))]
#[inline(always)]
pub fn parting(ra: Vec2, rb: Vec2, ends: &Ends) -> Vec2
    requires first { IsWithin (unsigned_abs MAX_OFFSET) ra }
    requires second { IsWithin (unsigned_abs MAX_OFFSET) rb }
    requires states { AreStates ends.now }
    ensures value { result ≡ parting ra rb ends.now }
    ensures within { IsWithin (2 ^ 61 + 2 ^ 26) result }
{
    minus(ends.b.velocity_at(rb), ends.a.velocity_at(ra))
}

/// The speed along the line at which the second body's point leaves the first's, in u/tick.
#[tactic(auto, unfolding(crate::specs::Impulses::speed_along))]
#[inline(always)]
pub fn speed_along(line: &Line, ends: &Ends) -> i64
    requires line { IsLine line.now }
    requires states { AreStates ends.now }
    ensures value { result ≡ speed_along line.now ends.now }
    ensures within { unsigned_abs result ≤ 2 ^ 62 + 2 ^ 28 }
{
    part_along(parting(line.ra, line.rb, ends), line.direction)
}

/// The part of a velocity (u/tick) or of a way (u) along a direction (times 2^30), to the nearest.
#[inline(always)]
pub fn part_along(v: Vec2, direction: Vec2) -> i64
    requires v { IsWithin (2 ^ 61 + 2 ^ 26) v }
    requires direction { IsWithin (unsigned_abs UNIT) direction }
    ensures value { result ≡ rdiv (dot v direction) unit_length }
    ensures within { unsigned_abs result ≤ 2 ^ 62 + 2 ^ 28 }
    ensures near { IsWithin (2 ^ 38) v → unsigned_abs result ≤ 2 ^ 39 }
{
    if are_in(v.x, v.y, VELOCITY_LIMIT_64) {
        part_along_64(v, direction)
    } else {
        part_along_128(v, direction)
    }
}

/// `part_along` in 64 bits.
#[inline(always)]
pub(crate) fn part_along_64(v: Vec2, direction: Vec2) -> i64
    requires v { IsWithin (2 ^ 31) v }
    requires direction { IsWithin (unsigned_abs UNIT) direction }
    ensures value { result ≡ rdiv (dot v direction) unit_length }
    ensures within { unsigned_abs result ≤ 2 ^ 32 }
{
    rdiv_unit_64(dot_64(v, direction))
}

/// `part_along` in 128 bits.
#[cold]
#[inline(never)]
fn part_along_128(v: Vec2, direction: Vec2) -> i64
    requires v { IsWithin (2 ^ 61 + 2 ^ 26) v }
    requires direction { IsWithin (unsigned_abs UNIT) direction }
    ensures value { result ≡ rdiv (dot v direction) unit_length }
    ensures within { unsigned_abs result ≤ 2 ^ 62 + 2 ^ 28 }
    ensures near { IsWithin (2 ^ 38) v → unsigned_abs result ≤ 2 ^ 39 }
{
    rdiv(dot(v, direction), i128::from(UNIT)) as i64
}

/// The impulse of this size along a direction.
#[inline(always)]
pub(crate) fn along(direction: Vec2, size: i64) -> Vec2
    requires direction { IsWithin (unsigned_abs UNIT) direction }
    requires size { unsigned_abs size ≤ 2 ^ 44 }
    ensures value { result ≡ along direction size }
    ensures within { IsWithin (2 ^ 44) result }
{
    if -SIZE_LIMIT_64 < size && size < SIZE_LIMIT_64 {
        along_64(direction, size)
    } else {
        along_128(direction, size)
    }
}

/// `along` in 64 bits.
#[tactic(auto, unfolding(crate::specs::Impulses::along))]
#[inline(always)]
pub(crate) fn along_64(direction: Vec2, size: i64) -> Vec2
    requires direction { IsWithin (unsigned_abs UNIT) direction }
    requires size { unsigned_abs size ≤ 2 ^ 32 }
    ensures value { result ≡ along direction size }
    ensures within { (k : ℕ) → unsigned_abs size ≤ k → IsWithin k result }
{
    Vec2 {
        x: scaled_64(size, direction.x),
        y: scaled_64(size, direction.y),
    }
}

/// `along` in 128 bits.
#[tactic(auto, unfolding(crate::specs::Impulses::along))]
#[cold]
#[inline(never)]
fn along_128(direction: Vec2, size: i64) -> Vec2
    requires direction { IsWithin (unsigned_abs UNIT) direction }
    requires size { unsigned_abs size ≤ 2 ^ 44 }
    ensures value { result ≡ along direction size }
    ensures within { IsWithin (2 ^ 44) result }
{
    Vec2 {
        x: component_along(size, direction.x),
        y: component_along(size, direction.y),
    }
}

/// One component of an impulse along a direction.
fn component_along(size: i64, part: i64) -> i64
    requires size { unsigned_abs size ≤ 2 ^ 44 }
    requires part { unsigned_abs part ≤ 2 ^ 30 }
    ensures value { result ≡ rdiv (size *ℤ part) unit_length }
    ensures within { unsigned_abs result ≤ 2 ^ 44 }
{
    scaled(size, part)
}
