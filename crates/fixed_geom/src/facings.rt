//! Facings: a direction as a cosine and a sine, both times 2^30.

ghost use Rattle.std.specs.Prelude.{◌≡◌, ℕ, ◌+◌, ◌*◌, ◌^◌, ◌≤◌, unsigned_abs, IsTrue, ◌↔◌};
ghost use Rattle.fixed_geom.specs.Vectors.{IsWithin};
ghost use Rattle.fixed_geom.specs.Facings.{IsFacing, is_facing, rotate, IsLong, swung, facing_along, turn};

use crate::products::{difference_of_products, sum_of_products};
use crate::products_64::{cross_64, dot_64, rdiv_unit_64, spin_scaled_64};
use crate::{MAX_SPIN, Vec2, rdiv_unit, unit};

/// A facing: the cosine and the sine of an angle, times 2^30. Its length as a vector is within 2
/// of 2^30, as `is_facing` tests (this project's own limit).
#[derive(Clone, Copy, Debug, PartialEq, Eq)]
pub struct Rot {
    pub c: i64,
    pub s: i64,
}

/// The greatest size of a facing's cosine and sine, and the greatest length of a facing.
pub const MAX_FACING: u64 = (1 << 30) + 2;

/// The least length of a facing.
pub const MIN_FACING: u64 = (1 << 30) - 2;

/// The length of `(c, s)`, rounded down, is within 2 of 2^30; of any two numbers.
pub fn is_facing(q: Rot) -> bool
    ensures value { result ≡ is_facing q }
    ensures facing { IsTrue result ↔ IsFacing q }
{
    let c = q.c.unsigned_abs();
    let s = q.s.unsigned_abs();
    if c > MAX_FACING || s > MAX_FACING {
        return false;
    }
    let square = c * c + s * s;
    MIN_FACING * MIN_FACING <= square && square < (MAX_FACING + 1) * (MAX_FACING + 1)
}

/// `v`, of components up to 2^60, turned by the facing `q`: the product of two complex numbers,
/// each part rounded to the nearest. No component more than doubles.
pub fn rotate(q: Rot, v: Vec2) -> Vec2
    requires facing { IsFacing q }
    requires position { IsWithin (2 ^ 60) v }
    ensures value { result ≡ rotate q v }
    ensures within { (k : ℕ) → IsWithin k v → IsWithin (2 * k) result }
{
    Vec2 {
        x: rdiv_unit(difference_of_products(q.c, v.x, q.s, v.y)),
        y: rdiv_unit(sum_of_products(q.s, v.x, q.c, v.y)),
    }
}

/// `rotate` in 64 bits, of components up to 2^30: the cross and the scalar product of the facing
/// with `v` mirrored.
pub fn rotate_64(q: Rot, v: Vec2) -> Vec2
    requires facing { IsFacing q }
    requires position { IsWithin (2 ^ 30) v }
    ensures value { result ≡ rotate q v }
    ensures within { (k : ℕ) → IsWithin k v → IsWithin (2 * k) result }
{
    let direction = Vec2 { x: q.c, y: q.s };
    let mirrored = Vec2 { x: v.y, y: v.x };
    Vec2 {
        x: rdiv_unit_64(cross_64(direction, mirrored)),
        y: rdiv_unit_64(dot_64(direction, mirrored)),
    }
}

/// The direction of `q` moved along its own tangent by `w / 2^30`. Its length is at least half of
/// one, so that it still has a direction.
fn swung(q: Rot, w: i64) -> Vec2
    requires facing { IsFacing q }
    requires spin { unsigned_abs w ≤ unsigned_abs MAX_SPIN }
    ensures value { result ≡ swung q w }
    ensures within { IsWithin (2 ^ 31) result }
    ensures long { IsLong result }
{
    Vec2 {
        x: q.c - spin_scaled_64(w, q.s),
        y: q.s + spin_scaled_64(w, q.c),
    }
}

/// The facing along `d`, which is at least half as long as a unit vector: the rounding of both
/// parts and of the length leaves it within 2 of 2^30.
#[inline(always)]
fn facing_along(d: Vec2) -> Rot
    requires position { IsWithin (2 ^ 61) d }
    requires long { IsLong d }
    ensures value { result ≡ facing_along d }
    ensures facing { IsFacing result }
{
    let direction = unit(d);
    Rot {
        c: direction.x,
        s: direction.y,
    }
}

/// `q` turned by the spin `w`, which is times 2^30 and at most 2^28 in size (about 14 degrees).
/// At no spin it is `q`; else the direction moves along its tangent and is made a unit vector
/// again, as Box2D's `b2IntegrateRotation` does, so that the angle is the arc tangent of
/// `w / 2^30`. The result is a facing once more, after any number of turns.
#[inline(always)]
pub fn turn(q: Rot, w: i64) -> Rot
    requires facing { IsFacing q }
    requires spin { unsigned_abs w ≤ unsigned_abs MAX_SPIN }
    ensures value { result ≡ turn q w }
    ensures facing { IsFacing result }
{
    if w == 0 { q } else { facing_along(swung(q, w)) }
}
