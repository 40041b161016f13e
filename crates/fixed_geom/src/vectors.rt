//! Vectors of whole numbers, their products, lengths and unit vectors.

ghost use Rattle.std.specs.Prelude.{◌≡◌, ℕ, ◌+◌, ◌*◌, ◌^◌, ◌<◌, ◌≤◌, pos, ◌+ℤ◌, ◌*ℤ◌, ◌≤ℤ◌, ◌<ℤ◌, unsigned_abs, IsTrue, ◌↔◌};
ghost use Rattle.fixed_geom.specs.Numbers.{rdiv, IsRoot};
ghost use Rattle.fixed_geom.specs.Vectors.{IsWithin, is_within, unit_length, dot, cross, plus, minus, opposite, moved, span, unit};

use crate::products::{difference_of_products, scaled, sum_of_products};
use crate::products_64::scaled_64;
use crate::roots::root_64;
use crate::shares_64::{inverse_of, share_64};
use crate::{isqrt, share};

/// One, for a unit vector and a facing.
pub const UNIT: i64 = 1 << 30;

/// A vector of whole numbers: a position or a way in u, a velocity in u a tick, or a momentum in
/// mass·u a tick. A unit vector is times 2^30.
#[derive(Clone, Copy, Debug, Default, PartialEq, Eq)]
pub struct Vec2 {
    pub x: i64,
    pub y: i64,
}

/// The vector of no length.
pub const ZERO_VECTOR: Vec2 = Vec2 { x: 0, y: 0 };

/// Both components are at most `limit` in size.
#[inline(always)]
pub fn is_within(v: Vec2, limit: u64) -> bool
    ensures value { result ≡ is_within limit v }
    ensures within { IsTrue result ↔ IsWithin limit v }
{
    v.x.unsigned_abs() <= limit && v.y.unsigned_abs() <= limit
}

/// `a + b`, of components up to 2^61.
#[inline(always)]
pub fn plus(a: Vec2, b: Vec2) -> Vec2
    requires first { IsWithin (2 ^ 61) a }
    requires second { IsWithin (2 ^ 61) b }
    ensures value { result ≡ plus a b }
    ensures within { (j k : ℕ) → IsWithin j a → IsWithin k b → IsWithin (j + k) result }
{
    Vec2 {
        x: a.x + b.x,
        y: a.y + b.y,
    }
}

/// `a - b`, of components up to 2^61.
#[inline(always)]
pub fn minus(a: Vec2, b: Vec2) -> Vec2
    requires first { IsWithin (2 ^ 61) a }
    requires second { IsWithin (2 ^ 61) b }
    ensures value { result ≡ minus a b }
    ensures within { (k : ℕ) → IsWithin k a → IsWithin k b → IsWithin (2 * k) result }
{
    Vec2 {
        x: a.x - b.x,
        y: a.y - b.y,
    }
}

/// `v` turned round, of components up to 2^62.
#[inline(always)]
pub fn opposite(v: Vec2) -> Vec2
    requires { IsWithin (2 ^ 62) v }
    ensures value { result ≡ opposite v }
    ensures within { (k : ℕ) → IsWithin k v → IsWithin k result }
{
    Vec2 { x: -v.x, y: -v.y }
}

/// The scalar product `a.x·b.x + a.y·b.y`, exact, of components up to 2^62.
#[inline(always)]
pub fn dot(a: Vec2, b: Vec2) -> i128
    requires first { IsWithin (2 ^ 62) a }
    requires second { IsWithin (2 ^ 62) b }
    ensures value { result ≡ dot a b }
    ensures size { (m n : ℕ) → IsWithin m a → IsWithin n b → unsigned_abs result ≤ 2 * (m * n) }
{
    sum_of_products(a.x, b.x, a.y, b.y)
}

/// The cross product `a.x·b.y - a.y·b.x`, exact, of components up to 2^62: above zero where `b`
/// lies to the left of `a`.
#[inline(always)]
pub fn cross(a: Vec2, b: Vec2) -> i128
    requires first { IsWithin (2 ^ 62) a }
    requires second { IsWithin (2 ^ 62) b }
    ensures value { result ≡ cross a b }
    ensures size { (m n : ℕ) → IsWithin m a → IsWithin n b → unsigned_abs result ≤ 2 * (m * n) }
{
    difference_of_products(a.x, b.y, a.y, b.x)
}

/// Up to this size of the components, the square of a length has room in 64 bits.
const MAX_COMPONENT_64: u64 = 1 << 31;

/// The square of a length, in 64 bits.
#[inline(always)]
fn square_64(d: Vec2) -> u64
    requires { IsWithin (2 ^ 31) d }
    ensures { result ≡ unsigned_abs d.x * unsigned_abs d.x + unsigned_abs d.y * unsigned_abs d.y }
{
    let x = d.x.unsigned_abs();
    let y = d.y.unsigned_abs();
    x * x + y * y
}

/// `span` in 64 bits.
fn span_64(d: Vec2) -> i64
    requires { IsWithin (2 ^ 31) d }
    ensures value { result ≡ span d }
{
    root_64(square_64(d)) as i64
}

/// `span` in 128 bits.
fn span_128(d: Vec2) -> i64
    requires { IsWithin (2 ^ 61) d }
    ensures value { result ≡ span d }
{
    isqrt(dot(d, d)) as i64
}

/// The length of `d`, rounded down, of components up to 2^61. No component is longer.
pub fn span(d: Vec2) -> i64
    requires { IsWithin (2 ^ 61) d }
    ensures value { result ≡ span d }
    ensures root { IsRoot (dot d d) result }
    ensures nonnegative { pos 0 ≤ℤ result }
    ensures covers { IsWithin (unsigned_abs result) d }
    ensures within { (k : ℕ) → IsWithin k d → unsigned_abs result ≤ 2 * k }
{
    if is_within(d, MAX_COMPONENT_64) {
        span_64(d)
    } else {
        span_128(d)
    }
}

/// `unit_along` in 64 bits, of a length below 2^31.
#[inline(always)]
fn unit_along_64(d: Vec2, k: i64) -> Vec2
    requires length { k ≡ span d }
    requires positive { pos 0 <ℤ k }
    requires short { unsigned_abs k < 2 ^ 31 }
    requires covers { IsWithin (unsigned_abs k) d }
    ensures value { result ≡ unit d }
    ensures within { IsWithin (unsigned_abs UNIT) result }
{
    let inverse = inverse_of(k as u64);
    Vec2 {
        x: share_64(d.x, k, inverse),
        y: share_64(d.y, k, inverse),
    }
}

/// The same of any length.
#[cold]
#[inline(never)]
fn unit_along_128(d: Vec2, k: i64) -> Vec2
    requires length { k ≡ span d }
    requires positive { pos 0 <ℤ k }
    requires covers { IsWithin (unsigned_abs k) d }
    ensures value { result ≡ unit d }
    ensures within { IsWithin (unsigned_abs UNIT) result }
{
    Vec2 {
        x: share(d.x, k),
        y: share(d.y, k),
    }
}

/// The unit vector along `d`, where its length `k` is known and not zero.
#[inline(always)]
pub fn unit_along(d: Vec2, k: i64) -> Vec2
    requires length { k ≡ span d }
    requires positive { pos 0 <ℤ k }
    requires covers { IsWithin (unsigned_abs k) d }
    ensures value { result ≡ unit d }
    ensures within { IsWithin (unsigned_abs UNIT) result }
{
    if k < 1 << 31 {
        unit_along_64(d, k)
    } else {
        unit_along_128(d, k)
    }
}

/// The unit vector along `d`, times 2^30, of components up to 2^61 that are not both zero. Its
/// parts are rounded to the nearest, over a length that is rounded down.
#[inline(always)]
pub fn unit(d: Vec2) -> Vec2
    requires position { IsWithin (2 ^ 61) d }
    requires nonzero { 0 < unsigned_abs d.x + unsigned_abs d.y }
    ensures value { result ≡ unit d }
    ensures within { IsWithin (unsigned_abs UNIT) result }
{
    unit_along(d, span(d))
}

/// `x + d·t / 2^30`
fn shifted(x: i64, d: i64, t: i64) -> i64
    requires position { unsigned_abs x ≤ 2 ^ 60 }
    requires way { unsigned_abs d ≤ 2 ^ 42 }
    requires times { unsigned_abs t ≤ 2 ^ 46 }
    ensures value { result ≡ x +ℤ rdiv (d *ℤ t) unit_length }
    ensures within { (m k : ℕ) → unsigned_abs x ≤ m → unsigned_abs d * unsigned_abs t ≤ k * 2 ^ 30
        → unsigned_abs result ≤ m + k }
{
    x + scaled(d, t)
}

/// `p` moved by `t / 2^30` times `d`, each part rounded to the nearest: a share `t` of a way `d`,
/// or the length `t` along a unit vector `d`.
pub fn moved(p: Vec2, d: Vec2, t: i64) -> Vec2
    requires position { IsWithin (2 ^ 60) p }
    requires way { IsWithin (2 ^ 42) d }
    requires times { unsigned_abs t ≤ 2 ^ 46 }
    ensures value { result ≡ moved p d t }
    ensures within { (m j k : ℕ) → IsWithin m p → IsWithin j d → j * unsigned_abs t ≤ k * 2 ^ 30
        → IsWithin (m + k) result }
{
    Vec2 {
        x: shifted(p.x, d.x, t),
        y: shifted(p.y, d.y, t),
    }
}

/// `x + d·t / 2^30` in 64 bits.
fn shifted_64(x: i64, d: i64, t: i64) -> i64
    requires position { unsigned_abs x ≤ 2 ^ 60 }
    requires way { unsigned_abs d ≤ 2 ^ 30 }
    requires times { unsigned_abs t ≤ 2 ^ 32 }
    ensures value { result ≡ x +ℤ rdiv (d *ℤ t) unit_length }
    ensures within { unsigned_abs result ≤ unsigned_abs x + 2 ^ 32 }
{
    x + scaled_64(t, d)
}

/// `moved` in 64 bits: by a share of a way up to 2^30 in each part, or by a length up to 2^32 along a unit vector.
pub fn moved_64(p: Vec2, d: Vec2, t: i64) -> Vec2
    requires position { IsWithin (2 ^ 60) p }
    requires way { IsWithin (2 ^ 30) d }
    requires times { unsigned_abs t ≤ 2 ^ 32 }
    ensures value { result ≡ moved p d t }
    ensures within { (m : ℕ) → IsWithin m p → IsWithin (m + 2 ^ 32) result }
{
    Vec2 {
        x: shifted_64(p.x, d.x, t),
        y: shifted_64(p.y, d.y, t),
    }
}
