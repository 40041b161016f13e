//! Products in 64 bits, where the sizes leave room: of slow velocities and short ways with a
//! direction, and of short ways with one another.

ghost use Rattle.std.specs.Prelude.{◌≡◌, ℕ, ◌*◌, ◌^◌, ◌≤◌, ◌*ℤ◌, unsigned_abs};
ghost use Rattle.fixed_geom.specs.Numbers.{rdiv};
ghost use Rattle.fixed_geom.specs.Vectors.{IsWithin, cross, dot, unit_length};

use crate::Vec2;
use crate::products::product;
use crate::sure_quotients::halves_of;

/// Half of what is divided by.
const HALF: i64 = 1 << 29;

/// `rdiv_unit` in 64 bits: `x / 2^30` to the nearest, ties away from zero, of an `x` that is at
/// most 2^62 in size. A shift rounds down, so what is added to `x` before it is a half, or just
/// below one where `x` is negative.
#[inline(always)]
pub fn rdiv_unit_64(x: i64) -> i64
    requires { unsigned_abs x ≤ 2 ^ 62 }
    ensures value { result ≡ rdiv x unit_length }
    ensures within { unsigned_abs result ≤ 2 ^ 32 }
{
    if x < 0 {
        (x + (HALF - 1)) >> 30
    } else {
        (x + HALF) >> 30
    }
}

/// `a·b`
#[inline(always)]
fn product_64(a: i64, b: i64) -> i64
    requires a { unsigned_abs a ≤ 2 ^ 32 }
    requires b { unsigned_abs b ≤ 2 ^ 30 }
    ensures value { result ≡ a *ℤ b }
    ensures size { unsigned_abs result ≡ unsigned_abs a * unsigned_abs b }
{
    a * b
}

/// `a·b / 2^30` to the nearest, where `b` is a part of a direction.
#[inline(always)]
pub fn scaled_64(a: i64, b: i64) -> i64
    requires a { unsigned_abs a ≤ 2 ^ 32 }
    requires b { unsigned_abs b ≤ 2 ^ 30 }
    ensures value { result ≡ rdiv (a *ℤ b) unit_length }
    ensures within { unsigned_abs result ≤ 2 ^ 32 }
{
    rdiv_unit_by_sign(product(a, b))
}

/// `rdiv_unit_64` of a product in 128 bits, whose upper half is its sign: 0, or -1 of one below zero.
#[inline(always)]
fn rdiv_unit_by_sign(x: i128) -> i64
    requires { unsigned_abs x ≤ 2 ^ 62 }
    ensures value { result ≡ rdiv x unit_length }
    ensures within { unsigned_abs result ≤ 2 ^ 32 }
{
    (x as i64 + halves_of(x).upper + HALF) >> 30
}

/// `scaled` in 64 bits, of a spin `w` up to 2^28 and a part of a facing.
#[inline(always)]
pub(crate) fn spin_scaled_64(w: i64, part: i64) -> i64
    requires spin { unsigned_abs w ≤ 2 ^ 28 }
    requires part { unsigned_abs part ≤ 2 ^ 31 }
    ensures value { result ≡ rdiv (w *ℤ part) unit_length }
    ensures within { (k : ℕ) → unsigned_abs w * unsigned_abs part ≤ k * 2 ^ 30 → unsigned_abs result ≤ k }
{
    rdiv_unit_by_sign(product(w, part))
}

/// `dot` in 64 bits, of components up to 2^31 and 2^30.
#[inline(always)]
pub fn dot_64(a: Vec2, b: Vec2) -> i64
    requires first { IsWithin (2 ^ 31) a }
    requires second { IsWithin (2 ^ 30) b }
    ensures value { result ≡ dot a b }
    ensures within { unsigned_abs result ≤ 2 ^ 62 }
    ensures size { (m n : ℕ) → IsWithin m a → IsWithin n b → unsigned_abs result ≤ 2 * (m * n) }
{
    product_64(a.x, b.x) + product_64(a.y, b.y)
}

/// `cross` in 64 bits, of components up to 2^31 and 2^30.
#[inline(always)]
pub fn cross_64(a: Vec2, b: Vec2) -> i64
    requires first { IsWithin (2 ^ 31) a }
    requires second { IsWithin (2 ^ 30) b }
    ensures value { result ≡ cross a b }
    ensures within { unsigned_abs result ≤ 2 ^ 62 }
    ensures size { (m n : ℕ) → IsWithin m a → IsWithin n b → unsigned_abs result ≤ 2 * (m * n) }
{
    product_64(a.x, b.y) - product_64(a.y, b.x)
}
