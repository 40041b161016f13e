//! Exact products of 64-bit numbers, sums and differences of two of them, and products with
//! numbers that are times 2^30.

ghost use Rattle.std.specs.Prelude.{◌≡◌, ℕ, ◌+◌, ◌*◌, ◌^◌, ◌≤◌, ◌+ℤ◌, ◌-ℤ◌, ◌*ℤ◌, unsigned_abs};
ghost use Rattle.fixed_geom.specs.Numbers.{rdiv};
ghost use Rattle.fixed_geom.specs.Vectors.{unit_length};

use crate::rdiv_unit;

/// `a·b`
#[inline(always)]
pub fn product(a: i64, b: i64) -> i128
    ensures value { result ≡ a *ℤ b }
    ensures size { unsigned_abs result ≡ unsigned_abs a * unsigned_abs b }
{
    i128::from(a) * i128::from(b)
}

/// `a·b + c·d`, each product at most 2^125 in size.
#[inline(always)]
pub fn sum_of_products(a: i64, b: i64, c: i64, d: i64) -> i128
    requires first { unsigned_abs a * unsigned_abs b ≤ 2 ^ 125 }
    requires second { unsigned_abs c * unsigned_abs d ≤ 2 ^ 125 }
    ensures value { result ≡ a *ℤ b +ℤ c *ℤ d }
    ensures size { unsigned_abs result ≤ unsigned_abs a * unsigned_abs b + unsigned_abs c * unsigned_abs d }
{
    product(a, b) + product(c, d)
}

/// `a·b - c·d`, each product at most 2^125 in size.
#[inline(always)]
pub fn difference_of_products(a: i64, b: i64, c: i64, d: i64) -> i128
    requires first { unsigned_abs a * unsigned_abs b ≤ 2 ^ 125 }
    requires second { unsigned_abs c * unsigned_abs d ≤ 2 ^ 125 }
    ensures value { result ≡ a *ℤ b -ℤ c *ℤ d }
    ensures size { unsigned_abs result ≤ unsigned_abs a * unsigned_abs b + unsigned_abs c * unsigned_abs d }
{
    product(a, b) - product(c, d)
}

/// `a·b / 2^30` to the nearest, the product at most 2^92 in size: a number by one that is times
/// 2^30, as a spin, a share or a part of a unit vector.
#[inline(always)]
pub fn scaled(a: i64, b: i64) -> i64
    requires { unsigned_abs a * unsigned_abs b ≤ 2 ^ 92 }
    ensures value { result ≡ rdiv (a *ℤ b) unit_length }
    ensures within { (k : ℕ) → unsigned_abs a * unsigned_abs b ≤ k * 2 ^ 30 → unsigned_abs result ≤ k }
{
    rdiv_unit(product(a, b))
}
