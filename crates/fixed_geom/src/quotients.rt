//! Quotients of whole numbers, rounded to the nearest or down: this project's own rule.

ghost use Rattle.std.specs.Prelude.{◌≡◌, ℕ, ◌+◌, ◌*◌, ◌/◌, ◌^◌, ◌<◌, ◌≤◌, pos, ◌<ℤ◌, ◌*ℤ◌, unsigned_abs};
ghost use Rattle.fixed_geom.specs.Numbers.{nearest, rdiv, fdiv, IsNearest, IsFloor};
ghost use Rattle.fixed_geom.specs.Vectors.{unit_length};

use crate::product;
use crate::roots::{low_bits, mostly_joined_float};

/// The nearest natural number to `n / d`, the greater where two are as near.
pub(crate) fn nearest_quotient(n: u128, d: u128) -> u128
    requires { 0 < d }
    ensures value { result ≡ nearest n d }
    ensures small { result ≤ n }
{
    let quotient = n / d;
    let rest = n % d;
    if rest >= d - rest {
        quotient + 1
    } else {
        quotient
    }
}

/// The nearest whole number to `a / b`, of any `a` but the least i128; ties go away from zero.
pub fn rdiv(a: i128, b: i128) -> i128
    requires fits { unsigned_abs a < 2 ^ 127 }
    requires positive { pos 0 <ℤ b }
    ensures value { result ≡ rdiv a b }
    ensures nearest { IsNearest a b result }
    ensures within { (k : ℕ) → unsigned_abs a ≤ k * unsigned_abs b → unsigned_abs result ≤ k }
{
    let nearest = nearest_quotient(a.unsigned_abs(), b.unsigned_abs()) as i128;
    if a < 0 { -nearest } else { nearest }
}

/// `nearest_quotient` in 64 bits.
#[inline(always)]
pub(crate) fn nearest_quotient_64(n: u64, d: u64) -> u64
    requires { 0 < d }
    ensures value { result ≡ nearest n d }
    ensures small { result ≤ n }
{
    let quotient = n / d;
    let rest = n % d;
    if rest < d - rest {
        quotient
    } else {
        quotient + 1
    }
}

/// `rdiv` in 64-bit arithmetic, which is several times faster: any `a` but the least i64.
#[inline(always)]
pub fn rdiv_64(a: i64, b: i64) -> i64
    requires fits { unsigned_abs a < 2 ^ 63 }
    requires positive { pos 0 <ℤ b }
    ensures value { result ≡ rdiv a b }
    ensures nearest { IsNearest a b result }
    ensures within { (k : ℕ) → unsigned_abs a ≤ k * unsigned_abs b → unsigned_abs result ≤ k }
{
    let nearest = nearest_quotient_64(a.unsigned_abs(), b as u64) as i64;
    if a < 0 { -nearest } else { nearest }
}

/// Half of what `rdiv_unit` divides by.
const HALF: i128 = 1 << 29;

/// `x / 2^30` to the nearest, ties away from zero; `x` is at most 2^92 in size, and no quotient
/// is computed. It takes a product with a unit vector or a facing back to plain lengths. A shift
/// rounds down, so what is added to `x` before it is a half, or just below one where `x` is
/// negative.
#[inline(always)]
pub fn rdiv_unit(x: i128) -> i64
    requires { unsigned_abs x ≤ 2 ^ 92 }
    ensures value { result ≡ rdiv x unit_length }
    ensures within { (k : ℕ) → unsigned_abs x ≤ k * 2 ^ 30 → unsigned_abs result ≤ k }
{
    if x < 0 {
        ((x + (HALF - 1)) >> 30) as i64
    } else {
        ((x + HALF) >> 30) as i64
    }
}

/// A guess at `n·2^30 / d` to the nearest, by a quotient of floats. Nothing else is promised of it,
/// since what follows puts any guess right.
#[inline(always)]
fn guess_share(n: u64, d: u64) -> u64
    ensures small { result < 2 ^ 33 }
{
    let quotient = mostly_joined_float(n) / mostly_joined_float(d);
    low_bits(quotient * 1_073_741_824.0)
}

/// The nearest natural number to `n·2^30 / d`, the greater where two are as near, by a division.
#[cold]
#[inline(never)]
pub(crate) fn divided_share(n: u64, d: u64) -> u64
    requires positive { 0 < d }
    requires part { n ≤ d }
    ensures value { result ≡ nearest (n * 2 ^ 30) d }
    ensures small { result ≤ 2 ^ 30 }
{
    nearest_quotient(u128::from(n) << 30, u128::from(d)) as u64
}

/// The same: the guess if that is it, as it nearly always is, which spares a division of 128 bits.
#[inline(always)]
pub(crate) fn share_of_sizes(n: u64, d: u64) -> u64
    requires positive { 0 < d }
    requires part { n ≤ d }
    requires whole { d < 2 ^ 62 }
    ensures value { result ≡ nearest (n * 2 ^ 30) d }
    ensures small { result ≤ 2 ^ 30 }
{
    let guess = guess_share(n, d);
    let least = u128::from(guess) * u128::from(2 * d);
    let sum = (u128::from(n) << 31) + u128::from(d);
    if least <= sum {
        if sum - least < u128::from(2 * d) {
            return guess;
        }
    }
    divided_share(n, d)
}

/// `share` of a whole below 2^62.
#[inline(always)]
fn share_by_guess(x: i64, k: i64) -> i64
    requires positive { pos 0 <ℤ k }
    requires part { unsigned_abs x ≤ unsigned_abs k }
    requires whole { unsigned_abs k < 2 ^ 62 }
    ensures value { result ≡ rdiv (x *ℤ unit_length) k }
    ensures within { unsigned_abs result ≤ 2 ^ 30 }
{
    let size = share_of_sizes(x.unsigned_abs(), k as u64) as i64;
    if x < 0 { -size } else { size }
}

/// `share` of any whole.
#[cold]
#[inline(never)]
fn share_by_division(x: i64, k: i64) -> i64
    requires positive { pos 0 <ℤ k }
    requires part { unsigned_abs x ≤ unsigned_abs k }
    ensures value { result ≡ rdiv (x *ℤ unit_length) k }
    ensures within { unsigned_abs result ≤ 2 ^ 30 }
{
    rdiv(product(x, 1 << 30), i128::from(k)) as i64
}

/// `x·2^30 / k` to the nearest, ties away from zero, of an `x` that is no greater in size than `k`:
/// which part of a whole it is, times 2^30. Fast where `k` is below 2^62.
#[inline(always)]
pub fn share(x: i64, k: i64) -> i64
    requires positive { pos 0 <ℤ k }
    requires part { unsigned_abs x ≤ unsigned_abs k }
    ensures value { result ≡ rdiv (x *ℤ unit_length) k }
    ensures within { unsigned_abs result ≤ 2 ^ 30 }
{
    if k < 1 << 62 {
        share_by_guess(x, k)
    } else {
        share_by_division(x, k)
    }
}

/// The greatest whole number at most `a / b`.
pub fn fdiv(a: i128, b: i128) -> i128
    requires positive { pos 0 <ℤ b }
    ensures value { result ≡ fdiv a b }
    ensures floor { IsFloor a b result }
{
    a.div_euclid(b)
}
