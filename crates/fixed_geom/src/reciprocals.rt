//! Quotients by a number that is divided by often: a product with its reciprocal, which spares a division (as for
//! divisors that don't change, Granlund and Montgomery, 'Division by invariant integers using multiplication', 1994).

ghost use Rattle.std.specs.Prelude.{◌≡◌, ◌*◌, ◌/◌, ◌+◌, ◌^◌, ◌<◌, ◌≤◌, pos, ◌+ℤ◌, ◌*ℤ◌, ◌≤ℤ◌, ◌<ℤ◌, unsigned_abs, IfSome, true};
ghost use Rattle.fixed_geom.specs.Numbers.{nearest, rdiv};
ghost use Rattle.fixed_geom.specs.Reciprocals.{over_inverse_reciprocal, rdiv_reciprocal, share_reciprocal};
ghost use Rattle.fixed_geom.specs.Vectors.{unit_length};

use crate::inverses::{over_inverse, quotient_40, quotient_40_of_sizes};
use crate::products::product;
use crate::quotients::nearest_quotient_64;
use crate::sure_quotients::{halves_of, sure_quotient};

/// Shares are taken by a reciprocal of wholes from this.
const LEAST_WHOLE: i64 = 1 << 32;

/// Shares are taken by a reciprocal of wholes up to this.
const MOST_WHOLE: i64 = 1 << 57;

/// Impulses are taken by a reciprocal of inverses from this.
const LEAST_INVERSE: i64 = 1 << 20;

/// Impulses are taken by a reciprocal of inverses up to this.
const MOST_INVERSE: i64 = 1 << 54;

/// How far the error of a reciprocal may lead a share that is at most `MAX_SHARE`, times 2^64.
const SHARE_MARGIN: u64 = 1 << 55;

/// The greatest share that is taken by a reciprocal.
const MAX_SHARE: i64 = 1 << 28;

/// How far the error of a reciprocal may lead the quotient of a number below 2^48, times 2^64.
const QUOTIENT_MARGIN: u64 = 1 << 57;

/// How far the error of a reciprocal may lead an impulse, times 2^64.
const IMPULSE_MARGIN: u64 = 1 << 43;

/// The reciprocal of `d` that `rdiv_by` and `inverse_by` take: the least whole number above 2^62 / d, and 0 where `d`
/// isn't positive.
#[tactic(auto, unfolding(crate::specs::Reciprocals::rdiv_reciprocal))]
pub fn rdiv_reciprocal(d: i64) -> i64
    ensures value { result ≡ rdiv_reciprocal d }
    ensures nonnegative { pos 0 ≤ℤ result }
{
    if d > 0 {
        reciprocal_above(d as u64) as i64
    } else {
        0
    }
}

/// The least whole number above 2^62 / d.
#[inline(always)]
fn reciprocal_above(d: u64) -> u64
    requires { 0 < d }
    ensures value { result ≡ 2 ^ 62 / d + 1 }
    ensures small { result ≤ 2 ^ 62 + 1 }
{
    (1 << 62) / d + 1
}

/// The nearest whole number to 2^94 / k.
#[inline(always)]
fn share_reciprocal_of_size(k: u64) -> i64
    requires least { 2 ^ 32 ≤ k }
    requires most { k ≤ 2 ^ 57 }
    ensures { result ≡ pos (nearest (2 ^ 94) k) }
{
    quotient_40_of_sizes(1 << 54, k) as i64
}

/// The reciprocal of `k` that `share_by` and `quotient_40_by` take: the nearest whole number to 2^94 / k, and 0 where
/// `k` is below 2^32 or above 2^57.
#[tactic(auto, unfolding(crate::specs::Reciprocals::share_reciprocal))]
pub fn share_reciprocal(k: i64) -> i64
    ensures { result ≡ share_reciprocal k }
{
    if LEAST_WHOLE <= k {
        if k <= MOST_WHOLE {
            share_reciprocal_of_size(k as u64)
        } else {
            0
        }
    } else {
        0
    }
}

/// The nearest whole number to 2^82 / k.
#[inline(always)]
fn over_inverse_reciprocal_of_size(k: u64) -> i64
    requires least { 2 ^ 20 ≤ k }
    requires most { k ≤ 2 ^ 54 }
    ensures { result ≡ pos (nearest (2 ^ 82) k) }
{
    quotient_40_of_sizes(1 << 42, k) as i64
}

/// The reciprocal of an inverse that `over_inverse_by` takes: the nearest whole number to 2^82 / inverse, and 0 where
/// the inverse is below 2^20 or above 2^54.
#[tactic(auto, unfolding(crate::specs::Reciprocals::over_inverse_reciprocal))]
pub fn over_inverse_reciprocal(inverse: i64) -> i64
    ensures { result ≡ over_inverse_reciprocal inverse }
{
    if LEAST_INVERSE <= inverse {
        if inverse <= MOST_INVERSE {
            over_inverse_reciprocal_of_size(inverse as u64)
        } else {
            0
        }
    } else {
        0
    }
}

/// Four times `a`, and half of `4b`: an even number, in which `4b` is as often as the nearest whole number to `a / b`,
/// ties upwards.
#[inline(always)]
fn lifted(a: i64, b: i64) -> i64
    requires a { unsigned_abs a ≤ 3 * 2 ^ 39 }
    requires b { unsigned_abs b ≤ 2 ^ 20 }
    ensures value { result ≡ pos 4 *ℤ a +ℤ pos 2 *ℤ b }
    ensures small { unsigned_abs result < 2 ^ 43 }
{
    2 * (2 * a + b)
}

/// The nearest whole number to `a / b`, ties away from zero, with the reciprocal of `b`: of an `a` up to 3·2^39 in size
/// and a `b` up to 2^20. Only of a tie is `lifted` a multiple of `4b`. The reciprocal is a little too great: that leads
/// the product of a tie away from zero, and no other past a multiple of 2^64. The 1 that is taken off leads the product
/// 0 below zero, which is of the tie at -1/2.
#[inline(always)]
pub fn rdiv_by(a: i64, b: i64, reciprocal: i64) -> i64
    requires a { unsigned_abs a ≤ 3 * 2 ^ 39 }
    requires positive { pos 0 <ℤ b }
    requires b { unsigned_abs b ≤ 2 ^ 20 }
    requires reciprocal { reciprocal ≡ rdiv_reciprocal b }
    ensures { result ≡ rdiv a b }
{
    halves_of(product(lifted(a, b), reciprocal) - 1).upper
}

/// The nearest natural number to 2^40 / d: the guess by a reciprocal if that is it, as it nearly always is by that of
/// `d`.
#[inline(always)]
fn inverse_of_size_by(d: u64, reciprocal: u64) -> u64
    requires positive { 0 < d }
    requires d { d ≤ 2 ^ 20 }
    ensures value { result ≡ nearest (2 ^ 40) d }
    ensures small { result ≤ 2 ^ 40 }
{
    let guess = ((reciprocal >> 21) + 1) >> 1;
    let least = guess * (2 * d);
    let sum = (1 << 41) + d;
    if least <= sum {
        if sum - least < 2 * d {
            return guess;
        }
    }
    nearest_quotient_64(1 << 40, d)
}

/// The nearest whole number to 2^40 / k, with the reciprocal of `k`.
#[inline(always)]
pub fn inverse_by(k: i64, reciprocal: i64) -> i64
    requires positive { pos 0 <ℤ k }
    requires k { unsigned_abs k ≤ 2 ^ 20 }
    requires reciprocal { pos 0 ≤ℤ reciprocal }
    ensures value { result ≡ rdiv (pos (2 ^ 40)) k }
    ensures within { unsigned_abs result ≤ 2 ^ 40 }
{
    inverse_of_size_by(k as u64, reciprocal as u64) as i64
}

/// Whether a share is at most `MAX_SHARE`.
#[inline(always)]
fn is_small_share(q: i64) -> bool
    ensures { result ≡ true → unsigned_abs q ≤ 2 ^ 28 }
{
    -MAX_SHARE <= q && q <= MAX_SHARE
}

/// `x·2^30 / k` to the nearest, with the `share_reciprocal` of `k`: which part of the whole `k` an `x` is, times 2^30.
/// `None` where the product with the reciprocal doesn't tell, or where it is more than a quarter.
#[inline(always)]
pub fn share_by(x: i64, k: i64, reciprocal: i64) -> Option<i64>
    requires reciprocal { reciprocal ≡ share_reciprocal k }
    ensures value { IfSome result (λ q. q ≡ rdiv (x *ℤ unit_length) k) }
    ensures within { IfSome result (λ q. unsigned_abs q ≤ 2 ^ 28) }
{
    if reciprocal == 0 {
        return None;
    }
    match sure_quotient(x, reciprocal, SHARE_MARGIN) {
        None => None,
        Some(q) => { if is_small_share(q) { Some(q) } else { None } }
    }
}

/// `quotient_40` without a reciprocal.
#[cold]
#[inline(never)]
fn divided_40_by(x: i64, k: i64) -> i128
    requires nonnegative { pos 0 ≤ℤ x }
    requires x { unsigned_abs x ≤ 2 ^ 56 }
    requires positive { pos 0 <ℤ k }
    requires most { unsigned_abs k < 2 ^ 62 }
    ensures { result ≡ rdiv (x *ℤ pos (2 ^ 40)) k }
{
    quotient_40(x, k)
}

/// `quotient_40` with the `share_reciprocal` of `k`.
#[inline(always)]
pub fn quotient_40_by(x: i64, k: i64, reciprocal: i64) -> i128
    requires nonnegative { pos 0 ≤ℤ x }
    requires x { unsigned_abs x ≤ 2 ^ 56 }
    requires positive { pos 0 <ℤ k }
    requires most { unsigned_abs k < 2 ^ 62 }
    requires reciprocal { reciprocal ≡ share_reciprocal k }
    ensures { result ≡ rdiv (x *ℤ pos (2 ^ 40)) k }
{
    if reciprocal == 0 || x >= 1 << 48 {
        return divided_40_by(x, k);
    }
    match sure_quotient(1024 * x, reciprocal, QUOTIENT_MARGIN) {
        Some(q) => i128::from(q),
        None => divided_40_by(x, k),
    }
}

/// `over_inverse` without a reciprocal.
#[cold]
#[inline(never)]
fn divided_over_inverse(x: i64, inverse: i64) -> i64
    requires x { unsigned_abs x < 2 ^ 22 }
    requires least { pos (2 ^ 20) ≤ℤ inverse }
    requires most { unsigned_abs inverse < 2 ^ 62 }
    ensures value { result ≡ rdiv (x *ℤ pos (2 ^ 40)) inverse }
    ensures within { unsigned_abs result ≤ 2 ^ 42 }
{
    over_inverse(x, inverse)
}

/// `over_inverse` with the `over_inverse_reciprocal` of the inverse.
#[inline(always)]
pub fn over_inverse_by(x: i64, inverse: i64, reciprocal: i64) -> i64
    requires x { unsigned_abs x < 2 ^ 22 }
    requires least { pos (2 ^ 20) ≤ℤ inverse }
    requires most { unsigned_abs inverse < 2 ^ 62 }
    requires reciprocal { reciprocal ≡ over_inverse_reciprocal inverse }
    ensures value { result ≡ rdiv (x *ℤ pos (2 ^ 40)) inverse }
    ensures within { unsigned_abs result ≤ 2 ^ 42 }
{
    if reciprocal == 0 {
        return divided_over_inverse(x, inverse);
    }
    match sure_quotient(4_194_304 * x, reciprocal, IMPULSE_MARGIN) {
        Some(q) => q,
        None => divided_over_inverse(x, inverse),
    }
}
