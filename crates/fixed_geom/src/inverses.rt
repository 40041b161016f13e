//! Quotients that are times 2^40, as the inverse of a mass is.

ghost use Rattle.std.specs.Prelude.{◌≡◌, ℕ, ◌*◌, ◌^◌, ◌<◌, ◌≤◌, pos, ◌<ℤ◌, ◌≤ℤ◌, ◌*ℤ◌, unsigned_abs};
ghost use Rattle.fixed_geom.specs.Numbers.{nearest, rdiv};

use crate::quotients::{nearest_quotient, nearest_quotient_64};
use crate::roots::{joined_float, low_52_bits, mostly_joined_float};

/// A guess at `n·2^40 / d` to the nearest, by a quotient of floats. Nothing else is promised of it, since what follows
/// puts any guess right.
#[inline(always)]
fn guess_40(n: u64, d: u64) -> u64
    ensures small { result < 2 ^ 52 }
{
    let quotient = mostly_joined_float(n) / mostly_joined_float(d);
    low_52_bits(quotient * 1_099_511_627_776.0)
}

/// The same of an `n` and a `d` below 2^52, for which no test is made: of others it is no good guess.
#[inline(always)]
fn joined_guess_40(n: u64, d: u64) -> u64
    ensures small { result < 2 ^ 52 }
{
    low_52_bits(joined_float(n) / joined_float(d) * 1_099_511_627_776.0)
}

/// The nearest natural number to `n·2^40 / d`, the greater where two are as near, by a division.
#[cold]
#[inline(never)]
fn divided_40(n: u64, d: u64) -> u128
    requires n { n ≤ 2 ^ 56 }
    requires positive { 0 < d }
    ensures value { result ≡ nearest (n * 2 ^ 40) d }
    ensures small { result ≤ 2 ^ 96 }
{
    nearest_quotient(u128::from(n) << 40, u128::from(d))
}

/// The same in 64 bits.
#[cold]
#[inline(never)]
fn divided_40_64(n: u64, d: u64) -> u64
    requires n { n < 2 ^ 22 }
    requires least { 2 ^ 20 ≤ d }
    ensures value { result ≡ nearest (n * 2 ^ 40) d }
    ensures small { result ≤ 2 ^ 42 }
{
    nearest_quotient_64(n << 40, d)
}

/// The nearest natural number to `n·2^40 / d`, the greater where two are as near: the guess if that is it, as it nearly
/// always is of a `d` below 2^52, which spares a division.
#[inline(always)]
fn over_size(n: u64, d: u64) -> u64
    requires n { n < 2 ^ 22 }
    requires least { 2 ^ 20 ≤ d }
    requires most { d < 2 ^ 62 }
    ensures value { result ≡ nearest (n * 2 ^ 40) d }
    ensures small { result ≤ 2 ^ 42 }
{
    let guess = joined_guess_40(n, d);
    let least = u128::from(guess) * u128::from(2 * d);
    let sum = u128::from((n << 41) + d);
    if least <= sum {
        if sum - least < u128::from(2 * d) {
            return guess;
        }
    }
    divided_40_64(n, d)
}

/// `x·2^40 / inverse` to the nearest, ties away from zero: what is multiplied by a number whose inverse, times 2^40, is
/// given.
#[inline(always)]
pub(crate) fn over_inverse(x: i64, inverse: i64) -> i64
    requires x { unsigned_abs x < 2 ^ 22 }
    requires least { pos (2 ^ 20) ≤ℤ inverse }
    requires most { unsigned_abs inverse < 2 ^ 62 }
    ensures value { result ≡ rdiv (x *ℤ pos (2 ^ 40)) inverse }
    ensures within { unsigned_abs result ≤ 2 ^ 42 }
{
    let size = over_size(x.unsigned_abs(), inverse as u64) as i64;
    if x < 0 { -size } else { size }
}

/// The nearest natural number to `n·2^40 / d`, the greater where two are as near, of any quotient.
#[inline(always)]
pub(crate) fn quotient_40_of_sizes(n: u64, d: u64) -> u128
    requires n { n ≤ 2 ^ 56 }
    requires positive { 0 < d }
    requires most { d < 2 ^ 62 }
    ensures value { result ≡ nearest (n * 2 ^ 40) d }
    ensures small { result ≤ 2 ^ 96 }
{
    let guess = guess_40(n, d);
    let least = u128::from(guess) * u128::from(2 * d);
    let sum = (u128::from(n) << 41) + u128::from(d);
    if least <= sum {
        if sum - least < u128::from(2 * d) {
            return u128::from(guess);
        }
    }
    divided_40(n, d)
}

/// `x·2^40 / k` to the nearest, ties away from zero.
#[inline(always)]
pub(crate) fn quotient_40(x: i64, k: i64) -> i128
    requires nonnegative { pos 0 ≤ℤ x }
    requires x { unsigned_abs x ≤ 2 ^ 56 }
    requires positive { pos 0 <ℤ k }
    requires most { unsigned_abs k < 2 ^ 62 }
    ensures value { result ≡ rdiv (x *ℤ pos (2 ^ 40)) k }
{
    quotient_40_of_sizes(x as u64, k as u64) as i128
}
