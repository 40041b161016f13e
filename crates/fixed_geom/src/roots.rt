//! Square roots rounded down, exact whatever they are guessed from: below 2^64 from the
//! processor's root of a float, beyond by one or two steps of Newton's method. A step of Newton's
//! is never below the root, whatever it starts from.

ghost use Rattle.std.specs.Prelude.{◌≡◌, ◌+◌, ◌*◌, ◌^◌, ◌<◌, ◌≤◌, pos, ◌≤ℤ◌};
ghost use Rattle.fixed_geom.specs.Numbers.{IsRoot, isqrt};

use std::num::{f64_from_bits_with_nan, f64_to_bits_with_nan, nearest_u64_to_f64};

/// The float of an `n` below 2^52, put together from its bits: they are those of `2^52 + n`.
#[inline(always)]
pub(crate) fn joined_float(n: u64) -> f64 {
    f64_from_bits_with_nan(0x4330_0000_0000_0000 | n) - 4_503_599_627_370_496.0
}

/// The float nearest to `n`. Below 2^52 its bits are put together, which is faster than a
/// conversion.
#[inline(always)]
fn float_of(n: u64) -> f64 {
    if n < 1 << 52 {
        joined_float(n)
    } else {
        nearest_u64_to_f64(n)
    }
}

/// The float nearest to `n`, by a conversion.
#[cold]
#[inline(never)]
fn converted_float(n: u64) -> f64 {
    nearest_u64_to_f64(n)
}

/// `float_of` where an `n` below 2^52 is expected: the conversion stands apart, out of the way.
#[inline(always)]
pub(crate) fn mostly_joined_float(n: u64) -> f64 {
    if n < 1 << 52 {
        joined_float(n)
    } else {
        converted_float(n)
    }
}

/// The whole number nearest to `x`, if that is from 0 to 2^32; of another `x` any number. It is the
/// lowest bits of `2^52 + x`.
pub(crate) fn low_bits(x: f64) -> u64
    ensures small { result < 2 ^ 33 }
{
    f64_to_bits_with_nan(x + 4_503_599_627_370_496.0) & 0x1_ffff_ffff
}

/// The whole number nearest to `x`, if that is from 0 to below 2^52; of another `x` any number.
pub(crate) fn low_52_bits(x: f64) -> u64
    ensures small { result < 2 ^ 52 }
{
    f64_to_bits_with_nan(x + 4_503_599_627_370_496.0) & 0xf_ffff_ffff_ffff
}

/// A guess at the root: the processor's root of the nearest float, rounded down but for a hair.
/// Nothing is promised of it, since what follows puts any guess right; but that takes as many steps
/// as the guess is off, so that it is right, or one off, from 0 to the greatest number.
fn guess_64(a: u64) -> u64
    ensures small { result < 2 ^ 32 }
{
    low_bits(float_of(a).sqrt() + 0.5001)
        .saturating_sub(1)
        .min(0xffff_ffff)
}

/// `x`, or the first number below it whose square is at most `a`: one step at most from the guess.
fn lowered_64(a: u64, mut x: u64) -> u64
    requires small { x < 2 ^ 32 }
    ensures below { result * result ≤ a }
    ensures small { result < 2 ^ 32 }
{
    while x * x > a {
        x -= 1;
    }
    x
}

/// The root of `a`, from an `x` that is not above it: one step at most from the guess.
fn raised_64(a: u64, mut x: u64) -> u64
    requires below { x * x ≤ a }
    requires small { x < 2 ^ 32 }
    ensures below { result * result ≤ a }
    ensures above { a < (result + 1) * (result + 1) }
    ensures small { result < 2 ^ 32 }
{
    while x < 0xffff_ffff && (x + 1) * (x + 1) <= a {
        x += 1;
    }
    x
}

/// The root of `a`, rounded down, from a guess that may be one off.
#[cold]
#[inline(never)]
fn sought_root_64(a: u64) -> u64
    ensures below { result * result ≤ a }
    ensures above { a < (result + 1) * (result + 1) }
    ensures small { result < 2 ^ 32 }
{
    raised_64(a, lowered_64(a, guess_64(a)))
}

/// A guess that is the root nearly always, and of which nothing is promised but its size.
#[inline(always)]
fn quick_guess_64(a: u64) -> u64
    ensures small { result < 2 ^ 32 }
{
    low_bits(float_of(a).sqrt() + 0.5001).wrapping_sub(1) & 0xffff_ffff
}

/// The root of `a`, rounded down: the quick guess if that is it.
pub(crate) fn root_64(a: u64) -> u64
    ensures below { result * result ≤ a }
    ensures above { a < (result + 1) * (result + 1) }
    ensures small { result < 2 ^ 32 }
{
    let guess = quick_guess_64(a);
    let square = guess * guess;
    if square <= a {
        if a - square <= 2 * guess {
            return guess;
        }
    }
    sought_root_64(a)
}

/// A guess at the root of a number beyond 64 bits: the root of its leading 64 bits, put back in
/// its place.
fn guess_128(a: u128) -> u128
    ensures { 0 < result }
{
    let half = (65 - (a >> 64).leading_zeros().saturating_sub(64)) / 2;
    let top = u64::try_from(a >> (2 * half)).unwrap_or(u64::MAX);
    u128::from(root_64(top) + 1) << half
}

/// One step of Newton's from the guess: not below the root.
fn first_128(a: u128) -> u128
    ensures above { a < (result + 1) * (result + 1) }
    ensures small { result < 2 ^ 64 }
{
    let guess = guess_128(a);
    let quotient = a / guess;
    guess.midpoint(quotient).min(0xffff_ffff_ffff_ffff)
}

/// One step of Newton's from above the root.
fn nearer_128(a: u128, x: u128) -> u128
    requires above { a < x * x }
    requires small { x < 2 ^ 64 }
    ensures above { a < (result + 1) * (result + 1) }
    ensures falls { result < x }
{
    let quotient = a / x;
    (x + quotient) / 2
}

/// The root of `a`, rounded down, by Newton's method from above.
fn root_128(a: u128) -> u128
    ensures below { result * result ≤ a }
    ensures above { a < (result + 1) * (result + 1) }
    ensures small { result < 2 ^ 64 }
{
    let mut x = first_128(a);
    while x * x > a {
        // A step often ends one above the root: this saves the division of one more.
        let less = x - 1;
        if less * less <= a {
            return less;
        }
        x = nearer_128(a, x);
    }
    x
}

/// The root of `a`, rounded down, in 64 bits where they hold `a`.
fn root(a: u128) -> u128
    ensures below { result * result ≤ a }
    ensures above { a < (result + 1) * (result + 1) }
    ensures small { result < 2 ^ 64 }
{
    if a < 1 << 64 {
        u128::from(root_64(a as u64))
    } else {
        root_128(a)
    }
}

/// The root of `a`, rounded down, of any `a` that is not negative.
pub fn isqrt(a: i128) -> i128
    requires nonnegative { pos 0 ≤ℤ a }
    ensures value { result ≡ isqrt a }
    ensures root { IsRoot a result }
{
    root(a.unsigned_abs()) as i128
}
