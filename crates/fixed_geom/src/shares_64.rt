//! Which part of a short length a way along it is, in 64 bits: what makes a vector a unit vector.

ghost use Rattle.std.specs.Prelude.{◌≡◌, ◌*◌, ◌^◌, ◌<◌, ◌≤◌, pos, ◌<ℤ◌, ◌*ℤ◌, unsigned_abs};
ghost use Rattle.fixed_geom.specs.Numbers.{nearest, rdiv};
ghost use Rattle.fixed_geom.specs.Vectors.{unit_length};

use crate::quotients::divided_share;
use crate::roots::{joined_float, low_bits};

/// What `share_64` guesses with, where the whole is `k`: 2^30 / k as a float.
#[inline(always)]
pub(crate) fn inverse_of(k: u64) -> f64 {
    1_073_741_824.0 / joined_float(k)
}

/// A guess at `n·2^30 / d`, by the inverse of `d`.
#[inline(always)]
fn guess_by_inverse(n: u64, inverse: f64) -> u64
    ensures { result < 2 ^ 31 }
{
    low_bits(joined_float(n) * inverse) & 0x7fff_ffff
}

/// The nearest natural number to `n·2^30 / d`, the greater where two are as near: the guess if that is it, as it nearly
/// always is.
#[inline(always)]
fn share_of_sizes_64(n: u64, d: u64, inverse: f64) -> u64
    requires positive { 0 < d }
    requires part { n ≤ d }
    requires short { d < 2 ^ 31 }
    ensures value { result ≡ nearest (n * 2 ^ 30) d }
    ensures small { result ≤ 2 ^ 30 }
{
    let guess = guess_by_inverse(n, inverse);
    let least = guess * (2 * d);
    let sum = (n << 31) + d;
    if least <= sum {
        if sum - least < 2 * d {
            return guess;
        }
    }
    divided_share(n, d)
}

/// `share` of a whole below 2^31, whose inverse is given. Another number in its place changes nothing but the time.
#[inline(always)]
pub(crate) fn share_64(x: i64, k: i64, inverse: f64) -> i64
    requires positive { pos 0 <ℤ k }
    requires part { unsigned_abs x ≤ unsigned_abs k }
    requires short { unsigned_abs k < 2 ^ 31 }
    ensures value { result ≡ rdiv (x *ℤ unit_length) k }
    ensures within { unsigned_abs result ≤ 2 ^ 30 }
{
    let size = share_of_sizes_64(x.unsigned_abs(), k as u64, inverse) as i64;
    if x < 0 { -size } else { size }
}
