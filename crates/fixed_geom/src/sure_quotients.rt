//! Quotients of which one product tells which whole number is the nearest.

ghost use Rattle.std.specs.Prelude.{◌≡◌, ◌+◌, ◌*◌, ◌^◌, ◌<◌, ◌≤◌, true, pos, ◌-ℤ◌, ◌*ℤ◌, unsigned_abs, IfSome};
ghost use Rattle.fixed_geom.specs.Numbers.{fdiv};

use crate::products::product;

/// A number of 128 bits as its two halves: how often 2^64 is in it, rounded down, and what is left.
#[derive(Clone, Copy)]
pub(crate) struct Halves {
    pub upper: i64,
    pub lower: u64,
}

/// The halves of `x`.
#[inline(always)]
pub(crate) fn halves_of(x: i128) -> Halves
    requires { unsigned_abs x ≤ 2 ^ 126 }
    ensures upper { result.upper ≡ fdiv x (pos (2 ^ 64)) }
    ensures lower { pos result.lower ≡ x -ℤ fdiv x (pos (2 ^ 64)) *ℤ pos (2 ^ 64) }
{
    let upper = x >> 64;
    Halves {
        upper: upper as i64,
        lower: (x - upper * (1 << 64)) as u64,
    }
}

/// Whether a number is at least `margin` from 0, and further from 2^64.
#[inline(always)]
fn is_clear(rest: u64, margin: u64) -> bool
    requires { margin < 2 ^ 62 }
    ensures low { result ≡ true → margin ≤ rest }
    ensures high { result ≡ true → rest + margin < 2 ^ 64 }
{
    rest.wrapping_add(margin) >= 2 * margin
}

/// The nearest whole number to `x·r / 2^64`, if no number within `margin / 2^64` of that has another. The `r` is a
/// reciprocal times a power of two, and the margin is how far its error may lead.
#[inline(always)]
pub(crate) fn sure_quotient(x: i64, r: i64, margin: u64) -> Option<i64>
    requires r { unsigned_abs r ≤ 2 ^ 62 }
    requires margin { margin < 2 ^ 62 }
    ensures { IfSome result (λ q. unsigned_abs (x *ℤ r -ℤ q *ℤ pos (2 ^ 64)) + margin ≤ 2 ^ 63) }
{
    let sum = halves_of(product(x, r) + (1 << 63));
    if is_clear(sum.lower, margin) {
        Some(sum.upper)
    } else {
        None
    }
}
