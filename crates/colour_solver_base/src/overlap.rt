//! How far two bodies overlap at a point of a contact now, and the speed that takes the overlap away.

ghost use Rattle.std.specs.Prelude.{◌≡◌, ◌^◌, ◌<◌, ◌≤◌, pos, ◌≤ℤ◌, unsigned_abs};
ghost use Rattle.fixed_geom.specs.Numbers.{IsFloor, fdiv};
ghost use Rattle.momenta.specs.ImpulseBounds.{AreStates, IsState};
ghost use Rattle.colour_solver_base.specs.Rows.{IsPointRow, separation_now};
ghost use Rattle.colour_solver_base.specs.ContactSolving.{overlap_bias};

use crate::{MAX_BIAS, PointRow, SLOP};
use fixed_geom::minus;
use momenta::{BodyState, Ends, part_along};

/// The separation now, in u: that of the step's start, and how far the centres have parted along the normal since.
#[tactic(auto, unfolding(crate::specs::Rows::separation_now))]
#[inline(always)]
pub(crate) fn separation_between(point: &PointRow, a: &BodyState, b: &BodyState) -> i64
    requires point { IsPointRow point.now }
    requires first { IsState a.now }
    requires second { IsState b.now }
    ensures value { result ≡ separation_now point.now (record { a = a.now; b = b.now }) }
    ensures within { unsigned_abs result ≤ 2 ^ 40 }
{
    let parted = minus(b.travelled(), a.travelled());
    point.separation + part_along(parted, point.normal)
}

/// The same of the two bodies of a constraint.
#[inline(always)]
pub(crate) fn separation_now(point: &PointRow, ends: &Ends) -> i64
    requires point { IsPointRow point.now }
    requires states { AreStates ends.now }
    ensures value { result ≡ separation_now point.now ends.now }
    ensures within { unsigned_abs result ≤ 2 ^ 40 }
{
    separation_between(point, &ends.a, &ends.b)
}

/// The greatest whole number at most `n / d`, of a number that isn't below zero, in 64-bit arithmetic.
#[inline(always)]
pub(crate) fn floor_64(n: i64, d: u64) -> i64
    requires nonnegative { pos 0 ≤ℤ n }
    requires positive { 0 < d }
    ensures value { result ≡ fdiv n (pos d) }
    ensures floor { IsFloor n (pos d) result }
{
    (n.unsigned_abs() / d) as i64
}

/// An eighth of an overlap, rounded down.
#[inline(always)]
fn eighth_of(overlap: i64) -> i64
    requires nonnegative { pos 0 ≤ℤ overlap }
    requires overlap { unsigned_abs overlap ≤ 2 ^ 41 }
    ensures value { result ≡ fdiv overlap (pos 8) }
    ensures nonnegative { pos 0 ≤ℤ result }
    ensures within { unsigned_abs result ≤ 2 ^ 41 }
{
    floor_64(overlap, 8)
}

/// The speed that takes an overlap beyond the slop away, in u/tick: an eighth of it in a tick, and at most
/// `MAX_BIAS` (as Box2D's bias velocity).
#[tactic(auto, unfolding(crate::specs::ContactSolving::overlap_bias))]
#[inline(always)]
pub(crate) fn bias_of(separation: i64) -> i64
    requires { unsigned_abs separation ≤ 2 ^ 40 }
    ensures value { result ≡ overlap_bias separation }
    ensures within { unsigned_abs result ≤ unsigned_abs MAX_BIAS }
{
    if -SLOP < separation {
        return 0;
    }
    let eighth = eighth_of(-separation - SLOP);
    if MAX_BIAS < eighth { MAX_BIAS } else { eighth }
}
