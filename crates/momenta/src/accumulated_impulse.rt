//! The impulse accumulated along a line: what is added so that the speed along it reaches its bias, within a range.

ghost use Rattle.std.specs.Prelude.{◌≡◌, ◌^◌, ◌<◌, ◌≤◌, ◌+◌, true, pos, neg_ℤ, ◌+ℤ◌, ◌-ℤ◌, ◌*ℤ◌, ◌≤ℤ◌, ◌<ℤ◌, unsigned_abs};
ghost use Rattle.fixed_geom.specs.Numbers.{rdiv};
ghost use Rattle.fixed_geom.specs.Reciprocals.{over_inverse_reciprocal};
ghost use Rattle.momenta.specs.Impulses.{wanted, between};

use crate::ranges::are_in;
use crate::{Goal, MIN_INVERSE_MASS};
use fixed_geom::{MAX_LINE_IMPULSE, over_inverse_by, rdiv};

/// A speed up to this, in u/tick, is small: the difference of two has room in 64 bits once it is multiplied by 2^40.
const SPEED_LIMIT_64: i64 = 1 << 20;

/// An inverse mass below this has room in 64 bits.
pub(crate) const INVERSE_LIMIT_64: i128 = 1 << 62;

/// An inverse mass is times 2^40.
const INVERSE_UNIT: i128 = 1 << 40;

/// What the speed lacks of the bias.
#[inline(always)]
fn missing(speed: i64, bias: i64) -> i128
    requires speed { unsigned_abs speed ≤ 2 ^ 62 + 2 ^ 28 }
    requires bias { unsigned_abs bias ≤ 2 ^ 62 + 2 ^ 28 }
    ensures value { result ≡ neg_ℤ (speed -ℤ bias) }
    ensures within { unsigned_abs result ≤ 2 ^ 63 + 2 ^ 29 }
{
    i128::from(bias) - i128::from(speed)
}

/// The impulse that brings the speed to the bias, to the nearest.
#[tactic(auto, unfolding(crate::specs::Impulses::wanted))]
#[inline(always)]
fn wanted(speed: i64, bias: i64, inverse: i128) -> i128
    requires speed { unsigned_abs speed ≤ 2 ^ 62 + 2 ^ 28 }
    requires bias { unsigned_abs bias ≤ 2 ^ 62 + 2 ^ 28 }
    requires low { MIN_INVERSE_MASS ≤ℤ inverse }
    ensures value { result ≡ wanted speed bias inverse }
    ensures within { unsigned_abs result ≤ 2 ^ 84 }
{
    impulse_for(missing(speed, bias), inverse)
}

/// The impulse for any other, in 128 bits.
fn impulse_for(change: i128, inverse: i128) -> i128
    requires change { unsigned_abs change ≤ 2 ^ 63 + 2 ^ 29 }
    requires low { MIN_INVERSE_MASS ≤ℤ inverse }
    ensures value { result ≡ rdiv (change *ℤ pos (2 ^ 40)) inverse }
    ensures within { unsigned_abs result ≤ 2 ^ 84 }
{
    rdiv(change * INVERSE_UNIT, inverse)
}

/// `value`, or the limit that it passes.
#[inline(always)]
fn between(low: i64, high: i64, value: i128) -> i64
    requires order { low ≤ℤ high }
    ensures value { result ≡ between low high value }
    ensures low { low ≤ℤ result }
    ensures high { result ≤ℤ high }
{
    if value < i128::from(low) {
        low
    } else if i128::from(high) < value {
        high
    } else {
        value as i64
    }
}

/// `between` of a number of 64 bits.
#[inline(always)]
fn between_64(low: i64, high: i64, value: i64) -> i64
    requires order { low ≤ℤ high }
    ensures value { result ≡ between low high value }
    ensures low { low ≤ℤ result }
    ensures high { result ≤ℤ high }
{
    if value < low {
        low
    } else if high < value {
        high
    } else {
        value
    }
}

/// The accumulated impulse with what is wanted, within its range, for a small change and an inverse mass that have room
/// in 64 bits.
#[tactic(auto, unfolding(crate::specs::Impulses::wanted))]
#[inline(always)]
pub(crate) fn next_total_64(speed: i64, inverse: i64, reciprocal: i64, goal: Goal) -> i64
    requires speed { unsigned_abs speed ≤ 2 ^ 20 }
    requires bias { unsigned_abs goal.bias ≤ 2 ^ 20 }
    requires inverse { MIN_INVERSE_MASS ≤ℤ inverse }
    requires inverse_size { unsigned_abs inverse < 2 ^ 62 }
    requires reciprocal { reciprocal ≡ over_inverse_reciprocal inverse }
    requires order { goal.low ≤ℤ goal.high }
    requires total { unsigned_abs goal.total ≤ unsigned_abs MAX_LINE_IMPULSE }
    ensures value { result ≡ between goal.low goal.high (goal.total +ℤ wanted speed goal.bias inverse) }
    ensures low { goal.low ≤ℤ result }
    ensures high { result ≤ℤ goal.high }
{
    if speed >= goal.bias && goal.total == goal.low {
        return goal.low;
    }
    let wanted = over_inverse_by(goal.bias - speed, inverse, reciprocal);
    between_64(goal.low, goal.high, goal.total + wanted)
}

/// The same for any other, in 128 bits.
#[cold]
#[inline(never)]
fn next_total_128(speed: i64, inverse: i128, goal: Goal) -> i64
    requires speed { unsigned_abs speed ≤ 2 ^ 62 + 2 ^ 28 }
    requires bias { unsigned_abs goal.bias ≤ 2 ^ 62 + 2 ^ 28 }
    requires inverse { MIN_INVERSE_MASS ≤ℤ inverse }
    requires order { goal.low ≤ℤ goal.high }
    requires total { unsigned_abs goal.total ≤ unsigned_abs MAX_LINE_IMPULSE }
    ensures value { result ≡ between goal.low goal.high (goal.total +ℤ wanted speed goal.bias inverse) }
    ensures low { goal.low ≤ℤ result }
    ensures high { result ≤ℤ goal.high }
{
    let wanted = wanted(speed, goal.bias, inverse);
    between(goal.low, goal.high, i128::from(goal.total) + wanted)
}

/// Whether an inverse mass has room in 64 bits: one that has a reciprocal does.
#[inline(always)]
fn is_inverse_64(inverse: i128, reciprocal: i64) -> bool
    requires { reciprocal ≡ over_inverse_reciprocal inverse }
    ensures small { result ≡ true → inverse <ℤ pos (2 ^ 62) }
    ensures room { inverse <ℤ pos (2 ^ 62) → result ≡ true }
{
    reciprocal != 0 || inverse < INVERSE_LIMIT_64
}

/// Whether these speeds and this inverse mass have room in 64 bits for the impulse between them.
#[inline(always)]
pub(crate) fn has_room_64(speed: i64, bias: i64, inverse: i128, reciprocal: i64) -> bool
    requires { reciprocal ≡ over_inverse_reciprocal inverse }
    ensures speed { result ≡ true → unsigned_abs speed ≤ 2 ^ 20 }
    ensures bias { result ≡ true → unsigned_abs bias ≤ 2 ^ 20 }
    ensures inverse { result ≡ true → inverse <ℤ pos (2 ^ 62) }
    ensures room { unsigned_abs speed < 2 ^ 20 → unsigned_abs bias < 2 ^ 20 → inverse <ℤ pos (2 ^ 62) → result ≡ true }
{
    are_in(speed, bias, SPEED_LIMIT_64) & is_inverse_64(inverse, reciprocal)
}

/// The accumulated impulse with what brings the speed to the bias, within its range.
#[inline(always)]
pub(crate) fn next_total(speed: i64, inverse: i128, reciprocal: i64, goal: Goal) -> i64
    requires speed { unsigned_abs speed ≤ 2 ^ 62 + 2 ^ 28 }
    requires bias { unsigned_abs goal.bias ≤ 2 ^ 62 + 2 ^ 28 }
    requires inverse { MIN_INVERSE_MASS ≤ℤ inverse }
    requires reciprocal { reciprocal ≡ over_inverse_reciprocal inverse }
    requires order { goal.low ≤ℤ goal.high }
    requires total { unsigned_abs goal.total ≤ unsigned_abs MAX_LINE_IMPULSE }
    ensures value { result ≡ between goal.low goal.high (goal.total +ℤ wanted speed goal.bias inverse) }
    ensures low { goal.low ≤ℤ result }
    ensures high { result ≤ℤ goal.high }
{
    if has_room_64(speed, goal.bias, inverse, reciprocal) {
        next_total_64(speed, inverse as i64, reciprocal, goal)
    } else {
        next_total_128(speed, inverse, goal)
    }
}
