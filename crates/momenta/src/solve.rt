//! One impulse along a line between two bodies: the accumulated and clamped impulses of Erin Catto's sequential
//! impulses (GDC 2006), in whole numbers.

ghost use Rattle.std.specs.Prelude.{◌≡◌, ◌^◌, ◌≤◌, ◌+◌, ◌⊎◌, ◌≤ℤ◌, unsigned_abs};
ghost use Rattle.fixed_geom.specs.Vectors.{IsWithin};
ghost use Rattle.momenta.specs.Impulses.{parting, exerted, solved_impulse};
ghost use Rattle.momenta.specs.ImpulseBounds.{AreStates, AreSameBodies, IsMomentumKept, IsLine};

use crate::accumulated_impulse::next_total;
use crate::line::along;
use crate::{Ends, Goal, Line, impulse_pair, part_along};
use fixed_geom::{MAX_LINE_IMPULSE, Vec2};

/// Brings the accumulated impulse from `old` to `new` and answers it: where they are the same, nothing is given.
#[inline(always)]
fn exert(line: &Line, old: i64, new: i64, ends: &mut Ends) -> i64
    requires line { IsLine line.now }
    requires states { AreStates ends.old }
    requires old { unsigned_abs old ≤ unsigned_abs MAX_LINE_IMPULSE }
    requires new { unsigned_abs new ≤ unsigned_abs MAX_LINE_IMPULSE }
    ensures value { record { ends = ends.new; total = result } ≡ exerted line.now old new ends.old }
    ensures states { AreStates ends.new }
    ensures total { (result ≡ new) ⊎ (result ≡ old) }
    ensures still { result ≡ old → ends.new ≡ ends.old }
    ensures same { AreSameBodies ends.old ends.new }
    ensures kept { IsMomentumKept ends.old ends.new }
{
    if new == old {
        new
    } else {
        exert_difference(line, old, new, ends)
    }
}

/// Gives the difference of two accumulated impulses, and answers the one that is reached; where the difference is
/// dropped, all stays.
#[tactic(auto, unfolding(crate::specs::Impulses::exerted))]
#[inline(always)]
fn exert_difference(line: &Line, old: i64, new: i64, ends: &mut Ends) -> i64
    requires line { IsLine line.now }
    requires states { AreStates ends.old }
    requires old { unsigned_abs old ≤ unsigned_abs MAX_LINE_IMPULSE }
    requires new { unsigned_abs new ≤ unsigned_abs MAX_LINE_IMPULSE }
    requires other { new ≡ old → ⊥ }
    ensures value { record { ends = ends.new; total = result } ≡ exerted line.now old new ends.old }
    ensures states { AreStates ends.new }
    ensures total { (result ≡ new) ⊎ (result ≡ old) }
    ensures still { result ≡ old → ends.new ≡ ends.old }
    ensures same { AreSameBodies ends.old ends.new }
    ensures kept { IsMomentumKept ends.old ends.new }
{
    let j = along(line.direction, new - old);
    if impulse_pair(ends, j, line.ra, line.rb) {
        new
    } else {
        old
    }
}

/// One impulse of the solver towards a goal. It is dropped where a momentum would leave its limits. Answers the
/// accumulated impulse after it: where that is as before, so are the bodies.
///
/// `apart` is the velocity at which the line's point on the second body leaves that on the first, as `parting` has it.
#[tactic(auto, unfolding(crate::specs::Impulses::solved_impulse, crate::specs::Impulses::speed_along))]
#[inline(always)]
pub fn solve_line(line: &Line, apart: Vec2, goal: Goal, ends: &mut Ends) -> i64
    requires line { IsLine line.now }
    requires states { AreStates ends.old }
    requires apart { apart ≡ parting line.now.ra line.now.rb ends.old }
    requires apart_size { IsWithin (2 ^ 61 + 2 ^ 26) apart }
    requires bias { unsigned_abs goal.bias ≤ 2 ^ 62 + 2 ^ 28 }
    requires order { goal.low ≤ℤ goal.high }
    requires low { unsigned_abs goal.low ≤ unsigned_abs MAX_LINE_IMPULSE }
    requires high { unsigned_abs goal.high ≤ unsigned_abs MAX_LINE_IMPULSE }
    requires total { unsigned_abs goal.total ≤ unsigned_abs MAX_LINE_IMPULSE }
    ensures value { record { ends = ends.new; total = result } ≡ solved_impulse line.now goal.bias goal.low goal.high goal.total ends.old }
    ensures states { AreStates ends.new }
    ensures small { unsigned_abs result ≤ unsigned_abs MAX_LINE_IMPULSE }
    ensures low { goal.low ≤ℤ goal.total → goal.low ≤ℤ result }
    ensures high { goal.total ≤ℤ goal.high → result ≤ℤ goal.high }
    ensures still { result ≡ goal.total → ends.new ≡ ends.old }
    ensures same { AreSameBodies ends.old ends.new }
    ensures kept { IsMomentumKept ends.old ends.new }
{
    let speed = part_along(apart, line.direction);
    let next = next_total(speed, line.inverse_mass, line.reciprocal, goal);
    exert(line, goal.total, next, ends)
}
