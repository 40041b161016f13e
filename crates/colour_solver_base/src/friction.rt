//! The friction at a point of a contact, within what its normal impulse allows (Coulomb).

ghost use Rattle.std.specs.Prelude.{◌≡◌, ◌^◌, ◌≤◌, ◌+◌, true, pos, ◌≤ℤ◌, unsigned_abs};
ghost use Rattle.fixed_geom.specs.Vectors.{IsWithin};
ghost use Rattle.momenta.specs.declared.state.Ends.{Ends};
ghost use Rattle.momenta.specs.Impulses.{parting};
ghost use Rattle.momenta.specs.ImpulseBounds.{AreStates, AreSameBodies, IsMomentumKept};
ghost use Rattle.colour_solver_base.specs.Rows.{IsPointRow, tangent_solved};
ghost use Rattle.colour_solver_base.specs.ContactSolving.{most_friction};

use crate::PointRow;
use crate::overlap::floor_64;
use fixed_geom::{MAX_LINE_IMPULSE, MAX_NORMAL_IMPULSE, Vec2};
use momenta::{Ends, Goal, solve_line};
use shapes::MAX_FRICTION;

/// The most friction that a normal impulse allows.
#[inline(always)]
pub(crate) fn most_friction(friction: i64, normal_impulse: i64) -> i64
    requires friction_low { pos 0 ≤ℤ friction }
    requires friction_high { unsigned_abs friction ≤ unsigned_abs MAX_FRICTION }
    requires normal_low { pos 0 ≤ℤ normal_impulse }
    requires normal_high { unsigned_abs normal_impulse ≤ unsigned_abs MAX_NORMAL_IMPULSE }
    ensures value { result ≡ most_friction friction normal_impulse }
    ensures nonnegative { pos 0 ≤ℤ result }
    ensures within { unsigned_abs result ≤ unsigned_abs MAX_LINE_IMPULSE }
{
    floor_64(friction * normal_impulse, 256)
}

/// Whether a point neither has friction nor may get any: its friction then leaves any two bodies as they are.
#[inline(always)]
fn is_frictionless(friction: i64, point: &PointRow) -> bool
    requires friction_low { pos 0 ≤ℤ friction }
    requires friction_high { unsigned_abs friction ≤ unsigned_abs MAX_FRICTION }
    requires point { IsPointRow point.now }
    ensures { result ≡ true → (e : Ends) → AreStates e → tangent_solved friction point.now e ≡ record { point = point.now; ends = e } }
{
    if most_friction(friction, point.normal_impulse) != 0 {
        false
    } else if point.tangent_impulse != 0 {
        false
    } else {
        true
    }
}

/// One impulse of friction at a point that isn't frictionless, where the bodies' points part with the velocity `apart`.
#[inline(always)]
fn apply_friction(friction: i64, apart: Vec2, point: &mut PointRow, ends: &mut Ends)
    requires apart { apart ≡ parting point.old.ra point.old.rb ends.old }
    requires apart_size { IsWithin (2 ^ 61 + 2 ^ 26) apart }
    requires friction_low { pos 0 ≤ℤ friction }
    requires friction_high { unsigned_abs friction ≤ unsigned_abs MAX_FRICTION }
    requires point { IsPointRow point.old }
    requires states { AreStates ends.old }
    ensures value { record { point = point.new; ends = ends.new } ≡ tangent_solved friction point.old ends.old }
    ensures point { IsPointRow point.new }
    ensures states { AreStates ends.new }
    ensures same { AreSameBodies ends.old ends.new }
    ensures kept { IsMomentumKept ends.old ends.new }
{
    let most = most_friction(friction, point.normal_impulse);
    let goal = Goal {
        bias: 0,
        low: -most,
        high: most,
        total: point.tangent_impulse,
    };
    let total = solve_line(&point.tangent_line(), apart, goal, ends);
    point.tangent_impulse = total;
}

/// One impulse of friction, where the bodies' points part with the velocity `apart`.
#[inline(always)]
pub(crate) fn solve_tangent(friction: i64, apart: Vec2, point: &mut PointRow, ends: &mut Ends)
    requires apart { apart ≡ parting point.old.ra point.old.rb ends.old }
    requires apart_size { IsWithin (2 ^ 61 + 2 ^ 26) apart }
    requires friction_low { pos 0 ≤ℤ friction }
    requires friction_high { unsigned_abs friction ≤ unsigned_abs MAX_FRICTION }
    requires point { IsPointRow point.old }
    requires states { AreStates ends.old }
    ensures value { record { point = point.new; ends = ends.new } ≡ tangent_solved friction point.old ends.old }
    ensures point { IsPointRow point.new }
    ensures states { AreStates ends.new }
    ensures same { AreSameBodies ends.old ends.new }
    ensures kept { IsMomentumKept ends.old ends.new }
{
    if !is_frictionless(friction, point) {
        apply_friction(friction, apart, point, ends);
    }
}
