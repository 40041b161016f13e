//! A contact in a solver pass: point by point, at each the normal impulse and then friction.

ghost use Rattle.std.specs.Prelude.{◌≡◌, ◌^◌, ◌≤◌, ◌+◌, pos, ◌≤ℤ◌, unsigned_abs};
ghost use Rattle.fixed_geom.specs.Vectors.{IsWithin};
ghost use Rattle.momenta.specs.Impulses.{parting};
ghost use Rattle.momenta.specs.ImpulseBounds.{AreStates, AreSameBodies, IsMomentumKept};
ghost use Rattle.colour_solver_base.specs.Rows.{IsPointRow, IsRow, normal_solved, point_solved, row_solved};

use crate::friction::solve_tangent;
use crate::overlap::{bias_of, separation_now};
use crate::{ContactRow, PointRow};
use fixed_geom::{MAX_NORMAL_IMPULSE, Vec2};
use momenta::{Ends, Goal, parting, solve_line};
use shapes::MAX_FRICTION;

/// A point after its impulses, with the two bodies.
#[derive(Clone, Copy, Debug, PartialEq, Eq)]
pub struct PointAfter {
    pub point: PointRow,
    pub ends: Ends,
}

/// The velocity at which the second body's point leaves the first's, in u/tick.
#[inline(always)]
pub(crate) fn parting_at(point: &PointRow, ends: &Ends) -> Vec2
    requires point { IsPointRow point.now }
    requires states { AreStates ends.now }
    ensures value { result ≡ parting point.now.ra point.now.rb ends.now }
    ensures within { IsWithin (2 ^ 61 + 2 ^ 26) result }
{
    parting(point.ra, point.rb, ends)
}

/// The same after an impulse along the normal, which had brought the accumulated one to `normal_impulse` (mass·u/tick)
/// before: where it gave nothing, the velocity is still `apart`.
#[inline(always)]
fn parting_after(normal_impulse: i64, apart: Vec2, point: &PointRow, ends: &Ends) -> Vec2
    requires point { IsPointRow point.now }
    requires states { AreStates ends.now }
    requires apart { point.now.normal_impulse ≡ normal_impulse → apart ≡ parting point.now.ra point.now.rb ends.now }
    requires apart_size { IsWithin (2 ^ 61 + 2 ^ 26) apart }
    ensures value { result ≡ parting point.now.ra point.now.rb ends.now }
    ensures within { IsWithin (2 ^ 61 + 2 ^ 26) result }
{
    if point.normal_impulse == normal_impulse {
        apart
    } else {
        parting_at(point, ends)
    }
}

/// One impulse along the normal, where the bodies' points part with the velocity `apart`.
#[inline(always)]
pub(crate) fn solve_normal(bias: i64, apart: Vec2, point: &mut PointRow, ends: &mut Ends)
    requires bias { unsigned_abs bias ≤ 2 ^ 62 + 2 ^ 28 }
    requires apart { apart ≡ parting point.old.ra point.old.rb ends.old }
    requires apart_size { IsWithin (2 ^ 61 + 2 ^ 26) apart }
    requires point { IsPointRow point.old }
    requires states { AreStates ends.old }
    ensures value { record { point = point.new; ends = ends.new } ≡ normal_solved bias point.old ends.old }
    ensures first_offset { point.new.ra ≡ point.old.ra }
    ensures second_offset { point.new.rb ≡ point.old.rb }
    ensures still { point.new.normal_impulse ≡ point.old.normal_impulse → ends.new ≡ ends.old }
    ensures point { IsPointRow point.new }
    ensures states { AreStates ends.new }
    ensures same { AreSameBodies ends.old ends.new }
    ensures kept { IsMomentumKept ends.old ends.new }
{
    let goal = Goal {
        bias,
        low: 0,
        high: MAX_NORMAL_IMPULSE,
        total: point.normal_impulse,
    };
    let total = solve_line(&point.normal_line(), apart, goal, ends);
    point.normal_impulse = total;
}

/// The normal impulse of a point, then its friction.
#[tactic(auto, unfolding(crate::specs::Rows::point_solved))]
#[inline(always)]
fn solve_point(friction: i64, point: &mut PointRow, ends: &mut Ends)
    requires friction_low { pos 0 ≤ℤ friction }
    requires friction_high { unsigned_abs friction ≤ unsigned_abs MAX_FRICTION }
    requires point { IsPointRow point.old }
    requires states { AreStates ends.old }
    ensures value { record { point = point.new; ends = ends.new } ≡ point_solved friction point.old ends.old }
    ensures point { IsPointRow point.new }
    ensures states { AreStates ends.new }
    ensures same { AreSameBodies ends.old ends.new }
    ensures kept { IsMomentumKept ends.old ends.new }
{
    let bias = bias_of(separation_now(point, ends));
    let normal_impulse = point.normal_impulse;
    let apart = parting_at(point, ends);
    solve_normal(bias, apart, point, ends);
    let apart = parting_after(normal_impulse, apart, point, ends);
    solve_tangent(friction, apart, point, ends);
}

/// A contact in a solver pass: each point's normal impulse, and then its friction.
#[tactic(auto, unfolding(crate::specs::Rows::row_solved))]
#[inline(always)]
pub fn solve_row(row: &mut ContactRow, ends: &mut Ends)
    requires row { IsRow row.old }
    requires states { AreStates ends.old }
    ensures value { record { row = row.new; ends = ends.new } ≡ row_solved row.old ends.old }
    ensures row { IsRow row.new }
    ensures bodies { row.new.bodies ≡ row.old.bodies }
    ensures states { AreStates ends.new }
    ensures same { AreSameBodies ends.old ends.new }
    ensures kept { IsMomentumKept ends.old ends.new }
{
    let friction = row.bodies.friction;
    solve_point(friction, &mut row.first, ends);
    match &mut row.second {
        None => {}
        Some(point) => solve_point(friction, point, ends),
    }
}
