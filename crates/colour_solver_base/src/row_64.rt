//! The impulses of a contact in 64 bits, on copies of what they change: what `solve` does, where there is room.

ghost use Rattle.std.specs.Prelude.{◌≡◌, ℕ, ◌+◌, ◌≤◌, true, pos, ◌≤ℤ◌, unsigned_abs, IfSome, is_some};
ghost use Rattle.std.specs.Option.{ForSome};
ghost use Rattle.momenta.specs.Impulses.{parting};
ghost use Rattle.momenta.specs.ImpulseBounds.{AreStates, IsState};
ghost use Rattle.momenta.specs.Line64.{LeaveRoom64, IsImpulse, ends_with, both_ends};
ghost use Rattle.colour_solver_base.specs.Rows.{IsPointRow, IsRow, point_solved, normal_solved, row_solved, separation_now, tangent_solved};
ghost use Rattle.colour_solver_base.specs.ContactSolving.{overlap_bias};
ghost use Rattle.colour_solver_base.specs.Row64.{HasPointRoom64, HasNormalRoom64, HasTangentRoom64, HasSolveRoom64, IsPointAfter64, IsRowAfter64, with_impulses};

use crate::friction::most_friction;
use crate::overlap::{bias_of, separation_between};
use crate::{ContactRow, PointRow};
use fixed_geom::{MAX_LINE_IMPULSE, MAX_NORMAL_IMPULSE, Vec2};
use momenta::{
    BodyState, Exerted64, Goal, MomentaPair64, momenta_pair_64, parting_64, solve_line_64,
};
use shapes::MAX_FRICTION;

/// The accumulated impulses of a contact's point along the normal and across it (mass·u/tick).
#[derive(Clone, Copy, Debug, PartialEq, Eq)]
pub struct PointImpulses {
    pub normal: i64,
    pub tangent: i64,
}

/// What a point that a contact hasn't got has.
pub(crate) const NO_IMPULSES: PointImpulses = PointImpulses {
    normal: 0,
    tangent: 0,
};

/// Those of a point after its visit, and the momenta of the two bodies.
#[derive(Clone, Copy, Debug, PartialEq, Eq)]
pub(crate) struct PointAfter64 {
    pub impulses: PointImpulses,
    pub now: MomentaPair64,
}

/// Those of the two points of a contact, and the momenta of the two bodies. A second point that isn't there has none.
#[derive(Clone, Copy, Debug, PartialEq, Eq)]
pub struct RowAfter64 {
    pub first: PointImpulses,
    pub second: PointImpulses,
    pub now: MomentaPair64,
}

/// The velocity at which the second body's point leaves the first's, after an impulse along the normal had brought the
/// accumulated one from `normal_impulse` to that of `after`: where it gave nothing, the velocity is still `apart`.
#[inline(always)]
fn parting_after(
    normal_impulse: i64,
    apart: Vec2,
    after: Exerted64,
    point: &PointRow,
    a: &BodyState,
    b: &BodyState,
) -> Vec2
    requires point { IsPointRow point.now }
    requires states { AreStates (ends_with a.now b.now after.now) }
    requires leaves_room { LeaveRoom64 4 after.now }
    requires apart { after.total ≡ normal_impulse → apart ≡ parting point.now.ra point.now.rb (ends_with a.now b.now after.now) }
    ensures value { result ≡ parting point.now.ra point.now.rb (ends_with a.now b.now after.now) }
{
    if after.total == normal_impulse {
        apart
    } else {
        parting_64(a, b, after.now, point.ra, point.rb)
    }
}

/// Whether there neither is friction nor can be any.
#[inline(always)]
fn has_no_friction(most: i64, tangent_impulse: i64) -> bool
    ensures most { result ≡ true → most ≡ pos 0 }
    ensures tangent_impulse { result ≡ true → tangent_impulse ≡ pos 0 }
{
    most == 0 && tangent_impulse == 0
}

/// The impulse of friction at a point after that along the normal, `after_normal`.
#[inline(always)]
fn solve_tangent_64(
    friction: i64,
    apart: Vec2,
    point: &PointRow,
    after_normal: Exerted64,
    a: &BodyState,
    b: &BodyState,
) -> Option<Exerted64>
    requires friction_low { pos 0 ≤ℤ friction }
    requires friction_high { unsigned_abs friction ≤ unsigned_abs MAX_FRICTION }
    requires point { IsPointRow point.now }
    requires normal_low { pos 0 ≤ℤ after_normal.total }
    requires normal_high { unsigned_abs after_normal.total ≤ unsigned_abs MAX_NORMAL_IMPULSE }
    requires states { AreStates (ends_with a.now b.now after_normal.now) }
    requires leaves_room { LeaveRoom64 4 after_normal.now }
    requires apart { after_normal.total ≡ point.now.normal_impulse → apart ≡ parting point.now.ra point.now.rb (ends_with a.now b.now after_normal.now) }
    ensures value { IfSome result (λ r. tangent_solved friction (with_impulses point.now after_normal.total point.now.tangent_impulse) (ends_with a.now b.now after_normal.now) ≡ record { point = with_impulses point.now after_normal.total r.total; ends = ends_with a.now b.now r.now }) }
    ensures impulse { IfSome result (λ r. IsImpulse a.now b.now after_normal.now r.now) }
    ensures small { IfSome result (λ r. unsigned_abs r.total ≤ unsigned_abs MAX_LINE_IMPULSE) }
    ensures room { HasTangentRoom64 friction (with_impulses point.now after_normal.total point.now.tangent_impulse) (ends_with a.now b.now after_normal.now) → is_some result ≡ true }
{
    let most = most_friction(friction, after_normal.total);
    if has_no_friction(most, point.tangent_impulse) {
        return Some(Exerted64 {
            now: after_normal.now,
            total: 0,
        });
    }
    let apart = parting_after(point.normal_impulse, apart, after_normal, point, a, b);
    let goal = Goal {
        bias: 0,
        low: -most,
        high: most,
        total: point.tangent_impulse,
    };
    solve_line_64(&point.tangent_line(), apart, goal, a, b, after_normal.now)
}

/// The impulse along the normal of a point.
#[inline(always)]
fn solve_normal_64(
    apart: Vec2,
    point: &PointRow,
    a: &BodyState,
    b: &BodyState,
    now: MomentaPair64,
) -> Option<Exerted64>
    requires point { IsPointRow point.now }
    requires first { IsState a.now }
    requires second { IsState b.now }
    requires states { AreStates (ends_with a.now b.now now) }
    requires leaves_room { LeaveRoom64 4 now }
    requires apart { apart ≡ parting point.now.ra point.now.rb (ends_with a.now b.now now) }
    ensures value { IfSome result (λ r. normal_solved (overlap_bias (separation_now point.now (ends_with a.now b.now now))) point.now (ends_with a.now b.now now) ≡ record { point = with_impulses point.now r.total point.now.tangent_impulse; ends = ends_with a.now b.now r.now }) }
    ensures impulse { IfSome result (λ r. IsImpulse a.now b.now now r.now) }
    ensures low { IfSome result (λ r. pos 0 ≤ℤ r.total) }
    ensures high { IfSome result (λ r. unsigned_abs r.total ≤ unsigned_abs MAX_NORMAL_IMPULSE) }
    ensures still { IfSome result (λ r. r.total ≡ point.now.normal_impulse → r.now ≡ now) }
    ensures room { HasNormalRoom64 point.now (ends_with a.now b.now now) → is_some result ≡ true }
{
    let bias = bias_of(separation_between(point, a, b));
    let goal = Goal {
        bias,
        low: 0,
        high: MAX_NORMAL_IMPULSE,
        total: point.normal_impulse,
    };
    solve_line_64(&point.normal_line(), apart, goal, a, b, now)
}

/// The normal impulse of a point, then its friction.
#[inline(always)]
fn solve_point_64(
    friction: i64,
    point: &PointRow,
    a: &BodyState,
    b: &BodyState,
    now: MomentaPair64,
) -> Option<PointAfter64>
    requires friction_low { pos 0 ≤ℤ friction }
    requires friction_high { unsigned_abs friction ≤ unsigned_abs MAX_FRICTION }
    requires point { IsPointRow point.now }
    requires first { IsState a.now }
    requires second { IsState b.now }
    requires states { AreStates (ends_with a.now b.now now) }
    requires leaves_room { LeaveRoom64 3 now }
    ensures value { IfSome result (IsPointAfter64 (point_solved friction point.now (ends_with a.now b.now now)) point.now a.now b.now (ends_with a.now b.now now)) }
    ensures leaves_room { IfSome result (λ r. (k : ℕ) → LeaveRoom64 k now → LeaveRoom64 (k + 2) r.now) }
    ensures room { HasPointRoom64 friction point.now (ends_with a.now b.now now) → is_some result ≡ true }
{
    let apart = parting_64(a, b, now, point.ra, point.rb);
    let after_normal = match solve_normal_64(apart, point, a, b, now) {
        None => return None,
        Some(after_normal) => after_normal,
    };
    match solve_tangent_64(friction, apart, point, after_normal, a, b) {
        None => None,
        Some(slid) => Some(PointAfter64 {
            impulses: PointImpulses {
                normal: after_normal.total,
                tangent: slid.total,
            },
            now: slid.now,
        }),
    }
}

/// The contact in a solver pass after the visit of its first point: that of the second follows, if there is one.
#[tactic(auto, unfolding(crate::specs::Rows::row_solved))]
#[inline(always)]
fn solve_second_64(
    row: &ContactRow,
    a: &BodyState,
    b: &BodyState,
    after_first: PointAfter64,
) -> Option<RowAfter64>
    requires row { IsRow row.now }
    requires first { IsState a.now }
    requires second { IsState b.now }
    requires after_first { IsPointAfter64 (point_solved row.now.bodies.friction row.now.first (both_ends a.now b.now)) row.now.first a.now b.now (both_ends a.now b.now) after_first }
    requires leaves_room { LeaveRoom64 2 after_first.now }
    ensures value { IfSome result (IsRowAfter64 (row_solved row.now (both_ends a.now b.now)) row.now a.now b.now) }
    ensures room { ForSome row.now.second (λ p. HasPointRoom64 row.now.bodies.friction p (ends_with a.now b.now after_first.now)) → is_some result ≡ true }
{
    match &row.second {
        None => Some(RowAfter64 {
            first: after_first.impulses,
            second: NO_IMPULSES,
            now: after_first.now,
        }),
        Some(point) => match solve_point_64(row.bodies.friction, point, a, b, after_first.now) {
            None => None,
            Some(solved) => Some(RowAfter64 {
                first: after_first.impulses,
                second: solved.impulses,
                now: solved.now,
            }),
        },
    }
}

/// A contact in a solver pass, as `solve_row` has it: `None` where something is too large for 64 bits.
#[inline(always)]
pub fn solve_row_64(row: &ContactRow, a: &BodyState, b: &BodyState) -> Option<RowAfter64>
    requires row { IsRow row.now }
    requires first { IsState a.now }
    requires second { IsState b.now }
    ensures value { IfSome result (IsRowAfter64 (row_solved row.now (both_ends a.now b.now)) row.now a.now b.now) }
    ensures room { HasSolveRoom64 row.now a.now b.now → is_some result ≡ true }
{
    let now = match momenta_pair_64(a, b) {
        None => return None,
        Some(now) => now,
    };
    match solve_point_64(row.bodies.friction, &row.first, a, b, now) {
        None => None,
        Some(after_first) => solve_second_64(row, a, b, after_first),
    }
}
