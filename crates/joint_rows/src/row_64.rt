//! The impulses of a joint in 64 bits, on copies of what they change: what `solve` does, where there is room.

ghost use Rattle.std.specs.Prelude.{◌≡◌, ◌^◌, ◌<◌, ◌≤◌, true, neg_ℤ, unsigned_abs, IfSome, is_some};
ghost use Rattle.momenta.specs.Impulses.{solved_impulse, warmed};
ghost use Rattle.momenta.specs.ImpulseBounds.{AreStates, IsState};
ghost use Rattle.momenta.specs.Line64.{IsImpulse, LeaveRoom64, both_ends, ends_with};
ghost use Rattle.joint_rows.specs.Joints.{joint_bias};
ghost use Rattle.joint_rows.specs.Rows.{IsJointRow, joint_solved, joint_warmed, stretch_now};
ghost use Rattle.joint_rows.specs.Row64.{HasLineRoom64, HasSolveRoom64, HasWarmRoom64, IsJointAfter64, IsRowAfter64};

use crate::solve::{bias_of, stretch_between};
use crate::{JointRow, MAX_JOINT_IMPULSE};
use momenta::{
    BodyState, Exerted64, Goal, LineImpulse, MomentaPair64, momenta_pair_64, parting_64,
    solve_line_64, warm_at_once_64,
};

/// The impulse of a joint in a solver pass, its bodies having the momenta `now`.
#[inline(always)]
pub(crate) fn solve_with_64(
    row: &JointRow,
    a: &BodyState,
    b: &BodyState,
    now: MomentaPair64,
) -> Option<Exerted64>
    requires row { IsJointRow row.now }
    requires first { IsState a.now }
    requires second { IsState b.now }
    requires states { AreStates (ends_with a.now b.now now) }
    requires leaves_room { LeaveRoom64 4 now }
    ensures value { IfSome result (IsJointAfter64 (joint_solved row.now (ends_with a.now b.now now)) row.now a.now b.now now) }
    ensures room { HasLineRoom64 row.now (ends_with a.now b.now now) → is_some result ≡ true }
{
    let bias = bias_of(stretch_between(row, a, b));
    let apart = parting_64(a, b, now, row.line.ra, row.line.rb);
    let goal = Goal {
        bias,
        low: -MAX_JOINT_IMPULSE,
        high: MAX_JOINT_IMPULSE,
        total: row.impulse,
    };
    solve_line_64(&row.line, apart, goal, a, b, now)
}

/// A joint in a solver pass, as `solve_joint` has it: the accumulated impulse and the two bodies' momenta after it, or
/// `None` where something is too large for 64 bits.
#[inline(always)]
pub fn solve_joint_64(row: &JointRow, a: &BodyState, b: &BodyState) -> Option<Exerted64>
    requires row { IsJointRow row.now }
    requires first { IsState a.now }
    requires second { IsState b.now }
    ensures value { IfSome result (IsRowAfter64 (joint_solved row.now (both_ends a.now b.now)) row.now a.now b.now) }
    ensures room { HasSolveRoom64 row.now a.now b.now → is_some result ≡ true }
{
    match momenta_pair_64(a, b) {
        None => None,
        Some(now) => solve_with_64(row, a, b, now),
    }
}

/// The warm start of a joint, its bodies having the momenta `now`.
#[inline(always)]
pub(crate) fn warm_with_64(
    row: &JointRow,
    a: &BodyState,
    b: &BodyState,
    now: MomentaPair64,
) -> Option<Exerted64>
    requires row { IsJointRow row.now }
    requires states { AreStates (ends_with a.now b.now now) }
    requires leaves_room { LeaveRoom64 4 now }
    ensures value { IfSome result (IsJointAfter64 (joint_warmed row.now (ends_with a.now b.now now)) row.now a.now b.now now) }
    ensures room { unsigned_abs row.now.impulse < 2 ^ 29 → is_some result ≡ true }
{
    let nothing = LineImpulse {
        line: row.line,
        impulse: 0,
    };
    let kept = LineImpulse {
        line: row.line,
        impulse: row.impulse,
    };
    match warm_at_once_64(nothing, kept, a, b, now) {
        None => None,
        Some(now) => Some(Exerted64 {
            now,
            total: row.impulse,
        }),
    }
}

/// The warm start of a joint, as `warm_joint` has it: the accumulated impulse, which is as it was, and the two bodies'
/// momenta after it, or `None` where something is too large for 64 bits.
#[inline(always)]
pub fn warm_joint_64(row: &JointRow, a: &BodyState, b: &BodyState) -> Option<Exerted64>
    requires row { IsJointRow row.now }
    requires first { IsState a.now }
    requires second { IsState b.now }
    ensures value { IfSome result (IsRowAfter64 (joint_warmed row.now (both_ends a.now b.now)) row.now a.now b.now) }
    ensures room { HasWarmRoom64 row.now a.now b.now → is_some result ≡ true }
{
    match momenta_pair_64(a, b) {
        None => None,
        Some(now) => warm_with_64(row, a, b, now),
    }
}
