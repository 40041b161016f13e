//! The impulses of one joint.

ghost use Rattle.std.specs.Prelude.{◌≡◌, ◌^◌, ◌≤◌, true, pos, neg_ℤ, unsigned_abs};
ghost use Rattle.fixed_geom.specs.Numbers.{rdiv};
ghost use Rattle.fixed_geom.specs.Vectors.{IsWithin, dot, minus, unit_length};
ghost use Rattle.momenta.specs.declared.state.Ends.{Ends};
ghost use Rattle.momenta.specs.Impulses.{between, parting, travelled};
ghost use Rattle.momenta.specs.ImpulseBounds.{AreStates, AreSameBodies, IsMomentumKept, IsState};
ghost use Rattle.joint_rows.specs.Joints.{joint_bias};
ghost use Rattle.joint_rows.specs.Rows.{IsJointRow, joint_solved, joint_warmed, stretch_now};

use crate::{JointRow, MAX_JOINT_BIAS, MAX_JOINT_IMPULSE};
use fixed_geom::{minus, rdiv_64};
use momenta::{BodyState, Ends, Goal, part_along, parting, solve_line, warm_line};

/// A joint after its impulse, with the two bodies.
#[derive(Clone, Copy, Debug, PartialEq, Eq)]
pub struct JointAfter {
    pub row: JointRow,
    pub ends: Ends,
}

/// By how much the anchors' distance exceeds the joint's length now, in u: what it was when the step began, and how far
/// the centres have parted along the line since.
#[tactic(auto, unfolding(crate::specs::Rows::stretch_now))]
#[inline(always)]
pub(crate) fn stretch_between(row: &JointRow, a: &BodyState, b: &BodyState) -> i64
    requires row { IsJointRow row.now }
    requires first { IsState a.now }
    requires second { IsState b.now }
    ensures value { result ≡ stretch_now row.now (record { a = a.now; b = b.now }) }
    ensures within { unsigned_abs result ≤ 2 ^ 40 }
{
    let parted = minus(b.travelled(), a.travelled());
    row.stretch + part_along(parted, row.line.direction)
}

/// What takes an eighth of an error away in a tick, in u/tick.
#[inline(always)]
fn opposite_eighth(stretch: i64) -> i64
    requires { unsigned_abs stretch ≤ 2 ^ 40 }
    ensures { result ≡ neg_ℤ (rdiv stretch (pos 8)) }
{
    -rdiv_64(stretch, 8)
}

/// The speed of parting that takes the error of a joint away, in u/tick: an eighth of it in a tick, and at most
/// `MAX_JOINT_BIAS` either way (as Box2D's bias velocity).
#[tactic(auto, unfolding(crate::specs::Joints::joint_bias))]
#[inline(always)]
pub(crate) fn bias_of(stretch: i64) -> i64
    requires { unsigned_abs stretch ≤ 2 ^ 40 }
    ensures value { result ≡ joint_bias stretch }
    ensures within { unsigned_abs result ≤ unsigned_abs MAX_JOINT_BIAS }
{
    let bias = opposite_eighth(stretch);
    if bias < -MAX_JOINT_BIAS {
        -MAX_JOINT_BIAS
    } else if MAX_JOINT_BIAS < bias {
        MAX_JOINT_BIAS
    } else {
        bias
    }
}

/// Whether a joint has kept no impulse: its warm start then leaves any two bodies as they are.
#[inline(always)]
pub fn has_no_impulse(row: &JointRow) -> bool
    ensures { result ≡ true → (e : Ends) → AreStates e → joint_warmed row.now e ≡ record { row = row.now; ends = e } }
{
    row.impulse == 0
}

/// The warm start of a joint: the impulse that it has kept, given once more. Where a momentum would leave its limits,
/// neither body gets anything.
#[tactic(auto, unfolding(crate::specs::Rows::joint_warmed))]
#[inline(always)]
pub fn warm_joint(row: &JointRow, ends: &mut Ends)
    requires row { IsJointRow row.now }
    requires states { AreStates ends.old }
    ensures value { record { row = row.now; ends = ends.new } ≡ joint_warmed row.now ends.old }
    ensures states { AreStates ends.new }
    ensures same { AreSameBodies ends.old ends.new }
    ensures kept { IsMomentumKept ends.old ends.new }
{
    warm_line(&row.line, row.impulse, ends);
}

/// A joint in a solver pass: one impulse along its line towards the bias, the accumulated one kept within
/// `MAX_JOINT_IMPULSE` either way. Where a momentum would leave its limits it is dropped, and all stays.
#[tactic(auto, unfolding(crate::specs::Rows::joint_solved))]
#[inline(always)]
pub fn solve_joint(row: &mut JointRow, ends: &mut Ends)
    requires row { IsJointRow row.old }
    requires states { AreStates ends.old }
    ensures value { record { row = row.new; ends = ends.new } ≡ joint_solved row.old ends.old }
    ensures row { IsJointRow row.new }
    ensures bodies { row.new.bodies ≡ row.old.bodies }
    ensures states { AreStates ends.new }
    ensures same { AreSameBodies ends.old ends.new }
    ensures kept { IsMomentumKept ends.old ends.new }
{
    let bias = bias_of(stretch_between(row, &ends.a, &ends.b));
    let apart = parting(row.line.ra, row.line.rb, ends);
    let goal = Goal {
        bias,
        low: -MAX_JOINT_IMPULSE,
        high: MAX_JOINT_IMPULSE,
        total: row.impulse,
    };
    row.impulse = solve_line(&row.line, apart, goal, ends);
}
