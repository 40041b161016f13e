//! What stays of a joint for a whole step: offsets, direction, inverse mass, and how far it is stretched when the step
//! begins.

ghost use Rattle.std.specs.Prelude.{◌≡◌, ◌^◌, ◌≤◌, ◌+◌, ◌⊎◌, true, pos, ◌≤ℤ◌, unsigned_abs};
ghost use Rattle.fixed_geom.specs.Facings.{IsFacing};
ghost use Rattle.fixed_geom.specs.Vectors.{IsWithin, span};
ghost use Rattle.momenta.specs.Impulses.{line_along};
ghost use Rattle.momenta.specs.ImpulseBounds.{AreStates, IsLine, IsState};
ghost use Rattle.joint_rows.specs.Joints.{IsJoint, arm, anchor_of, direction_along, gap, is_zero};
ghost use Rattle.joint_rows.specs.Rows.{IsJointRow, joint_row};

use crate::Joint;
use fixed_geom::{MAX_OFFSET, UNIT, Vec2, ZERO_VECTOR, minus, plus, rotate_64, span, unit_along};
use momenta::{BodyState, Ends, Line, inverse_mass, inverse_reciprocal};

/// Which joint of the list a row is of, and the slots of its bodies.
#[derive(Clone, Copy, Debug, PartialEq, Eq)]
pub struct JointBodies {
    pub index: usize,
    pub a: u32,
    pub b: u32,
}

/// A joint in a step: the line from the first body's anchor to the second's, by how much the distance of the two
/// exceeded the joint's length when the step began (u), and the accumulated impulse (mass·u/tick).
#[derive(Clone, Copy, Debug, PartialEq, Eq)]
pub struct JointRow {
    pub bodies: JointBodies,
    pub line: Line,
    pub stretch: i64,
    pub impulse: i64,
}

/// The direction of a joint whose two anchors are at one point, times 2^30: upwards, this project's own rule.
const UPWARDS: Vec2 = Vec2 { x: 0, y: UNIT };

/// The offset of a body's anchor from its centre (u), in the axes of the world.
#[inline(always)]
fn arm(anchor: Vec2, body: &BodyState) -> Vec2
    requires anchor { IsWithin (2 ^ 24) anchor }
    requires state { IsState body.now }
    ensures value { result ≡ arm anchor body.now }
    ensures within { IsWithin (2 ^ 25) result }
{
    rotate_64(body.motion.rot, anchor)
}

/// Where a body's anchor is (u), its offset from the centre being known.
#[inline(always)]
fn anchor_at(offset: Vec2, body: &BodyState) -> Vec2
    requires offset { IsWithin (2 ^ 25) offset }
    requires state { IsState body.now }
    ensures value { result ≡ anchor_of offset body.now }
    ensures within { IsWithin (2 ^ 36 + 2 ^ 25) result }
{
    plus(body.motion.x, offset)
}

/// The way from the first body's anchor to the second's (u), their offsets from the centres being known.
#[inline(always)]
fn gap(ra: Vec2, rb: Vec2, ends: &Ends) -> Vec2
    requires first { IsWithin (2 ^ 25) ra }
    requires second { IsWithin (2 ^ 25) rb }
    requires states { AreStates ends.now }
    ensures value { result ≡ gap ra rb ends.now }
    ensures within { IsWithin (2 ^ 38) result }
{
    minus(anchor_at(rb, &ends.b), anchor_at(ra, &ends.a))
}

/// Whether a way leads nowhere.
#[inline(always)]
fn is_zero(d: Vec2) -> bool
    ensures value { result ≡ is_zero d }
{
    d.x == 0 && d.y == 0
}

/// The direction of a way (times 2^30) whose length is known: upwards where it leads nowhere.
#[inline(always)]
fn direction_along(d: Vec2, length: i64) -> Vec2
    requires length { length ≡ span d }
    requires nonnegative { pos 0 ≤ℤ length }
    requires covers { IsWithin (unsigned_abs length) d }
    ensures value { result ≡ direction_along d }
    ensures within { IsWithin (unsigned_abs UNIT) result }
{
    if is_zero(d) {
        UPWARDS
    } else {
        unit_along(d, length)
    }
}

/// The line along a direction (times 2^30) through the points at these offsets from the two centres (u).
#[inline(always)]
fn line_along(direction: Vec2, ra: Vec2, rb: Vec2, ends: &Ends) -> Line
    requires direction { IsWithin (unsigned_abs UNIT) direction }
    requires first { IsWithin (unsigned_abs MAX_OFFSET) ra }
    requires second { IsWithin (unsigned_abs MAX_OFFSET) rb }
    requires states { AreStates ends.now }
    requires mover { (ends.now.a.movable ≡ true) ⊎ (ends.now.b.movable ≡ true) }
    ensures value { result ≡ line_along direction ra rb ends.now }
    ensures line { IsLine result }
{
    let inverse = inverse_mass(direction, ra, rb, ends);
    Line {
        direction,
        ra,
        rb,
        inverse_mass: inverse,
        reciprocal: inverse_reciprocal(inverse),
    }
}

/// The row of a joint, the offsets of its anchors from the two centres being known.
#[tactic(auto, unfolding(crate::specs::Rows::joint_row))]
#[inline(always)]
fn row_at(bodies: JointBodies, joint: &Joint, ra: Vec2, rb: Vec2, ends: &Ends) -> JointRow
    requires joint { IsJoint joint.now }
    requires first { ra ≡ arm joint.now.from ends.now.a }
    requires second { rb ≡ arm joint.now.to ends.now.b }
    requires first_within { IsWithin (2 ^ 25) ra }
    requires second_within { IsWithin (2 ^ 25) rb }
    requires states { AreStates ends.now }
    requires mover { (ends.now.a.movable ≡ true) ⊎ (ends.now.b.movable ≡ true) }
    ensures value { result ≡ joint_row bodies ends.now joint.now }
    ensures row { IsJointRow result }
{
    let apart = gap(ra, rb, ends);
    let distance = span(apart);
    JointRow {
        bodies,
        line: line_along(direction_along(apart, distance), ra, rb, ends),
        stretch: distance - joint.length,
        impulse: joint.impulse,
    }
}

/// The row of a joint between two centres: nothing has to be turned.
#[inline(always)]
fn row_between_centres(bodies: JointBodies, joint: &Joint, ends: &Ends) -> JointRow
    requires joint { IsJoint joint.now }
    requires from { is_zero joint.now.from ≡ true }
    requires to { is_zero joint.now.to ≡ true }
    requires states { AreStates ends.now }
    requires mover { (ends.now.a.movable ≡ true) ⊎ (ends.now.b.movable ≡ true) }
    ensures value { result ≡ joint_row bodies ends.now joint.now }
    ensures row { IsJointRow result }
{
    row_at(bodies, joint, ZERO_VECTOR, ZERO_VECTOR, ends)
}

/// The row of a joint of two bodies, one of them movable at least, which stand as they do when the step begins.
pub fn joint_row(bodies: JointBodies, joint: &Joint, ends: &Ends) -> JointRow
    requires joint { IsJoint joint.now }
    requires states { AreStates ends.now }
    requires mover { (ends.now.a.movable ≡ true) ⊎ (ends.now.b.movable ≡ true) }
    ensures value { result ≡ joint_row bodies ends.now joint.now }
    ensures row { IsJointRow result }
{
    if is_zero(joint.from) {
        if is_zero(joint.to) {
            return row_between_centres(bodies, joint, ends);
        }
    }
    let ra = arm(joint.from, &ends.a);
    let rb = arm(joint.to, &ends.b);
    row_at(bodies, joint, ra, rb, ends)
}
