//! What can be seen of a world's joints: where their ends are, and how far they are stretched.

ghost use Rattle.std.specs.Prelude.{◌≡◌, ◌^◌, ◌+◌, ◌-ℤ◌, ◌≤◌, ◌≤ℤ◌, pos, option_and_then, unsigned_abs};
ghost use Rattle.fixed_geom.specs.Vectors.{IsWithin, minus, span};
ghost use Rattle.joint_rows.specs.Joints.{IsJoint};
ghost use Rattle.joint_rows.specs.declared.limits.TheConstants.{MAX_ANCHOR, MAX_JOINT_LENGTH};
ghost use Rattle.plain_world.specs.Bodies.{AreBodies, IsBody, pose_of};
ghost use Rattle.plain_world.specs.Joints.{AreJoints, joint_at};
ghost use Rattle.shapes.specs.Poses.{transformed};
ghost use Rattle.world_script_base.specs.JointViews.{IsStretchOfTheRow, view_between, view_of};

use fixed_geom::{Vec2, minus, span};
use joint_rows::MAX_ANCHOR;
use plain_world::{Body, BodyJoint, SetName, item_at};
use shapes::transformed;
use solver_sets::standing_of_joint;

/// What can be seen of a joint: where in the world the two points are that it holds (u), by how much their distance,
/// rounded down, exceeds the joint's length now (u; below 0 where they are nearer), and the set in which it stands.
#[derive(Clone, Copy, Debug, PartialEq, Eq)]
pub struct JointView {
    pub from: Vec2,
    pub to: Vec2,
    pub stretch: i64,
    pub set: SetName,
}

/// Where in the world the point of a body is that a joint holds.
fn end_at(body: &Body, anchor: Vec2) -> Vec2
    requires body { IsBody body.now }
    requires anchor { IsWithin (unsigned_abs MAX_ANCHOR) anchor }
    ensures value { result ≡ transformed (pose_of body.now) anchor }
    ensures within { IsWithin (2 ^ 36 + 2 ^ 25) result }
{
    transformed(body.pose(), anchor)
}

/// By how much the distance of two points exceeds a length.
fn stretch_between(from: Vec2, to: Vec2, length: i64) -> i64
    requires from { IsWithin (2 ^ 36 + 2 ^ 25) from }
    requires to { IsWithin (2 ^ 36 + 2 ^ 25) to }
    requires nonnegative { pos 0 ≤ℤ length }
    ensures { result ≡ span (minus to from) -ℤ length }
{
    span(minus(to, from)) - length
}

fn view_between(a: &Body, b: &Body, joint: &BodyJoint, set: SetName) -> JointView
    requires first { IsBody a.now }
    requires second { IsBody b.now }
    requires joint { IsJoint joint.now.joint }
    ensures { result ≡ view_between a.now b.now joint.now set }
{
    let from = end_at(a, joint.joint.from);
    let to = end_at(b, joint.joint.to);
    JointView {
        from,
        to,
        stretch: stretch_between(from, to, joint.joint.length),
        set,
    }
}

/// The view of a joint, if its bodies are there.
fn view_of(bodies: &[Option<Body>], joint: &BodyJoint) -> Option<JointView>
    requires bodies { AreBodies bodies.now }
    requires joint { IsJoint joint.now.joint }
    ensures { result ≡ view_of bodies.now joint.now }
{
    let set = standing_of_joint(bodies, joint);
    match (
        item_at(bodies, joint.a as usize),
        item_at(bodies, joint.b as usize),
    ) {
        (Some(a), Some(b)) => Some(view_between(a, b, joint, set)),
        _ => None,
    }
}

/// What can be seen of the joint in a slot; `None` where the slot is free.
pub fn joint_view(
    bodies: &[Option<Body>],
    joints: &[Option<BodyJoint>],
    slot: usize,
) -> Option<JointView>
    requires bodies { AreBodies bodies.now }
    requires joints { AreJoints bodies.now joints.now }
    ensures { result ≡ option_and_then (view_of bodies.now) (joint_at joints.now slot) }
{
    match item_at(joints, slot) {
        None => None,
        Some(joint) => view_of(bodies, joint),
    }
}

/// The stretch of a joint is what a step that begins now begins with: that of the row which its solver makes of the
/// joint. The function does nothing; its contract is the law.
pub fn stretch_is_what_a_step_begins_with()
    ensures { IsStretchOfTheRow }
{}
