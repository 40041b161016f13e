//! The row of a joint in a step.

ghost use Rattle.std.specs.Prelude.{◌≡◌, ◌<◌, length};
ghost use Rattle.std.specs.Option.{ForSome};
ghost use Rattle.joint_rows.specs.Rows.{IsJointRow};
ghost use Rattle.momenta.specs.ImpulseBounds.{AreStates};
ghost use Rattle.colour_solver.specs.States.{AreAllStates};
ghost use Rattle.plain_world.specs.Joints.{joint_at};
ghost use Rattle.world_core_base.specs.ConstraintRows.{IsJointOn, IsJointThere, joint_bodies, joint_ends, joint_row_in};

use joint_rows::{JointBodies, JointRow, joint_row};
use momenta::{BodyState, Ends};
use plain_world::{BodyJoint, item_at};

/// The two bodies of a joint.
#[inline(always)]
fn ends_of(states: &[BodyState], joint: &BodyJoint) -> Ends
    requires all_states { AreAllStates states.now }
    requires first { joint.now.a < length states.now }
    requires second { joint.now.b < length states.now }
    ensures value { result ≡ joint_ends states.now joint.now }
    ensures states { AreStates result }
{
    Ends {
        a: states[joint.a as usize],
        b: states[joint.b as usize],
    }
}

/// Which joint it is, and its bodies.
#[inline(always)]
fn bodies_of(slot: usize, joint: &BodyJoint) -> JointBodies
    ensures { result ≡ joint_bodies slot joint.now }
{
    JointBodies {
        index: slot,
        a: joint.a,
        b: joint.b,
    }
}

/// The row of the joint in a slot, if there is one.
#[inline(always)]
pub(crate) fn joint_row_at(
    states: &[BodyState],
    joints: &[Option<BodyJoint>],
    slot: usize,
) -> Option<JointRow>
    requires all_states { AreAllStates states.now }
    requires joint { IsJointThere states.now (joint_at joints.now slot) }
    ensures value { result ≡ joint_row_in states.now slot (joint_at joints.now slot) }
    ensures row { ForSome result (λ r. IsJointRow r) }
{
    match item_at(joints, slot) {
        None => None,
        Some(joint) => {
            let ends = ends_of(states, joint);
            Some(joint_row(bodies_of(slot, joint), &joint.joint, &ends))
        }
    }
}
