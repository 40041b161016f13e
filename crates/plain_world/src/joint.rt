//! Joints between two bodies.

ghost use Rattle.std.specs.Prelude.{◌≡◌, OnOk};
ghost use Rattle.std.specs.Result.{result_err};
ghost use Rattle.joint_rows.specs.Joints.{IsJoint};
ghost use Rattle.plain_world.specs.Joints.{forbidden_by, is_joint_of, joint_made, joint_refusal};

use body_handles::Handle;
use contacts_base::BodyPair;
use fixed_geom::{Refusal, Vec2, is_within};
use joint_rows::{Joint, MAX_ANCHOR, MAX_JOINT_LENGTH};

/// A joint, as a slot contains it: between the bodies in the slots `a` and `b`, which live as long as it does.
#[derive(Clone, Copy, Debug, PartialEq, Eq)]
pub struct BodyJoint {
    pub a: u32,
    pub b: u32,
    /// Whether its two bodies may collide.
    pub collide: bool,
    pub joint: Joint,
}

impl BodyJoint {
    /// Whether one of its ends is the body in this slot.
    pub fn is_of(&self, slot: u32) -> bool
        ensures { result ≡ is_joint_of slot self.now }
    {
        self.a == slot || self.b == slot
    }

    /// The pair of bodies that it keeps from colliding, if it does.
    pub fn forbidden_pair(&self) -> Option<BodyPair>
        ensures { result ≡ forbidden_by self.now }
    {
        if self.collide {
            None
        } else {
            Some(BodyPair {
                a: self.a,
                b: self.b,
            })
        }
    }
}

/// A joint to be made: it holds the point `from` of the body `a` and the point `to` of the body `b`, each given from
/// its body's centre in the body's own axes, at the distance `length` (all in u).
#[derive(Clone, Copy, Debug, PartialEq, Eq)]
pub struct JointDef {
    pub a: Handle,
    pub b: Handle,
    pub from: Vec2,
    pub to: Vec2,
    pub length: i64,
    /// Whether its two bodies may collide.
    pub collide: bool,
}

impl JointDef {
    /// Tests its numbers: refused 5 for an anchor with a component beyond 2^24 in size, and for a length below 0 or
    /// beyond 2^25.
    #[tactic(auto, unfolding(crate::specs::Joints::joint_refusal))]
    pub fn check(&self) -> Result<(), Refusal>
        ensures refusal { result_err result ≡ joint_refusal self.now }
        ensures allowed { OnOk result (IsJoint (joint_made self.now).joint) }
    {
        if !is_within(self.from, MAX_ANCHOR.unsigned_abs()) {
            return Err(Refusal::OutOfRange);
        }
        if !is_within(self.to, MAX_ANCHOR.unsigned_abs()) {
            return Err(Refusal::OutOfRange);
        }
        if self.length < 0 || self.length > MAX_JOINT_LENGTH {
            return Err(Refusal::OutOfRange);
        }
        Ok(())
    }

    /// The joint, with no impulse yet.
    pub fn make(&self) -> BodyJoint
        ensures { result ≡ joint_made self.now }
    {
        BodyJoint {
            a: self.a.slot,
            b: self.b.slot,
            collide: self.collide,
            joint: Joint {
                from: self.from,
                to: self.to,
                length: self.length,
                impulse: 0,
            },
        }
    }
}
