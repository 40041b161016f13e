//! The sleeping sets of joints, by slot: each joint that sleeps under the name of its bodies' island.

ghost use Rattle.std.specs.Prelude.{◌≡◌, ◌<◌, ◌≤◌, ℕ, Contains, IfOk, None, Some, length};
ghost use Rattle.std.specs.Result.{IsOkUnless};
ghost use Rattle.body_handles.specs.declared.slot_table.TheConstants.{MAX_SLOTS};
ghost use Rattle.plain_world.specs.Joints.{joint_at};
ghost use Rattle.world_core_base.specs.Asleep.{AreJointSets, AreNamedAsleep, IsOfNone, joint_sleep};
ghost use Rattle.world_core_base.specs.Following.{CanFollow, HaveFollowed, placed};
ghost use Rattle.world_core_base.specs.JointEnds.{AreEnds, halves};
ghost use Rattle.world_core_base.specs.Sleeping.{sleep_at};

use crate::SleepingSets;
use crate::asleep::{follow, place, sleep_with};
use fixed_geom::Refusal;
use packed_sets::PackedSets;
use plain_world::{Body, BodyJoint, item_at};
use solver_sets::joint_movers;
use std::alloc::Global;

/// The name under which the joint in a slot sleeps, if one is there and does.
fn joint_sleep(bodies: &[Option<Body>], joints: &[Option<BodyJoint>], slot: u32) -> Option<u32>
    ensures { result ≡ joint_sleep bodies.now joints.now slot }
{
    match item_at(joints, slot as usize) {
        None => None,
        Some(joint) => sleep_with(bodies, joint_movers(bodies, joint)),
    }
}

/// Puts the joint in a slot into the set in which it sleeps, if it does.
fn add_joint(
    sets: &mut SleepingSets,
    bodies: &[Option<Body>],
    joints: &[Option<BodyJoint>],
    slot: u32,
)
    requires awake { sleep_at sets.old.names slot ≡ None }
    requires below { slot < length sets.old.names }
    requires named { (name : ℕ) → joint_sleep bodies.now joints.now slot ≡ Some name → name < length sets.old.sets }
    ensures names { sets.new.names ≡ placed (joint_sleep bodies.now joints.now slot) slot sets.old.names }
    ensures sets { length sets.new.sets ≡ length sets.old.sets }
{
    place(sets, slot, joint_sleep(bodies, joints, slot));
}

/// The sets of these joints.
pub(crate) fn list_joints_asleep(
    alloc: Global,
    bodies: &[Option<Body>],
    joints: &[Option<BodyJoint>],
) -> Result<SleepingSets, Refusal>
    requires few { length joints.now ≤ MAX_SLOTS }
    requires named { AreNamedAsleep bodies.now }
    ensures asleep { IfOk result (λ sets. AreJointSets bodies.now joints.now sets) }
    ensures memory_only { IsOkUnless result Refusal.NoMemory }
{
    let mut sets = SleepingSets::new(alloc);
    sets.reserve(joints.len(), bodies.len())?;
    for slot in 0..joints.len() {
        add_joint(&mut sets, bodies, joints, slot as u32);
    }
    Ok(sets)
}

/// Lets the joints with these ends wake or fall asleep as their bodies have.
fn follow_ends(
    sets: &mut SleepingSets,
    joints: &[Option<BodyJoint>],
    bodies: &[Option<Body>],
    ends: &[u32],
)
    requires { CanFollow (sleep_at sets.old.names) (joint_sleep bodies.now joints.now) (length sets.old.names) (length sets.old.sets) }
    ensures followed { HaveFollowed (joint_sleep bodies.now joints.now) (Contains (halves ends.now)) sets.old.names sets.new.names }
    ensures sets { length sets.new.sets ≡ length sets.old.sets }
{
    for place in 0..ends.len() {
        let slot = ends[place] / 2;
        follow(sets, slot, joint_sleep(bodies, joints, slot));
    }
}

/// Lets the joints of the bodies in these slots wake or fall asleep as these have; all others are where they are to be.
pub(crate) fn follow_joints(
    sets: &mut SleepingSets,
    ends: &PackedSets<u32>,
    joints: &[Option<BodyJoint>],
    bodies: &[Option<Body>],
    slots: &[u32],
)
    requires ends { AreEnds joints.now ends.now.sets }
    requires can { CanFollow (sleep_at sets.old.names) (joint_sleep bodies.now joints.now) (length sets.old.names) (length sets.old.sets) }
    requires others { (slot : ℕ) → IsOfNone slots.now (joint_at joints.now slot) → joint_sleep bodies.now joints.now slot ≡ sleep_at sets.old.names slot }
    ensures asleep { (slot : ℕ) → sleep_at sets.new.names slot ≡ joint_sleep bodies.now joints.now slot }
    ensures items { length sets.new.names ≡ length sets.old.names }
    ensures sets { length sets.new.sets ≡ length sets.old.sets }
{
    for place in 0..slots.len() {
        follow_ends(sets, joints, bodies, ends.members(slots[place]));
    }
}
