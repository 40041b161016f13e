//! A table of joints from a list, as a saved world has it.

ghost use Rattle.std.specs.Prelude.{◌≡◌, ◌≤◌, ◌<◌, ◌+◌, ◌*◌, take, length, IfOk, OnOk};
ghost use Rattle.std.specs.Result.{IsOkUnless};
ghost use Rattle.body_handles.specs.declared.slot_table.TheConstants.{MAX_SLOTS};
ghost use Rattle.packed_sets.specs.Packs.{IsAbsent};
ghost use Rattle.world_core_base.specs.JointEnds.{AreEnds, AreNoted, ends_of};

use crate::joint_ends::{ends_of, note_ends, reserve_ends};
use crate::joint_table::JointTable;
use fixed_geom::Refusal;
use packed_sets::PackedSets;
use plain_world::BodyJoint;
use std::alloc::Global;

/// Adds the ends of the joint in a slot.
fn add_ends(sets: &mut PackedSets<u32>, slot: u32, joint: &BodyJoint) -> Result<(), Refusal>
    requires few { slot < MAX_SLOTS }
    requires first { IsAbsent sets.old.sets (2 * slot) }
    requires second { IsAbsent sets.old.sets (2 * slot + 1) }
    ensures noted { OnOk result (AreNoted sets.old.sets sets.new.sets slot (ends_of joint.now)) }
    ensures memory_only { IsOkUnless result Refusal.NoMemory }
{
    let ends = ends_of(joint);
    reserve_ends(sets, slot as usize, ends)?;
    note_ends(sets, slot, ends);
    Ok(())
}

/// Adds the ends of the joint in a slot, if there is one.
fn add_ends_at(
    sets: &mut PackedSets<u32>,
    joints: &[Option<BodyJoint>],
    slot: usize,
) -> Result<(), Refusal>
    requires few { length joints.now ≤ MAX_SLOTS }
    requires below { slot < length joints.now }
    requires ends { AreEnds (take slot joints.now) sets.old.sets }
    ensures ends { OnOk result (AreEnds (take (slot + 1) joints.now) sets.new.sets) }
    ensures memory_only { IsOkUnless result Refusal.NoMemory }
{
    if let Some(joint) = &joints[slot] {
        add_ends(sets, slot as u32, joint)?;
    }
    Ok(())
}

/// By body the ends of these joints.
fn list_ends(alloc: Global, joints: &[Option<BodyJoint>]) -> Result<PackedSets<u32>, Refusal>
    requires { length joints.now ≤ MAX_SLOTS }
    ensures ends { IfOk result (λ sets. AreEnds joints.now sets.sets) }
    ensures memory_only { IsOkUnless result Refusal.NoMemory }
{
    let mut sets = PackedSets::new(alloc);
    for slot in 0..joints.len() {
        add_ends_at(&mut sets, joints, slot)?;
    }
    Ok(sets)
}

impl JointTable {
    /// The table with these joints by slot, and no room for more.
    pub fn from_joints(alloc: Global, joints: &[Option<BodyJoint>]) -> Result<JointTable, Refusal>
        requires { length joints.now ≤ MAX_SLOTS }
        ensures joints { IfOk result (λ made. made.joints ≡ joints.now) }
        ensures memory_only { IsOkUnless result Refusal.NoMemory }
    {
        Ok(JointTable {
            joints: Vec::from_slice(alloc, joints)?,
            ends: list_ends(alloc, joints)?,
            room: None,
        })
    }
}
