//! The ends of joints, by body.
//!
//! The set of a body has the ids of the ends that stand at it: twice a joint's slot for its first end, and one more for
//! its second.

ghost use Rattle.std.specs.Prelude.{◌≡◌, ◌<◌, ◌≤◌, ◌+◌, ◌*◌, ◌/◌, ◌↔◌, ℕ, List, Option as TheOption, IfOk, OnOk, Contains, None, length, slice_set};
ghost use Rattle.std.specs.List.Sorted.{IsStrictlyIncreasing};
ghost use Rattle.std.specs.Result.{IsOkUnless};
ghost use Rattle.body_handles.specs.declared.slot_table.TheConstants.{MAX_SLOTS};
ghost use Rattle.packed_sets.specs.Packs.{IsAbsent, list_at};
ghost use Rattle.plain_world.specs.declared.joint.BodyJoint.{BodyJoint as TheJoint};
ghost use Rattle.world_core_base.specs.JointEnds.{AreEnds, AreNoted, HasRoomAt, HasRoomFor, ends_of, halves};

use fixed_geom::Refusal;
use packed_sets::PackedSets;
use plain_world::BodyJoint;
use std::alloc::Global;

/// The slots of the two bodies of a joint.
#[derive(Clone, Copy)]
pub struct Ends {
    pub a: u32,
    pub b: u32,
}

/// The ends of a joint.
pub(crate) fn ends_of(joint: &BodyJoint) -> Ends
    ensures { result ≡ ends_of joint.now }
{
    Ends {
        a: joint.a,
        b: joint.b,
    }
}

/// Makes room for two ends in the set of a body.
fn reserve_at(sets: &mut PackedSets<u32>, body: u32) -> Result<(), Refusal>
    ensures made { OnOk result (HasRoomAt body sets.new) }
    ensures kept { (other : ℕ) → HasRoomAt other sets.old → HasRoomAt other sets.new }
    ensures sets { (set : ℕ) → list_at sets.new.sets set ≡ list_at sets.old.sets set }
    ensures memory_only { IsOkUnless result Refusal.NoMemory }
{
    sets.reserve(body as usize + 1, 0)?;
    sets.reserve_in(body, 2)?;
    Ok(())
}

/// Makes room for the ends of a joint in a slot.
pub(crate) fn reserve_ends(
    sets: &mut PackedSets<u32>,
    slot: usize,
    ends: Ends,
) -> Result<(), Refusal>
    requires { slot ≤ MAX_SLOTS }
    ensures made { OnOk result (HasRoomFor ends slot sets.new) }
    ensures sets { (set : ℕ) → list_at sets.new.sets set ≡ list_at sets.old.sets set }
    ensures memory_only { IsOkUnless result Refusal.NoMemory }
{
    reserve_at(sets, ends.a)?;
    reserve_at(sets, ends.b)?;
    sets.reserve(0, 2 * slot + 2)?;
    Ok(())
}

/// Puts the ends of the joint in a slot in, for which there is room.
pub(crate) fn note_ends(sets: &mut PackedSets<u32>, slot: u32, ends: Ends)
    requires few { slot < MAX_SLOTS }
    requires room { HasRoomFor ends slot sets.old }
    requires first { IsAbsent sets.old.sets (2 * slot) }
    requires second { IsAbsent sets.old.sets (2 * slot + 1) }
    ensures { AreNoted sets.old.sets sets.new.sets slot ends }
{
    sets.insert(ends.a, 2 * slot);
    sets.insert(ends.b, 2 * slot + 1);
}

/// Takes the ends of the joint in a slot out, if there is one.
pub(crate) fn drop_ends(sets: &mut PackedSets<u32>, slot: u32)
    requires { slot < MAX_SLOTS }
    ensures { (joints : List (TheOption TheJoint)) → slot < length joints → AreEnds joints sets.old.sets → AreEnds (slice_set joints slot None) sets.new.sets }
{
    sets.remove(2 * slot);
    sets.remove(2 * slot + 1);
}

/// The slots of the joints with these ends, in the ends' order.
fn list_halves(alloc: Global, ends: &[u32]) -> Result<Vec<u32>, Refusal>
    ensures slots { IfOk result (λ slots. slots.items ≡ halves ends.now) }
    ensures memory_only { IsOkUnless result Refusal.NoMemory }
{
    let mut slots = Vec::with_capacity(alloc, ends.len())?;
    for place in 0..ends.len() {
        slots.push(ends[place] / 2)?;
    }
    Ok(slots)
}

/// The slots of the joints with these ends, ascending, each once.
pub(crate) fn list_slots(alloc: Global, ends: &[u32]) -> Result<Vec<u32>, Refusal>
    ensures rising { IfOk result (λ slots. IsStrictlyIncreasing slots.items) }
    ensures slots { IfOk result (λ slots. (slot : ℕ) → Contains slots.items slot ↔ Contains (halves ends.now) slot) }
    ensures memory_only { IsOkUnless result Refusal.NoMemory }
{
    let mut slots = list_halves(alloc, ends)?;
    slots.sort_unstable();
    slots.dedup();
    Ok(slots)
}
