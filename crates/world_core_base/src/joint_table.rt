//! The joints of a world by slot, which of them are a body's, and which pairs of bodies they keep from colliding.

mod from_joints;

ghost use Rattle.std.specs.Prelude.{◌≡◌, ◌≢◌, ◌≤◌, ◌<◌, ◌/◌, ℕ, [], true, Contains, IfOk, None, OnOk, Some, length, option_map, slice_index_or, slice_set, vec_len};
ghost use Rattle.std.specs.Result.{IsOkUnless};
ghost use Rattle.body_handles.specs.declared.slot_table.TheConstants.{MAX_SLOTS};
ghost use Rattle.plain_world.specs.Joints.{forbidden_pairs, idle_if, idle_joints, is_end_in, joint_at};
ghost use Rattle.plain_world.specs.InSlots.{impulse_set, with_impulse};
ghost use Rattle.packed_sets.specs.Once.{AreOnce};
ghost use Rattle.plain_world.specs.declared.joint.BodyJoint.{BodyJoint as TheBodyJoint};
ghost use Rattle.world_core_base.specs.Following.{CanFollow};
ghost use Rattle.world_core_base.specs.JointTables.{own_slots};
ghost use Rattle.world_core_base.specs.JointEnds.{ends_of, halves};
ghost use Rattle.world_core_base.specs.Asleep.{AreJointSets, AreNamedAsleep, IsOfNone, joint_sleep};
ghost use Rattle.world_core_base.specs.Sleeping.{sleep_at};
ghost use Rattle.plain_world.specs.Slots.{with_item};

use crate::SleepingSets;
use crate::forbidden_pairs::either_keeps_apart;
use crate::joint_ends::{Ends, drop_ends, ends_of, list_slots, note_ends, reserve_ends};
use crate::joints_asleep::{follow_joints, list_joints_asleep};
use contacts::ForbiddenPairs;
use fixed_geom::Refusal;
use packed_sets::PackedSets;
use plain_world::{Body, BodyJoint, clear_slot, put_item};
use std::alloc::Global;
use std::marker::Model;
use std::mem;

/// The joints by slot. Contracts see what each slot contains (`joints`), and the two bodies for a joint of which there
/// is room (`room`).
#[derive(Drop)]
pub struct JointTable {
    joints: Vec<Option<BodyJoint>>,
    // By body the ends of joints that stand at it.
    ends: PackedSets<u32>,
    // For a joint of which bodies each list has room.
    room: Option<Ends>,
}

impl Model for JointTable {
    ghost use Rattle.std.specs.Prelude.{◌-◌, vec_capacity, vec_len};
    ghost use Rattle.world_core_base.specs.JointTables.{IsJointTable, Joints};

    ghost Value = { Joints };

    ghost view = { λ a. record { joints = a.joints.items; room = a.room } };

    ghost invariant = { λ a. IsJointTable a.joints.items a.ends a.room (vec_capacity a.joints - vec_len a.joints) };
}

/// Gives the joint in a slot's entry, if there is one, this impulse.
fn put_impulse(entry: &mut Option<BodyJoint>, impulse: i64)
    ensures { entry.new ≡ option_map (with_impulse impulse) entry.old }
{
    match entry {
        None => {}
        Some(joint) => {
            joint.joint.impulse = impulse;
        }
    }
}

/// Takes its impulse away from the joint in a slot's entry, if there is one and it is of this body.
fn idle_entry(entry: &mut Option<BodyJoint>, body: u32)
    ensures { entry.new ≡ option_map (idle_if body) entry.old }
{
    if let Some(joint) = entry {
        if joint.is_of(body) {
            joint.joint.impulse = 0;
        }
    }
}

/// The same for the entry of one slot.
fn idle_slot(joints: &mut Vec<Option<BodyJoint>>, slot: usize, body: u32)
    requires { slot < vec_len joints.old }
    ensures { joints.new.items ≡ slice_set joints.old.items slot (option_map (idle_if body) (slice_index_or joints.old.items slot None)) }
{
    idle_entry(&mut joints[slot], body);
}

/// Takes their impulses away from the joints of a body, which has these ends.
fn idle_own(joints: &mut Vec<Option<BodyJoint>>, ends: &[u32], body: u32)
    requires below { (id : ℕ) → Contains ends.now id → id / 2 < length joints.old.items }
    requires all { (slot : ℕ) → is_end_in body (joint_at joints.old.items slot) ≡ true → Contains (halves ends.now) slot }
    ensures { joints.new.items ≡ idle_joints body joints.old.items }
{
    for place in 0..ends.len() {
        idle_slot(joints, (ends[place] / 2) as usize, body);
    }
}

impl JointTable {
    /// No joints.
    pub fn new(alloc: Global) -> JointTable
        ensures { result.joints ≡ [] }
    {
        JointTable {
            joints: Vec::new(alloc),
            ends: PackedSets::new(alloc),
            room: None,
        }
    }

    /// A copy of its own.
    pub fn try_copy(&self) -> Result<JointTable, Refusal>
        ensures copy { IfOk result (λ copied. copied.joints ≡ self.now.joints) }
        ensures memory_only { IsOkUnless result Refusal.NoMemory }
    {
        let alloc = *self.joints.allocator();
        Ok(JointTable {
            joints: Vec::from_slice(alloc, self.joints.as_slice())?,
            ends: self.ends.try_copy()?,
            room: None,
        })
    }

    /// The joint in each slot.
    pub fn joints(&self) -> &[Option<BodyJoint>]
        ensures { result.now ≡ self.now.joints }
    {
        self.joints.as_slice()
    }

    /// The slots of the joints that have the body in a slot as an end, ascending. Costs by how many there are.
    pub fn slots_of(&self, body: u32) -> Result<Vec<u32>, Refusal>
        ensures slots { IfOk result (λ slots. slots.items ≡ own_slots body self.now.joints) }
        ensures memory_only { IsOkUnless result Refusal.NoMemory }
    {
        let slots = list_slots(*self.joints.allocator(), self.ends.members(body))?;
        Ok(slots)
    }

    /// The ends of joints at the body in a slot, in no order: twice the slot of a joint for its first end, and one more
    /// for its second.
    pub fn ends(&self, body: u32) -> &[u32]
        ensures all { (slot : ℕ) → is_end_in body (joint_at self.now.joints slot) ≡ true → Contains (halves result.now) slot }
        ensures only { (slot : ℕ) → Contains (halves result.now) slot → is_end_in body (joint_at self.now.joints slot) ≡ true }
        ensures once { ((slot : ℕ) (joint : TheBodyJoint) → joint_at self.now.joints slot ≡ Some joint → joint.a ≢ joint.b) → AreOnce (halves result.now) }
    {
        self.ends.members(body)
    }

    /// The sets of those of the joints that sleep by these bodies.
    pub fn list_asleep(&self, bodies: &[Option<Body>]) -> Result<SleepingSets, Refusal>
        requires { AreNamedAsleep bodies.now }
        ensures asleep { IfOk result (λ sets. AreJointSets bodies.now self.now.joints sets) }
        ensures memory_only { IsOkUnless result Refusal.NoMemory }
    {
        list_joints_asleep(*self.joints.allocator(), bodies, &self.joints)
    }

    /// Lets the joints of the bodies in these slots wake or fall asleep as these have, in the sets of the joints. All
    /// others are where they are to be. Costs by how many they are. Takes no memory.
    pub fn follow(&self, sets: &mut SleepingSets, bodies: &[Option<Body>], slots: &[u32])
        requires can { CanFollow (sleep_at sets.old.names) (joint_sleep bodies.now self.now.joints) (length sets.old.names) (length sets.old.sets) }
        requires others { (slot : ℕ) → IsOfNone slots.now (joint_at self.now.joints slot) → joint_sleep bodies.now self.now.joints slot ≡ sleep_at sets.old.names slot }
        ensures asleep { (slot : ℕ) → sleep_at sets.new.names slot ≡ joint_sleep bodies.now self.now.joints slot }
        ensures items { length sets.new.names ≡ length sets.old.names }
        ensures sets { length sets.new.sets ≡ length sets.old.sets }
    {
        follow_joints(sets, &self.ends, &self.joints, bodies, slots);
    }

    /// Makes room for this joint.
    pub fn reserve_for(&mut self, joint: &BodyJoint) -> Result<(), Refusal>
        ensures joints { self.new.joints ≡ self.old.joints }
        ensures room { OnOk result (self.new.room ≡ Some (ends_of joint.now)) }
        ensures memory_only { IsOkUnless result Refusal.NoMemory }
    {
        let ends = ends_of(joint);
        self.room = None;
        self.joints.reserve(1)?;
        reserve_ends(&mut self.ends, self.joints.len(), ends)?;
        self.room = Some(ends);
        Ok(())
    }

    /// Puts a joint into an empty slot, or into a new one at the end. There has to be room for it.
    pub fn put(&mut self, slot: u32, joint: BodyJoint)
        requires room { self.old.room ≡ Some (ends_of joint) }
        requires few { slot < MAX_SLOTS }
        requires next { slot ≤ length self.old.joints }
        requires free { joint_at self.old.joints slot ≡ None }
        ensures { self.new.joints ≡ with_item self.old.joints slot joint }
    {
        self.room = None;
        note_ends(&mut self.ends, slot, ends_of(&joint));
        put_item(&mut self.joints, slot as usize, joint);
    }

    /// Empties a slot.
    pub fn clear(&mut self, slot: u32)
        requires { slot < length self.old.joints }
        ensures { self.new.joints ≡ slice_set self.old.joints slot None }
    {
        self.room = None;
        drop_ends(&mut self.ends, slot);
        clear_slot(&mut self.joints, slot as usize);
    }

    /// Gives the joint in a slot, if there is one, this impulse (mass·u/tick).
    #[inline(always)]
    pub fn set_impulse(&mut self, slot: usize, impulse: i64)
        ensures { self.new.joints ≡ impulse_set slot impulse self.old.joints (joint_at self.old.joints slot) }
    {
        if slot < self.joints.len() {
            put_impulse(&mut self.joints[slot], impulse);
        }
    }

    /// The joints of the body in a slot have no impulse any more. Costs by how many there are.
    pub fn idle(&mut self, slot: u32)
        ensures { self.new.joints ≡ idle_joints slot self.old.joints }
    {
        self.room = None;
        idle_own(&mut self.joints, self.ends.members(slot), slot);
    }
}

impl ForbiddenPairs for JointTable {
    ghost pairs = { λ t. forbidden_pairs t.joints };

    /// Whether a joint keeps two bodies from colliding. Costs by the joints of the one that has fewer.
    #[inline(always)]
    fn forbids(&self, a: u32, b: u32) -> bool {
        let ends = self.ends.members(a);
        if ends.is_empty() {
            return false;
        }
        either_keeps_apart(&self.joints, ends, self.ends.members(b), a, b)
    }

    fn taken(&mut self, alloc: Global) -> JointTable {
        mem::replace(self, JointTable::new(alloc))
    }
}
