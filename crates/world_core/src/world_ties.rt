//! The constraints of a world as its islands ask for them: a sleeping island's from its sets, and a mover's from the
//! ends and the contacts at it.

ghost use Rattle.std.specs.Prelude.{◌≡◌, ◌+◌, ◌++◌, ◌≤◌, length, slice_get, vec_capacity};
ghost use Rattle.std.specs.List.{filter_map};
ghost use Rattle.std.specs.List.Sorted.{IsPermutation};
ghost use Rattle.contacts.specs.Kept.{numbers_on};
ghost use Rattle.contacts_base.specs.Contacts.{AreKeysRising};
ghost use Rattle.packed_sets.specs.Packs.{list_at};
ghost use Rattle.packed_sets.specs.Once.{AreOnce};
ghost use Rattle.sleep_wake.specs.Sources.{asleep_ties, first_ties};
ghost use Rattle.solver_sets.specs.Alike.{AreJointSlots};
ghost use Rattle.solver_sets.specs.Ties.{slots_of, ties_of};
ghost use Rattle.world_core.specs.WorldTies.{AreOfTwo, JoinTwo, all_contact_ties, all_joint_ties, contact_tie_in, if_first, joint_tie_in};
ghost use Rattle.world_core_base.specs.Asleep.{AreContactSets, AreJointSets, asleep_under};

use crate::own_contacts::contact_tie;
use body_handles::{Handle, SlotEntry};
use contacts::{ContactTable, Side};
use graph_colours::Member;
use plain_world::{Body, BodyJoint, Constraint, item_at};
use sleep_wake::{TieSource, put_some};
use solver_sets::joint_tie;
use std::marker::Model;
use world_core_base::{JointTable, SleepingSets};

/// The joints and the contacts, and the sets of those that sleep.
#[derive(Drop)]
pub(crate) struct WorldTies<'a> {
    pub bodies: &'a [Option<Body>],
    pub joint_entries: &'a [SlotEntry],
    pub joints: &'a JointTable,
    pub joint_sets: &'a SleepingSets,
    pub contacts: &'a ContactTable,
    pub contact_sets: &'a SleepingSets,
}

impl<'a> Model for WorldTies<'a> {
    ghost use Rattle.solver_sets.specs.Ties.{slots_of};
    ghost use Rattle.world_core.specs.WorldTies.{IsTelling, Told};

    ghost Value = { Told };

    ghost view = { λ a. record { bodies = a.bodies.now; slots = slots_of a.joint_entries.now a.joints.now.joints; contacts = a.contacts.now.contacts } };

    ghost invariant = { λ a. IsTelling a.bodies.now (slots_of a.joint_entries.now a.joints.now.joints) a.joint_sets.now a.contacts.now.contacts a.contacts.now.numbered a.contact_sets.now };
}

// ---- one constraint

/// The tie of the joint in a slot, if there is one.
fn joint_tie_in(
    bodies: &[Option<Body>],
    joint_entries: &[SlotEntry],
    joints: &[Option<BodyJoint>],
    slot: u32,
) -> Option<Member<Constraint>>
    ensures { result ≡ joint_tie_in bodies.now (slots_of joint_entries.now joints.now) slot }
{
    match (
        joint_entries.get(slot as usize),
        item_at(joints, slot as usize),
    ) {
        (Some(entry), Some(joint)) => joint_tie(
            bodies,
            Handle {
                slot,
                generation: entry.generation,
            },
            joint,
        ),
        _ => None,
    }
}

/// A tie, if the mover in the slot is its first.
fn if_first(tie: Option<Member<Constraint>>, slot: u32) -> Option<Member<Constraint>>
    ensures { result ≡ if_first slot tie }
{
    match tie {
        None => None,
        Some(tie) => {
            if tie.movers.first == slot {
                Some(tie)
            } else {
                None
            }
        }
    }
}

// ---- by sleeping set

/// Adds the ties of the joints that sleep under a name.
fn push_joints_asleep(
    list: &mut Vec<Member<Constraint>>,
    bodies: &[Option<Body>],
    joint_entries: &[SlotEntry],
    joints: &[Option<BodyJoint>],
    sets: &SleepingSets,
    name: u32,
)
    requires slots { AreJointSlots (slots_of joint_entries.now joints.now) }
    requires standing { AreJointSets bodies.now joints.now sets.now }
    requires room { length list.old.items + length (asleep_ties (asleep_under bodies.now) name (all_joint_ties bodies.now (slots_of joint_entries.now joints.now))) ≤ vec_capacity list.old }
    ensures pushed { IsPermutation (list.old.items ++ asleep_ties (asleep_under bodies.now) name (all_joint_ties bodies.now (slots_of joint_entries.now joints.now))) list.new.items }
    ensures capacity { vec_capacity list.old ≤ vec_capacity list.new }
{
    sets.know_sets();
    let mut next = sets.first(name);
    while let Some(slot) = next {
        put_some(list, joint_tie_in(bodies, joint_entries, joints, slot));
        next = sets.behind(slot);
    }
}

/// Adds the ties of the contacts that sleep under a name.
fn push_contacts_asleep(
    list: &mut Vec<Member<Constraint>>,
    bodies: &[Option<Body>],
    contacts: &ContactTable,
    sets: &SleepingSets,
    name: u32,
)
    requires rising { AreKeysRising contacts.now.contacts }
    requires standing { AreContactSets bodies.now contacts.now.numbered sets.now }
    requires room { length list.old.items + length (asleep_ties (asleep_under bodies.now) name (all_contact_ties bodies.now contacts.now.contacts)) ≤ vec_capacity list.old }
    ensures pushed { IsPermutation (list.old.items ++ asleep_ties (asleep_under bodies.now) name (all_contact_ties bodies.now contacts.now.contacts)) list.new.items }
    ensures capacity { vec_capacity list.old ≤ vec_capacity list.new }
{
    contacts.know_numbered();
    sets.know_sets();
    let mut next = sets.first(name);
    while let Some(number) = next {
        put_some(list, contact_tie(bodies, contacts.contact(number)));
        next = sets.behind(number);
    }
}

// ---- by mover

/// Adds the ties of the joints of which the mover in a slot is the first.
fn push_first_joints(
    list: &mut Vec<Member<Constraint>>,
    bodies: &[Option<Body>],
    joint_entries: &[SlotEntry],
    joints: &JointTable,
    slot: u32,
)
    requires slots { AreJointSlots (slots_of joint_entries.now joints.now.joints) }
    requires joined { JoinTwo joints.now.joints }
    requires room { length list.old.items + length (first_ties slot (all_joint_ties bodies.now (slots_of joint_entries.now joints.now.joints))) ≤ vec_capacity list.old }
    ensures pushed { IsPermutation (list.old.items ++ first_ties slot (all_joint_ties bodies.now (slots_of joint_entries.now joints.now.joints))) list.new.items }
    ensures capacity { vec_capacity list.old ≤ vec_capacity list.new }
{
    let ends = joints.ends(slot);
    for place in 0..ends.len() {
        put_some(
            list,
            if_first(
                joint_tie_in(bodies, joint_entries, joints.joints(), ends[place] / 2),
                slot,
            ),
        );
    }
}

/// Adds the ties of the contacts that have the body in a slot on one side, from the first of them on, and of which it
/// is the first mover.
fn push_firsts_from(
    list: &mut Vec<Member<Constraint>>,
    bodies: &[Option<Body>],
    contacts: &ContactTable,
    side: Side,
    slot: u32,
    first: Option<u32>,
)
    requires first { first ≡ slice_get (list_at (numbers_on side contacts.now) slot) 0 }
    requires once { AreOnce (list_at (numbers_on side contacts.now) slot) }
    requires room { length list.old.items + length (filter_map (λ number. if_first slot (contact_tie_in bodies.now contacts.now.numbered number)) (list_at (numbers_on side contacts.now) slot)) ≤ vec_capacity list.old }
    ensures items { list.new.items ≡ list.old.items ++ filter_map (λ number. if_first slot (contact_tie_in bodies.now contacts.now.numbered number)) (list_at (numbers_on side contacts.now) slot) }
    ensures capacity { vec_capacity list.old ≤ vec_capacity list.new }
{
    let mut next = first;
    while let Some(number) = next {
        put_some(
            list,
            if_first(contact_tie(bodies, contacts.contact(number)), slot),
        );
        next = contacts.behind(side, number);
    }
}

/// Adds the ties of the contacts of which the mover in a slot is the first.
fn push_first_contacts(
    list: &mut Vec<Member<Constraint>>,
    bodies: &[Option<Body>],
    contacts: &ContactTable,
    slot: u32,
)
    requires rising { AreKeysRising contacts.now.contacts }
    requires two { AreOfTwo contacts.now.contacts }
    requires room { length list.old.items + length (first_ties slot (all_contact_ties bodies.now contacts.now.contacts)) ≤ vec_capacity list.old }
    ensures pushed { IsPermutation (list.old.items ++ first_ties slot (all_contact_ties bodies.now contacts.now.contacts)) list.new.items }
    ensures capacity { vec_capacity list.old ≤ vec_capacity list.new }
{
    contacts.know_numbered();
    let first = contacts.first_at(Side::First, slot);
    let second = contacts.first_at(Side::Second, slot);
    push_firsts_from(list, bodies, contacts, Side::First, slot, first);
    push_firsts_from(list, bodies, contacts, Side::Second, slot, second);
}

impl TieSource<Constraint> for WorldTies<'_> {
    ghost ties = { λ t. ties_of t.bodies t.slots t.contacts };

    ghost names = { λ t. asleep_under t.bodies };

    fn push_asleep(&self, name: u32, list: &mut Vec<Member<Constraint>>) {
        push_joints_asleep(
            list,
            self.bodies,
            self.joint_entries,
            self.joints.joints(),
            self.joint_sets,
            name,
        );
        push_contacts_asleep(list, self.bodies, self.contacts, self.contact_sets, name);
    }

    fn push_firsts(&self, slot: u32, list: &mut Vec<Member<Constraint>>) {
        push_first_joints(list, self.bodies, self.joint_entries, self.joints, slot);
        push_first_contacts(list, self.bodies, self.contacts, slot);
    }
}
