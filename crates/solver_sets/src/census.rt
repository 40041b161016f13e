//! The census: for each solver set the bodies, joints and contacts that stand in it.

ghost use Rattle.std.specs.Prelude.{◌≡◌, ◌<◌, ◌≤◌, IfOk, OnOk, length};
ghost use Rattle.std.specs.List.{AllWithin};
ghost use Rattle.std.specs.Result.{IsOkUnless};
ghost use Rattle.plain_world.specs.Slots.{AreMatched};
ghost use Rattle.solver_sets.specs.Ties.{slots_of};
ghost use Rattle.solver_sets.specs.Census.{AreNamed, body_standings, census_of, contact_standings, joint_standings};
ghost use Rattle.solver_sets.specs.CensusListing.{alone, empty_census, listed_in, with_all, with_item, with_sleeper};

use crate::standing::{standing_of_contact, standing_of_joint};
use body_handles::{Handle, SlotEntry};
use contacts_base::{ContactEntry, ContactKey};
use fixed_geom::Refusal;
use plain_world::{Body, BodyJoint, SetName};
use std::alloc::Global;
use std::marker::Model;

/// What stands in a solver set.
#[derive(Clone, Copy, Debug, PartialEq, Eq)]
pub enum Item {
    Body(Handle),
    Joint(Handle),
    Contact(ContactKey),
}

/// One sleeping set: the name of its island, and what stands in it.
#[derive(Drop)]
pub struct SleepingSet {
    name: u32,
    items: Vec<Item>,
}

impl Model for SleepingSet {
    ghost use Rattle.solver_sets.specs.Census.{Sleepers};

    ghost Value = { Sleepers };

    ghost view = { λ a. record { name = a.name; items = a.items.items } };
}

impl SleepingSet {
    /// A set with one item.
    fn with(alloc: Global, name: u32, item: Item) -> Result<SleepingSet, Refusal>
        ensures value { IfOk result (λ set. set ≡ alone name item) }
        ensures memory_only { IsOkUnless result Refusal.NoMemory }
    {
        let mut items = Vec::new(alloc);
        items.push(item)?;
        Ok(SleepingSet { name, items })
    }

    /// Lists one more item.
    fn push(&mut self, item: Item) -> Result<(), Refusal>
        ensures listed { OnOk result (self.new ≡ with_item self.old item) }
        ensures memory_only { IsOkUnless result Refusal.NoMemory }
    {
        self.items.push(item)?;
        Ok(())
    }

    /// The name of the island: its lowest slot.
    pub fn name(&self) -> u32
        ensures { result ≡ self.now.name }
    {
        self.name
    }

    /// What stands in the set: bodies by slot, then joints by slot, then contacts by key.
    pub fn items(&self) -> &[Item]
        ensures { result.now ≡ self.now.items }
    {
        self.items.as_slice()
    }
}

/// The place of the first set whose name is at least `name`, or the list's length.
fn place_of(sets: &[SleepingSet], name: u32) -> usize
    requires { AreNamed sets.now }
    ensures within { result ≤ length sets.now }
    ensures before { AllWithin (λ s. s.name < name) sets.now 0 result }
    ensures after { AllWithin (λ s. name ≤ s.name) sets.now result (length sets.now) }
{
    sets.partition_point(|set| set.name < name)
}

/// Lists an item in the sleeping set of a name, which comes where there is none yet. A set is named after its lowest
/// slot, so in the order of the slots a new one comes at the end.
fn list_sleeper(sets: &mut Vec<SleepingSet>, name: u32, item: Item) -> Result<(), Refusal>
    requires { AreNamed sets.old.items }
    ensures listed { OnOk result (sets.new.items ≡ with_sleeper name item sets.old.items) }
    ensures memory_only { IsOkUnless result Refusal.NoMemory }
{
    let place = place_of(sets, name);
    if place < sets.len() && sets[place].name == name {
        return sets[place].push(item);
    }
    let set = SleepingSet::with(*sets.allocator(), name, item)?;
    sets.insert(place, set)?;
    Ok(())
}

/// What stands in each solver set: bodies by slot, then joints by slot, then contacts by key.
#[derive(Drop)]
pub struct Census {
    static_set: Vec<Item>,
    disabled: Vec<Item>,
    awake: Vec<Item>,
    sleeping: Vec<SleepingSet>,
}

impl Model for Census {
    ghost use Rattle.solver_sets.specs.Census.{Census};

    ghost Value = { Census };

    ghost view = { λ a. record { static_set = a.static_set.items; disabled = a.disabled.items; awake = a.awake.items; sleeping = a.sleeping.items } };
}

impl Census {
    fn new(alloc: Global) -> Census
        ensures { result ≡ empty_census }
    {
        Census {
            static_set: Vec::new(alloc),
            disabled: Vec::new(alloc),
            awake: Vec::new(alloc),
            sleeping: Vec::new(alloc),
        }
    }

    /// Lists an item where it stands.
    fn list(&mut self, item: Item, set: SetName) -> Result<(), Refusal>
        requires { AreNamed self.old.sleeping }
        ensures listed { OnOk result (self.new ≡ listed_in self.old item set) }
        ensures memory_only { IsOkUnless result Refusal.NoMemory }
    {
        match set {
            SetName::Static => self.static_set.push(item)?,
            SetName::Disabled => self.disabled.push(item)?,
            SetName::Awake => self.awake.push(item)?,
            SetName::Sleeping(name) => list_sleeper(&mut self.sleeping, name, item)?,
        }
        Ok(())
    }

    /// The enabled static bodies, and the joints between enabled bodies of which none is a mover.
    pub fn static_set(&self) -> &[Item]
        ensures { result.now ≡ self.now.static_set }
    {
        self.static_set.as_slice()
    }

    /// The disabled bodies and their joints, and the contacts that neither touch nor have an awake mover.
    pub fn disabled(&self) -> &[Item]
        ensures { result.now ≡ self.now.disabled }
    {
        self.disabled.as_slice()
    }

    /// The awake movers and the enabled kinematic bodies, with the joints and the contacts of awake movers.
    pub fn awake(&self) -> &[Item]
        ensures { result.now ≡ self.now.awake }
    {
        self.awake.as_slice()
    }

    /// The sleeping sets, ascending by name.
    pub fn sleeping(&self) -> &[SleepingSet]
        ensures { result.now ≡ self.now.sleeping }
    {
        self.sleeping.as_slice()
    }
}

/// Lists the bodies, by slot.
fn list_bodies(
    census: &mut Census,
    slot_entries: &[SlotEntry],
    bodies: &[Option<Body>],
) -> Result<(), Refusal>
    requires matched { AreMatched slot_entries.now bodies.now }
    requires named { AreNamed census.old.sleeping }
    ensures listed { OnOk result (census.new ≡ with_all census.old (body_standings slot_entries.now bodies.now)) }
    ensures named { OnOk result (AreNamed census.new.sleeping) }
    ensures memory_only { IsOkUnless result Refusal.NoMemory }
{
    for (slot, entry) in bodies.iter().enumerate() {
        if let Some(body) = entry {
            let handle = Handle {
                slot: slot as u32,
                generation: slot_entries[slot].generation,
            };
            census.list(Item::Body(handle), body.standing())?;
        }
    }
    Ok(())
}

/// Lists the joints, by slot.
fn list_joints(
    census: &mut Census,
    bodies: &[Option<Body>],
    slot_entries: &[SlotEntry],
    joints: &[Option<BodyJoint>],
) -> Result<(), Refusal>
    requires matched { AreMatched slot_entries.now joints.now }
    requires named { AreNamed census.old.sleeping }
    ensures listed { OnOk result (census.new ≡ with_all census.old (joint_standings bodies.now (slots_of slot_entries.now joints.now))) }
    ensures named { OnOk result (AreNamed census.new.sleeping) }
    ensures memory_only { IsOkUnless result Refusal.NoMemory }
{
    for (slot, entry) in joints.iter().enumerate() {
        if let Some(joint) = entry {
            let handle = Handle {
                slot: slot as u32,
                generation: slot_entries[slot].generation,
            };
            census.list(Item::Joint(handle), standing_of_joint(bodies, joint))?;
        }
    }
    Ok(())
}

/// Lists the contacts, by key.
fn list_contacts(
    census: &mut Census,
    bodies: &[Option<Body>],
    contacts: &[ContactEntry],
) -> Result<(), Refusal>
    requires named { AreNamed census.old.sleeping }
    ensures listed { OnOk result (census.new ≡ with_all census.old (contact_standings bodies.now contacts.now)) }
    ensures memory_only { IsOkUnless result Refusal.NoMemory }
{
    for entry in contacts {
        census.list(Item::Contact(entry.key), standing_of_contact(bodies, entry))?;
    }
    Ok(())
}

/// Lists each body, each joint and each contact once, in the set in which it stands.
#[tactic(auto, unfolding(crate::specs::Census::census_of))]
pub fn take_census(
    alloc: Global,
    slot_entries: &[SlotEntry],
    bodies: &[Option<Body>],
    joint_entries: &[SlotEntry],
    joints: &[Option<BodyJoint>],
    contacts: &[ContactEntry],
) -> Result<Census, Refusal>
    requires bodies { AreMatched slot_entries.now bodies.now }
    requires joints { AreMatched joint_entries.now joints.now }
    ensures value { IfOk result (λ census. census ≡ census_of slot_entries.now bodies.now (slots_of joint_entries.now joints.now) contacts.now) }
    ensures memory_only { IsOkUnless result Refusal.NoMemory }
{
    let mut census = Census::new(alloc);
    list_bodies(&mut census, slot_entries, bodies)?;
    list_joints(&mut census, bodies, joint_entries, joints)?;
    list_contacts(&mut census, bodies, contacts)?;
    Ok(census)
}
