//! Which contacts are a body's: by body the numbers of the contacts whose first body it is, and of those whose second
//! one it is.
//!
//! As with Box2D's contact edges, a contact is in a thread of its first body and in one of its second, and is
//! put into them and taken out in constant time. Room for a contact is room in both, whatever its bodies are.

ghost use Rattle.std.specs.Prelude.{◌≡◌, ◌<◌, ◌≤◌, ◌∷◌, ◌++◌, ℕ, [], List, Contains, OnErr, OnOk, length, slice_get};
ghost use Rattle.std.specs.Result.{IsOkUnless};
ghost use Rattle.contacts.specs.Ends.{IsOnce, KeepEnds, ends_on};
ghost use Rattle.packed_sets.specs.Packs.{IsAbsent, IsPut, IsTaken, list_at};
ghost use Rattle.packed_sets.specs.Once.{AreOnce};

use contacts_base::ContactKey;
use fixed_geom::Refusal;
use packed_sets::LinkedSets;
use std::alloc::Global;

/// Which of the two bodies of a contact.
#[derive(Clone, Copy, Debug, PartialEq, Eq)]
pub enum Side {
    First,
    Second,
}

/// By body the numbers of its contacts. In what order isn't promised.
#[derive(Drop)]
pub(crate) struct ContactEnds {
    // Of those whose first body it is.
    pub firsts: LinkedSets,
    // Of those whose second body it is.
    pub seconds: LinkedSets,
}

impl ContactEnds {
    /// No contacts, and room for none.
    pub fn new(alloc: Global) -> ContactEnds
        ensures firsts { result.firsts.sets ≡ [] }
        ensures seconds { result.seconds.sets ≡ [] }
    {
        ContactEnds {
            firsts: LinkedSets::new(alloc),
            seconds: LinkedSets::new(alloc),
        }
    }

    /// Makes room for contacts whose numbers are below `contacts`, of bodies in slots below `bodies`. Refused 1 where
    /// memory is wanting, or there would be more than `MAX_ITEMS` contacts. Changes no thread.
    pub fn reserve(&mut self, contacts: usize, bodies: usize) -> Result<(), Refusal>
        ensures firsts { OnOk result (bodies ≤ length self.new.firsts.sets) }
        ensures seconds { OnOk result (bodies ≤ length self.new.seconds.sets) }
        ensures firsts_noted { OnOk result (contacts ≤ self.new.firsts.ids) }
        ensures seconds_noted { OnOk result (contacts ≤ self.new.seconds.ids) }
        ensures same { KeepEnds self.old self.new }
        ensures memory_only { IsOkUnless result Refusal.NoMemory }
    {
        self.firsts.reserve(bodies, contacts)?;
        self.seconds.reserve(bodies, contacts)
    }

    /// What is known of the threads: in those of one side no number is twice, and each is below a number. The function
    /// does nothing; its contract is the law.
    #[inline(always)]
    pub fn know_once(&self)
        ensures firsts { IsOnce self.now.firsts }
        ensures seconds { IsOnce self.now.seconds }
    {
        self.firsts.know_once();
        self.seconds.know_once();
    }

    /// Below which slot all bodies with contacts are.
    pub fn bodies(&self) -> usize
        ensures firsts { length self.now.firsts.sets ≤ result }
        ensures seconds { length self.now.seconds.sets ≤ result }
    {
        self.firsts.len().max(self.seconds.len())
    }

    /// The number of the first contact of the body in a slot, of those that have it on one side.
    #[inline(always)]
    pub fn first_at(&self, side: Side, slot: u32) -> Option<u32>
        ensures { result ≡ slice_get (list_at (ends_on side self.now).sets slot) 0 }
    {
        match side {
            Side::First => self.firsts.first(slot),
            Side::Second => self.seconds.first(slot),
        }
    }

    /// The number of the contact that comes behind this one, of those that have the same body on one side.
    #[inline(always)]
    pub fn behind(&self, side: Side, number: u32) -> Option<u32>
        ensures { (slot : ℕ) (front back : List ℕ) → list_at (ends_on side self.now).sets slot ≡ front ++ number ∷ back → result ≡ slice_get back 0 }
    {
        match side {
            Side::First => self.firsts.behind(number),
            Side::Second => self.seconds.behind(number),
        }
    }

    /// A contact is made, with a number that no contact has.
    pub fn put(&mut self, key: ContactKey, number: u32)
        requires first { key.first.slot < length self.old.firsts.sets }
        requires second { key.second.slot < length self.old.seconds.sets }
        requires first_noted { number < self.old.firsts.ids }
        requires second_noted { number < self.old.seconds.ids }
        requires first_absent { IsAbsent self.old.firsts.sets number }
        requires second_absent { IsAbsent self.old.seconds.sets number }
        ensures firsts { IsPut self.old.firsts.sets self.new.firsts.sets key.first.slot number }
        ensures seconds { IsPut self.old.seconds.sets self.new.seconds.sets key.second.slot number }
        ensures first_sets { length self.new.firsts.sets ≡ length self.old.firsts.sets }
        ensures second_sets { length self.new.seconds.sets ≡ length self.old.seconds.sets }
        ensures first_ids { self.new.firsts.ids ≡ self.old.firsts.ids }
        ensures second_ids { self.new.seconds.ids ≡ self.old.seconds.ids }
    {
        self.firsts.insert(key.first.slot, number);
        self.seconds.insert(key.second.slot, number);
    }

    /// A contact goes.
    pub fn take_out(&mut self, key: ContactKey, number: u32)
        requires first { Contains (list_at self.old.firsts.sets key.first.slot) number }
        requires second { Contains (list_at self.old.seconds.sets key.second.slot) number }
        ensures firsts { IsTaken self.old.firsts.sets self.new.firsts.sets key.first.slot number }
        ensures seconds { IsTaken self.old.seconds.sets self.new.seconds.sets key.second.slot number }
        ensures first_gone { IsAbsent self.new.firsts.sets number }
        ensures second_gone { IsAbsent self.new.seconds.sets number }
        ensures first_sets { length self.new.firsts.sets ≡ length self.old.firsts.sets }
        ensures second_sets { length self.new.seconds.sets ≡ length self.old.seconds.sets }
        ensures first_ids { self.new.firsts.ids ≡ self.old.firsts.ids }
        ensures second_ids { self.new.seconds.ids ≡ self.old.seconds.ids }
    {
        self.firsts.remove(key.first.slot, number);
        self.seconds.remove(key.second.slot, number);
    }
}
