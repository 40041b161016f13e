//! Contacts by their numbers: what is known of each, and which numbers those of a body have.

ghost use Rattle.std.specs.Prelude.{◌≡◌, ◌≤◌, ◌^◌, ◌↔◌, ◌∷◌, ◌++◌, ℕ, List, Some, length, slice_get};
ghost use Rattle.contacts.specs.Numbered.{AreEndsAt, AreNumbered, contact_at, number_key_at};
ghost use Rattle.contacts.specs.Kept.{numbers_on};
ghost use Rattle.packed_sets.specs.Packs.{list_at};
ghost use Rattle.packed_sets.specs.Once.{AreOnce};

use super::ContactTable;
use crate::ends::Side;
use crate::number_book::NumberedContact;
use contacts_base::ContactKey;

impl ContactTable {
    /// What is known of the numbers: each contact has one. The function does nothing; its contract is the law.
    #[inline(always)]
    pub fn know_numbered(&self)
        ensures numbered { AreNumbered self.now.contacts self.now.numbered }
    {
        let _ = &self.numbers;
    }

    /// What the number of a contact tells of it, if there is a contact with the number.
    #[inline(always)]
    pub fn contact(&self, number: u32) -> Option<NumberedContact>
        ensures { result ≡ contact_at self.now.numbered number }
    {
        self.numbers.contact(number)
    }

    /// The number of the contact with this key, if there is one. It costs by the shorter of two threads: those of the
    /// contacts whose first body is the key's first one, and of those whose second body is its second one.
    pub fn number_of(&self, key: ContactKey) -> Option<u32>
        ensures number { (number : ℕ) → (result ≡ Some number) ↔ (number_key_at self.now.numbered number ≡ Some key) }
    {
        self.numbers.number_of(key)
    }

    /// The number of the first contact of the body in a slot, of those that have it on one side, if there is one.
    #[inline(always)]
    pub fn first_at(&self, side: Side, slot: u32) -> Option<u32>
        ensures first { result ≡ slice_get (list_at (numbers_on side self.now) slot) 0 }
        ensures ends { AreEndsAt side self.now.numbered slot (list_at (numbers_on side self.now) slot) }
        ensures once { AreOnce (list_at (numbers_on side self.now) slot) }
    {
        self.numbers.ends.know_once();
        self.numbers.ends.first_at(side, slot)
    }

    /// The number of the contact that comes behind this one, of those that have the same body on one side, if one does.
    #[inline(always)]
    pub fn behind(&self, side: Side, number: u32) -> Option<u32>
        ensures { (slot : ℕ) (front back : List ℕ) → list_at (numbers_on side self.now) slot ≡ front ++ number ∷ back → result ≡ slice_get back 0 }
    {
        self.numbers.ends.behind(side, number)
    }

    /// Below which number all contacts have theirs once what is pending is carried out.
    pub fn number_bound(&self) -> usize
        ensures bound { result ≡ self.now.bound }
        ensures numbered { length self.now.numbered ≤ result }
        ensures few { result ≤ 2 ^ 32 }
    {
        self.numbers.bound(self.state.pending.made.len())
    }

    /// The numbers of the contacts that the last change made, until the next collide.
    pub fn made(&self) -> &[u32]
        ensures { result.now ≡ self.now.made }
    {
        self.numbers.made.as_slice()
    }

    /// The numbers of the contacts that the last change ended.
    pub fn gone(&self) -> &[u32]
        ensures { result.now ≡ self.now.gone }
    {
        self.numbers.gone()
    }
}
