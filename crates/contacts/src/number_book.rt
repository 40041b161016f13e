//! The numbers of contacts: a contact keeps its number for as long as it is there, wherever it stands in the lists of
//! contacts.
//!
//! By a number the key of its contact is known, and whether it touches. The number isn't part of the contact, which is
//! compared, saved and digested. The number that was let go last is the first to be given again.

mod changing;

ghost use Rattle.std.specs.Prelude.{◌≡◌, ◌↔◌, ◌≤◌, ◌+◌, ℕ, true, [], OnOk, Some, length, vec_capacity};
ghost use Rattle.std.specs.Result.{IsOkUnless};
ghost use Rattle.contacts.specs.Numbered.{contact_at, number_key_at};
ghost use Rattle.contacts.specs.NumberBooks.{AreSlotsBelow, HasRoom, HasRoomFor, IsBook, KeepBook, bound_of, gone_of};
ghost use Rattle.contacts.specs.declared.number_book.TheConstants.{MAX_CONTACTS};

use crate::ends::{ContactEnds, Side};
use contacts_base::ContactKey;
use fixed_geom::Refusal;
use packed_sets::MAX_ITEMS;
use std::alloc::Global;

/// How many contacts there can be: as many as there are ids in their bodies' threads.
pub(crate) const MAX_CONTACTS: usize = MAX_ITEMS;

/// What the number of a contact tells of it.
#[derive(Clone, Copy, Debug, PartialEq, Eq)]
pub struct NumberedContact {
    /// The shapes of the contact.
    pub key: ContactKey,
    /// Whether they touch.
    pub touching: bool,
}

/// Which numbers are given, to which contacts of which bodies.
#[derive(Drop)]
pub(crate) struct NumberBook {
    // By number the contact that has it.
    pub contacts: Vec<Option<NumberedContact>>,
    // The numbers below the length of `contacts` that no contact has, the last one let go at the end. There is room for
    // as many as there are numbers.
    pub free: Vec<u32>,
    pub ends: ContactEnds,
    // The numbers of the contacts that the last change made. It makes all before it ends some.
    pub made: Vec<u32>,
    // How many numbers were free before it ended contacts: those behind them are theirs.
    pub ended: usize,
}

/// Empties a list, and makes room in it for so many items.
fn make_room(list: &mut Vec<u32>, count: usize) -> Result<(), Refusal>
    ensures empty { list.new.items ≡ [] }
    ensures room { OnOk result (count ≤ vec_capacity list.new) }
    ensures memory_only { IsOkUnless result Refusal.NoMemory }
{
    list.clear();
    list.reserve(count)?;
    Ok(())
}

/// One more than the highest slot of a body of one of the contacts, and 0 where there are none.
fn count_slots(contacts: &[NumberedContact]) -> usize
    ensures { AreSlotsBelow result contacts.now }
{
    let mut count = 0;
    for place in 0..contacts.len() {
        let key = contacts[place].key;
        let slot = key.first.slot.max(key.second.slot);
        count = count.max((slot as usize).saturating_add(1));
    }
    count
}

impl NumberBook {
    /// No numbers.
    pub fn new(alloc: Global) -> NumberBook
        ensures book { IsBook result }
        ensures contacts { result.contacts.items ≡ [] }
    {
        NumberBook {
            contacts: Vec::new(alloc),
            free: Vec::new(alloc),
            ends: ContactEnds::new(alloc),
            made: Vec::new(alloc),
            ended: 0,
        }
    }

    /// Makes room for a change that makes so many contacts at most, of bodies in slots below `bodies`. Refused 1 where
    /// memory is wanting, or there would be more than [`MAX_CONTACTS`]. No number changes; which contacts the last
    /// change made isn't known any more.
    fn reserve(&mut self, made: usize, bodies: usize) -> Result<(), Refusal>
        requires { IsBook self.old }
        ensures room { OnOk result (HasRoom made bodies self.new) }
        ensures same { KeepBook self.old self.new }
        ensures book { IsBook self.new }
        ensures memory_only { IsOkUnless result Refusal.NoMemory }
    {
        let new = made.saturating_sub(self.free.len());
        let count = self.contacts.len().saturating_add(new);
        if count > MAX_CONTACTS {
            return Err(Refusal::NoMemory);
        }
        self.contacts.reserve(new)?;
        self.free.reserve(count - self.free.len())?;
        self.ends.reserve(count, bodies)?;
        make_room(&mut self.made, made)
    }

    /// Makes room for a change that makes these contacts. Refused 1 where memory is wanting, or there would be more
    /// than [`MAX_CONTACTS`]. No number changes; which contacts the last change made isn't known any more.
    pub fn reserve_for(&mut self, contacts: &[NumberedContact]) -> Result<(), Refusal>
        requires { IsBook self.old }
        ensures room { OnOk result (HasRoomFor contacts.now self.new) }
        ensures same { KeepBook self.old self.new }
        ensures book { IsBook self.new }
        ensures memory_only { IsOkUnless result Refusal.NoMemory }
    {
        self.reserve(contacts.len(), count_slots(contacts))
    }

    /// Below which number all contacts have theirs once so many more are made.
    pub fn bound(&self, made: usize) -> usize
        ensures { length self.now.contacts.items + made ≤ MAX_CONTACTS + length self.now.free.items → length self.now.contacts.items ≤ MAX_CONTACTS → result ≡ bound_of self.now made }
    {
        self.contacts
            .len()
            .saturating_add(made.saturating_sub(self.free.len()))
    }

    /// The contact with a number, if there is one.
    #[inline(always)]
    pub fn contact(&self, number: u32) -> Option<NumberedContact>
        ensures { result ≡ contact_at self.now.contacts.items number }
    {
        match self.contacts.get(number as usize) {
            None => None,
            Some(contact) => *contact,
        }
    }

    /// Whether the contact with a number has the key.
    #[inline(always)]
    fn has_key(&self, number: u32, key: ContactKey) -> bool
        ensures { (result ≡ true) ↔ (number_key_at self.now.contacts.items number ≡ Some key) }
    {
        match self.contact(number) {
            None => false,
            Some(contact) => contact.key == key,
        }
    }

    /// The number of the contact with a key, if there is one. It is looked for in the threads of both of its bodies at
    /// once, the newest first, so that it costs by the shorter of the two.
    pub fn number_of(&self, key: ContactKey) -> Option<u32>
        requires { IsBook self.now }
        ensures { (number : ℕ) → (result ≡ Some number) ↔ (number_key_at self.now.contacts.items number ≡ Some key) }
    {
        self.ends.know_once();
        let mut first = self.ends.first_at(Side::First, key.first.slot);
        let mut second = self.ends.first_at(Side::Second, key.second.slot);
        while let (Some(one), Some(other)) = (first, second) {
            if self.has_key(one, key) {
                return Some(one);
            }
            if self.has_key(other, key) {
                return Some(other);
            }
            first = self.ends.behind(Side::First, one);
            second = self.ends.behind(Side::Second, other);
        }
        None
    }

    /// The same, where a guess at the number is tried before it is looked for.
    fn number_by_guess(&self, guess: Option<u32>, key: ContactKey) -> Option<u32>
        requires { IsBook self.now }
        ensures { (number : ℕ) → (result ≡ Some number) ↔ (number_key_at self.now.contacts.items number ≡ Some key) }
    {
        match guess {
            None => self.number_of(key),
            Some(number) => {
                if self.has_key(number, key) {
                    guess
                } else {
                    self.number_of(key)
                }
            }
        }
    }

    /// The numbers of the contacts that the last change ended.
    pub fn gone(&self) -> &[u32]
        requires { IsBook self.now }
        ensures { result.now ≡ gone_of self.now }
    {
        &self.free[self.ended..]
    }
}
