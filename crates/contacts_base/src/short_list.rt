//! The short list of contacts: those that have come since the long one was made.

ghost use Rattle.std.specs.Prelude.{◌≡◌, ◌≤◌, ◌++◌, [], IfOk, IsTrue, OnOk, Option, drop, length, option_copied};
ghost use Rattle.std.specs.Result.{IsOkUnless};
ghost use Rattle.contacts_base.specs.Contacts.{contacts_but, lookup, number_of};
ghost use Rattle.contacts_base.specs.ContactLists.{AreContacts, impulses_given};
ghost use Rattle.contacts_base.specs.Merge.{below_of, beyond_of};
ghost use Rattle.contacts_base.specs.ShortLists.{counted_from, counted_in};
ghost use Rattle.contacts_base.specs.Split.{is_over};

use crate::counted::{end_by_key, find_counting, give_by_key, push_counting, push_counting_below};
use crate::flags::CountedFlags;
use crate::{ContactEntry, ContactKey, Impulses};
use fixed_geom::Refusal;
use std::alloc::Global;
use std::marker::Model;

/// Contacts ascending by key. One that is over stands in its place until the list is made anew, so that it costs by a
/// search to end it. Contracts see the contacts, and by place which of them are over; those that aren't are
/// `counted_in` it.
#[derive(Drop)]
pub struct ShortList {
    entries: Vec<ContactEntry>,
    // By place whether the contact there is over.
    over: CountedFlags,
}

impl Model for ShortList {
    ghost use Rattle.contacts_base.specs.ShortLists.{IsShort, Short};

    ghost Value = { Short };

    ghost view = { λ a. record { entries = a.entries.items; over = a.over } };

    ghost invariant = { λ a. IsShort (record { entries = a.entries.items; over = a.over }) };
}

impl ShortList {
    /// No contacts.
    pub fn new(alloc: Global) -> ShortList
        ensures { counted_in result ≡ [] }
    {
        ShortList {
            entries: Vec::new(alloc),
            over: CountedFlags::new(alloc),
        }
    }

    /// These contacts, of which none is over.
    pub fn from_entries(alloc: Global, entries: Vec<ContactEntry>) -> Result<ShortList, Refusal>
        requires { AreContacts entries.items }
        ensures value { IfOk result (λ list. counted_in list ≡ entries.items) }
        ensures memory_only { IsOkUnless result Refusal.NoMemory }
    {
        let over = CountedFlags::none_set(alloc, entries.len())?;
        Ok(ShortList { entries, over })
    }

    /// The contacts, those that are over too.
    pub fn entries(&self) -> &[ContactEntry]
        ensures value { result.now ≡ self.now.entries }
        ensures contacts { AreContacts result.now }
        ensures flags { length self.now.over ≡ length result.now }
    {
        self.entries.as_slice()
    }

    /// Whether the contact at a place is over.
    #[inline(always)]
    pub fn is_over(&self, place: usize) -> bool
        ensures { result ≡ is_over self.now.over place }
    {
        self.over.is_set(place)
    }

    /// Whether there is none, not even one that is over.
    pub(crate) fn is_empty(&self) -> bool
        ensures { IsTrue result → counted_in self.now ≡ [] }
    {
        self.entries.is_empty()
    }

    /// How many there are, with those that are over.
    pub(crate) fn len(&self) -> usize
        ensures { length self.now.over ≡ length self.now.entries }
    {
        self.entries.len()
    }

    /// The contact with this key, unless it is over. The search begins at the hint, which becomes where it ended.
    #[inline(never)]
    pub(crate) fn find(&self, hint: &mut usize, key: ContactKey) -> Option<&ContactEntry>
        ensures { option_copied result ≡ lookup (counted_in self.now) key }
    {
        find_counting(&self.entries, &self.over, hint, key)
    }

    /// Gives the points of the contact with this key these impulses, if there is one.
    pub(crate) fn give(&mut self, key: ContactKey, first: Impulses, second: Option<Impulses>)
        ensures { counted_in self.new ≡ impulses_given key first second (counted_in self.old) }
    {
        give_by_key(&mut self.entries, key, first, second);
    }

    /// The contact with this key is over, if there is one. Takes no memory.
    pub(crate) fn end(&mut self, key: ContactKey)
        ensures { counted_in self.new ≡ contacts_but key (counted_in self.old) }
    {
        end_by_key(&self.entries, &mut self.over, key);
    }

    /// Adds the contacts from a place on that aren't over and come before `entry`. Answers the place of the first that
    /// doesn't.
    pub(crate) fn push_below(
        &self,
        all: &mut Vec<ContactEntry>,
        place: usize,
        entry: &ContactEntry,
    ) -> Result<usize, Refusal>
        requires { place ≤ length self.now.entries }
        ensures within { IfOk result (λ next. next ≤ length self.now.entries) }
        ensures pushed { OnOk result (all.new.items ≡ all.old.items ++ below_of number_of entry.now (counted_from place self.now)) }
        ensures left { IfOk result (λ next. counted_from next self.now ≡ beyond_of number_of entry.now (counted_from place self.now)) }
        ensures memory_only { IsOkUnless result Refusal.NoMemory }
    {
        push_counting_below(all, &self.entries, &self.over, place, entry)
    }

    /// Adds the contacts from a place on that aren't over.
    pub(crate) fn push_from(&self, all: &mut Vec<ContactEntry>, place: usize) -> Result<(), Refusal>
        requires { place ≤ length self.now.entries }
        ensures pushed { OnOk result (all.new.items ≡ all.old.items ++ counted_from place self.now) }
        ensures memory_only { IsOkUnless result Refusal.NoMemory }
    {
        push_counting(all, &self.entries, &self.over, place)
    }
}
