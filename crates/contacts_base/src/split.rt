//! The contacts as a long list, which stands while contacts come and go, and a short one of those that have come since
//! it was made.

mod changing;

ghost use Rattle.std.specs.Prelude.{◌≡◌, [], IfOk, IsTrue, OnErr, OnOk, length, option_copied};
ghost use Rattle.std.specs.Result.{IsOkUnless};
ghost use Rattle.contacts_base.specs.Contacts.{AreKeysRising, lookup, number_of};
ghost use Rattle.contacts_base.specs.ContactLists.{AreContacts};
ghost use Rattle.contacts_base.specs.Merge.{merged};
ghost use Rattle.contacts_base.specs.ShortLists.{counted_in};
ghost use Rattle.contacts_base.specs.Split.{contacts_in, counting, counting_at};

use crate::begins::Begins;
use crate::counted::find_counting;
use crate::flags::CountedFlags;
use crate::short_list::ShortList;
use crate::{ContactEntry, ContactKey, PackedContact};
use fixed_geom::Refusal;
use std::alloc::Global;
use std::marker::Model;
use std::mem;

/// What the contact at a place of a list becomes.
#[derive(Clone, Copy, Debug, PartialEq, Eq)]
pub struct Renewal {
    pub place: usize,
    pub contact: PackedContact,
}

/// Where a search begins in either list.
#[derive(Clone, Copy, Debug, PartialEq, Eq)]
pub struct Hint {
    pub long: usize,
    pub short: usize,
}

/// A contact for each pair of near shapes. Contracts see a long list of them, by place in it which are over, and of a
/// short list those that aren't. The contacts (`contacts_in`) are those of both lists that aren't over, ascending by
/// key.
#[derive(Drop)]
pub struct SplitContacts {
    // Ascending by key.
    long: Vec<ContactEntry>,
    // By place in the long list whether the contact there is over.
    over: CountedFlags,
    // None of those that count is one of the long list that counts.
    short: ShortList,
    // Memory for the next long list: what an earlier one was, whatever is in it.
    spare: Vec<ContactEntry>,
    // Where a search in the long list may begin.
    begins: Begins,
}

impl Model for SplitContacts {
    ghost use Rattle.contacts_base.specs.Split.{Split};
    ghost use Rattle.contacts_base.specs.ShortLists.{counted_in};
    ghost use Rattle.contacts_base.specs.IsSplit.{IsSplit};

    ghost Value = { Split };

    ghost view = { λ a. record { long = a.long.items; over = a.over; short = counted_in a.short } };

    ghost invariant = { λ a. IsSplit (record { long = a.long.items; over = a.over; short = counted_in a.short }) };
}

/// Lists the contacts of a long list and those of a short one that aren't over, in the place of what the list has.
fn join(
    all: &mut Vec<ContactEntry>,
    long: &[ContactEntry],
    over: &CountedFlags,
    short: &ShortList,
) -> Result<(), Refusal>
    requires long { AreKeysRising long.now }
    requires short { AreKeysRising (counted_in short.now) }
    requires flags { length over.now ≡ length long.now }
    ensures value { OnOk result (all.new.items ≡ merged number_of (counting over.now long.now) (counted_in short.now)) }
    ensures memory_only { IsOkUnless result Refusal.NoMemory }
{
    all.clear();
    all.reserve(long.len().saturating_add(short.len()))?;
    let mut next = 0;
    for place in 0..long.len() {
        if over.is_set(place) {
            continue;
        }
        let entry = &long[place];
        next = short.push_below(all, next, entry)?;
        all.push(*entry)?;
    }
    short.push_from(all, next)
}

impl SplitContacts {
    /// No contacts.
    pub fn new(alloc: Global) -> SplitContacts
        ensures contacts { contacts_in result ≡ [] }
        ensures long { result.long ≡ [] }
    {
        SplitContacts {
            long: Vec::new(alloc),
            over: CountedFlags::new(alloc),
            short: ShortList::new(alloc),
            spare: Vec::new(alloc),
            begins: Begins::new(alloc),
        }
    }

    /// The contacts of a list, all in the long one.
    pub fn from_entries(alloc: Global, entries: Vec<ContactEntry>) -> Result<SplitContacts, Refusal>
        requires { AreContacts entries.items }
        ensures contacts { IfOk result (λ split. contacts_in split ≡ entries.items) }
        ensures long { IfOk result (λ split. split.long ≡ entries.items) }
        ensures memory_only { IsOkUnless result Refusal.NoMemory }
    {
        let over = CountedFlags::none_set(alloc, entries.len())?;
        let begins = Begins::of(alloc, &entries)?;
        Ok(SplitContacts {
            long: entries,
            over,
            short: ShortList::new(alloc),
            spare: Vec::new(alloc),
            begins,
        })
    }

    /// What is known of both lists and of the contacts. The function does nothing; its contract is the law.
    #[inline(always)]
    pub fn know_ascending(&self)
        ensures long { AreContacts self.now.long }
        ensures short { AreContacts self.now.short }
        ensures contacts { AreContacts (contacts_in self.now) }
        ensures flags { length self.now.over ≡ length self.now.long }
    {
        let _ = &self.long;
    }

    /// Whether all contacts stand in the long list, and all of that count.
    pub fn is_one(&self) -> bool
        ensures { IsTrue result → contacts_in self.now ≡ self.now.long }
    {
        self.over.are_none_set() && self.short.is_empty()
    }

    /// How many contacts a search has to look at beside those of the long list that count.
    pub fn beside(&self) -> usize {
        self.over.count().saturating_add(self.short.len())
    }

    /// The long list, ascending by key.
    pub fn long(&self) -> &[ContactEntry]
        ensures value { result.now ≡ self.now.long }
        ensures contacts { AreContacts result.now }
    {
        self.long.as_slice()
    }

    /// The short list.
    pub fn short(&self) -> &ShortList
        ensures value { counted_in result.now ≡ self.now.short }
        ensures contacts { AreContacts (counted_in result.now) }
    {
        &self.short
    }

    /// The contact at a place of the long list, if it counts.
    #[inline(always)]
    pub fn counting(&self, place: usize) -> Option<&ContactEntry>
        ensures { option_copied result ≡ counting_at self.now place }
    {
        if self.over.is_set(place) {
            return None;
        }
        self.long.get(place)
    }

    /// The contact with this key. The search begins at the hint, whatever that is, or where the contacts of the key's
    /// first body begin, if that is further on. The hint becomes where it ended: one search after another goes through
    /// the lists once.
    #[inline(always)]
    pub fn find(&self, hint: &mut Hint, key: ContactKey) -> Option<&ContactEntry>
        ensures { option_copied result ≡ lookup (contacts_in self.now) key }
    {
        hint.long = hint.long.max(self.begins.place_for(key));
        match find_counting(&self.long, &self.over, &mut hint.long, key) {
            Some(entry) => Some(entry),
            None => self.short.find(&mut hint.short, key),
        }
    }

    /// A list of the contacts, ascending by key.
    pub fn to_entries(&self, alloc: Global) -> Result<Vec<ContactEntry>, Refusal>
        ensures value { IfOk result (λ entries. entries.items ≡ contacts_in self.now) }
        ensures contacts { IfOk result (λ entries. AreContacts entries.items) }
        ensures memory_only { IsOkUnless result Refusal.NoMemory }
    {
        self.list_in(Vec::new(alloc))
    }

    /// The same list, in the memory of `room`, whatever is in it.
    fn list_in(&self, room: Vec<ContactEntry>) -> Result<Vec<ContactEntry>, Refusal>
        ensures value { IfOk result (λ entries. entries.items ≡ contacts_in self.now) }
        ensures contacts { IfOk result (λ entries. AreContacts entries.items) }
        ensures memory_only { IsOkUnless result Refusal.NoMemory }
    {
        let mut all = room;
        join(&mut all, &self.long, &self.over, &self.short)?;
        Ok(all)
    }

    /// Makes the two lists one, in one pass. Changes no contact.
    ///
    /// The long list is made in the memory of an earlier one, and its own is kept for the next.
    pub fn flush(&mut self, alloc: Global) -> Result<(), Refusal>
        ensures contacts { contacts_in self.new ≡ contacts_in self.old }
        ensures settled { OnOk result (self.new.long ≡ contacts_in self.old) }
        ensures refused { OnErr result (self.new ≡ self.old) }
        ensures memory_only { IsOkUnless result Refusal.NoMemory }
    {
        let room = self.take_spare(alloc);
        let entries = self.list_in(room)?;
        self.replace_with(SplitContacts::from_entries(alloc, entries)?);
        Ok(())
    }

    /// Gives away the memory that is kept for the next long list.
    pub fn take_spare(&mut self, alloc: Global) -> Vec<ContactEntry>
        ensures { self.new ≡ self.old }
    {
        mem::replace(&mut self.spare, Vec::new(alloc))
    }

    /// Becomes other contacts, and keeps the memory of its long list for the next one. Takes no memory.
    pub fn replace_with(&mut self, other: SplitContacts)
        ensures { self.new ≡ other }
    {
        let SplitContacts { long, .. } = mem::replace(self, other);
        self.spare = long;
    }
}
