//! The contacts of near shapes.

ghost use Rattle.std.specs.Prelude.{◌≡◌, [], slice_get, length};
ghost use Rattle.contacts_base.specs.ContactLists.{with_points, contact_set, AreContacts};

use crate::{ContactEntry, Impulses, PackedContact};
use std::alloc::Global;
use std::marker::Model;

/// A contact for each pair of near shapes. Contracts see the list of them: its keys ascend, none
/// stands twice, and each contact's friction and restitution are in their ranges.
#[derive(Drop)]
pub struct Contacts {
    entries: Vec<ContactEntry>,
}

impl Model for Contacts {
    ghost use Rattle.std.specs.Prelude.{List};
    ghost use Rattle.contacts_base.specs.declared.contact.ContactEntry.{ContactEntry};
    ghost use Rattle.contacts_base.specs.ContactLists.{AreContacts};

    ghost Value = { List ContactEntry };

    ghost view = { λ a. a.entries.items };

    ghost invariant = { λ a. AreContacts a.entries.items };
}

/// Gives the points of a contact these impulses; without any for the second it stays as it is.
#[inline(always)]
pub(crate) fn set_points(entry: &mut ContactEntry, first: Impulses, second: Option<Impulses>)
    ensures { entry.new ≡ with_points first second entry.old }
{
    entry.contact.set_impulses(first, second);
}

/// Gives the contact at an index of a list these points. All stay as they are where there is none at the index.
pub fn put_contact(entries: &mut Vec<ContactEntry>, index: usize, contact: PackedContact)
    ensures { entries.new.items ≡ contact_set index contact entries.old.items (slice_get entries.old.items index) }
{
    if index < entries.len() {
        entries[index].contact = contact;
    }
}

impl Contacts {
    /// No contacts.
    pub fn new(alloc: Global) -> Contacts
        ensures { result ≡ [] }
    {
        Contacts {
            entries: Vec::new(alloc),
        }
    }

    /// The contacts of a list.
    pub fn from_entries(entries: Vec<ContactEntry>) -> Contacts
        requires { AreContacts entries.items }
        ensures { result ≡ entries.items }
    {
        Contacts { entries }
    }

    /// The list of the contacts.
    pub fn into_entries(self) -> Vec<ContactEntry>
        ensures value { result.items ≡ self }
        ensures contacts { AreContacts result.items }
    {
        self.entries
    }

    /// How many there are.
    pub fn len(&self) -> usize
        ensures { result ≡ length self.now }
    {
        self.entries.len()
    }

    /// The contacts, ascending by key.
    pub fn as_slice(&self) -> &[ContactEntry]
        ensures value { result.now ≡ self.now }
        ensures contacts { AreContacts result.now }
    {
        self.entries.as_slice()
    }
}
