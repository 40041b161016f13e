//! What changes in the contacts of both lists: impulses, what a collide makes of them, and that one is over. None of it
//! takes memory.

ghost use Rattle.std.specs.Prelude.{◌≡◌, ℕ, IsTrue, false, map, option_map, true};
ghost use Rattle.std.specs.Option.{ForSome, is_some};
ghost use Rattle.contacts_base.specs.Contacts.{AreKeysRising, contacts_but, lookup};
ghost use Rattle.contacts_base.specs.ContactLists.{AreContacts, impulses_given};
ghost use Rattle.contacts_base.specs.ShortLists.{counted_in};
ghost use Rattle.contacts_base.specs.Split.{carried, contacts_in, counting, is_over, or_kept, renewed};

use crate::contacts::{put_contact, set_points};
use crate::counted::{end_by_key, give_by_key};
use crate::flags::CountedFlags;
use crate::short_list::ShortList;
use crate::split::{Renewal, SplitContacts};
use crate::{ContactEntry, ContactKey, Impulses};

/// Gives the points of the contact at a place these impulses, if it has this key and isn't over. Answers whether it has
/// and isn't.
#[inline(always)]
fn give_at(
    entries: &mut Vec<ContactEntry>,
    over: &CountedFlags,
    place: usize,
    key: ContactKey,
    first: Impulses,
    second: Option<Impulses>,
) -> bool
    requires { AreKeysRising entries.old.items }
    ensures given { IsTrue result → entries.new.items ≡ impulses_given key first second entries.old.items }
    ensures counts { IsTrue result → IsTrue (is_some (lookup (counting over.now entries.old.items) key)) }
    ensures same { result ≡ false → entries.new.items ≡ entries.old.items }
{
    if place >= entries.len() || entries[place].key != key || over.is_set(place) {
        return false;
    }
    set_points(&mut entries[place], first, second);
    true
}

/// Gives the contacts the points that were noted of them.
fn renew_all(entries: &mut Vec<ContactEntry>, notes: &[Renewal])
    ensures { entries.new.items ≡ renewed notes.now entries.old.items }
{
    for note in notes {
        put_contact(entries, note.place, note.contact);
    }
}

/// Puts a list in the place of another, if there is one.
fn replace(short: &mut ShortList, other: Option<ShortList>)
    ensures { counted_in short.new ≡ or_kept (option_map counted_in other) (counted_in short.old) }
{
    if let Some(list) = other {
        *short = list;
    }
}

impl SplitContacts {
    /// Gives the points of the contact with this key these impulses, in mass·u/tick. Without any for the second point
    /// that stays as it is, and so do all contacts where there is none with the key. It is looked for at `place` of the
    /// long list first.
    #[inline(always)]
    pub fn set_impulses(
        &mut self,
        place: usize,
        key: ContactKey,
        first: Impulses,
        second: Option<Impulses>,
    )
        ensures contacts { contacts_in self.new ≡ impulses_given key first second (contacts_in self.old) }
        ensures keys { map (λ e. e.key) self.new.long ≡ map (λ e. e.key) self.old.long }
        ensures over { self.new.over ≡ self.old.over }
    {
        if !give_at(&mut self.long, &self.over, place, key, first, second) {
            self.set_found_impulses(key, first, second);
        }
    }

    /// The same, wherever the contact is.
    #[inline(never)]
    fn set_found_impulses(&mut self, key: ContactKey, first: Impulses, second: Option<Impulses>)
        ensures contacts { contacts_in self.new ≡ impulses_given key first second (contacts_in self.old) }
        ensures keys { map (λ e. e.key) self.new.long ≡ map (λ e. e.key) self.old.long }
        ensures over { self.new.over ≡ self.old.over }
    {
        give_by_key(&mut self.long, key, first, second);
        self.short.give(key, first, second);
    }

    /// The contacts of the long list get the points that were noted of them, those at the places `ends` are over, and
    /// the short list becomes this one, if there is one. Takes no memory.
    pub fn change_in_place(&mut self, notes: &[Renewal], ends: &[usize], short: Option<ShortList>)
        requires short { ForSome short (λ list. AreContacts (counted_in list)) }
        requires contacts { AreContacts (contacts_in (carried notes.now ends.now (option_map counted_in short) self.old)) }
        ensures value { self.new ≡ carried notes.now ends.now (option_map counted_in short) self.old }
    {
        renew_all(&mut self.long, notes);
        self.over.set_all(ends);
        replace(&mut self.short, short);
    }

    /// The contact with a key, if there is one, is over: it stands where it stood, and counts no more. Takes no memory.
    pub fn end(&mut self, key: ContactKey)
        ensures contacts { contacts_in self.new ≡ contacts_but key (contacts_in self.old) }
        ensures long { self.new.long ≡ self.old.long }
        ensures over { (place : ℕ) → is_over self.old.over place ≡ true → is_over self.new.over place ≡ true }
    {
        end_by_key(&self.long, &mut self.over, key);
        self.short.end(key);
    }
}
