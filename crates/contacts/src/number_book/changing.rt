//! A change of the contacts that have numbers: first some begin and end to touch, then some are made, and then some
//! end.

ghost use Rattle.std.specs.Prelude.{◌≡◌, ◌≢◌, ◌<◌, ◌≤◌, ◌+◌, ◌∷◌, ◌++◌, ℕ, true, [], List, None, Option, Some, length, slice_set, vec_capacity};
ghost use Rattle.std.specs.Option.{is_some};
ghost use Rattle.contacts.specs.Numbered.{contact_at, number_key_at};
ghost use Rattle.contacts.specs.NumberBooks.{AreFree, CanMake, HasEnded, HasMade, HasRoom, IsBook, KeepBook, bound_of, gone_of};
ghost use Rattle.contacts.specs.NumberChanges.{CanMakeAll, HaveGone, HaveMade, HaveTouched};
ghost use Rattle.contacts.specs.declared.number_book.TheConstants.{MAX_CONTACTS};

use crate::ends::Side;
use crate::number_book::{NumberBook, NumberedContact};
use contacts_base::ContactKey;

/// Adds an item behind the others of a list that has room for it.
fn push_reserved<T: Copy>(list: &mut Vec<T>, item: T)
    requires { length list.old.items < vec_capacity list.old }
    ensures items { list.new.items ≡ list.old.items ++ item ∷ [] }
    ensures capacity { vec_capacity list.old ≤ vec_capacity list.new }
{
    let _ = list.push(item);
}

/// Gives a contact this number, which is free.
fn take_free(
    contacts: &mut Vec<Option<NumberedContact>>,
    number: u32,
    contact: NumberedContact,
) -> u32
    requires { number < length contacts.old.items }
    ensures number { result ≡ number }
    ensures contacts { contacts.new.items ≡ slice_set contacts.old.items number (Some contact) }
    ensures capacity { vec_capacity contacts.old ≤ vec_capacity contacts.new }
{
    contacts[number as usize] = Some(contact);
    number
}

/// Gives a contact a new number, for which there is room.
fn take_new(contacts: &mut Vec<Option<NumberedContact>>, contact: NumberedContact) -> u32
    requires room { length contacts.old.items < vec_capacity contacts.old }
    requires few { length contacts.old.items < MAX_CONTACTS }
    ensures number { result ≡ length contacts.old.items }
    ensures contacts { contacts.new.items ≡ contacts.old.items ++ Some contact ∷ [] }
    ensures capacity { vec_capacity contacts.old ≤ vec_capacity contacts.new }
{
    let number = contacts.len() as u32;
    push_reserved(contacts, Some(contact));
    number
}

/// Gives a contact a number that no contact has: the one that was let go last, or else a new one, for which there is
/// room.
fn take(
    contacts: &mut Vec<Option<NumberedContact>>,
    free: &mut Vec<u32>,
    contact: NumberedContact,
) -> u32
    requires free { AreFree contacts.old.items free.old.items }
    requires room { length free.old.items ≡ 0 → length contacts.old.items < vec_capacity contacts.old }
    requires few { length free.old.items ≡ 0 → length contacts.old.items < MAX_CONTACTS }
    ensures was { contact_at contacts.old.items result ≡ None }
    ensures now { contact_at contacts.new.items result ≡ Some contact }
    ensures others { (number : ℕ) → number ≢ result → contact_at contacts.new.items number ≡ contact_at contacts.old.items number }
    ensures within { result < length contacts.new.items }
    ensures free { AreFree contacts.new.items free.new.items }
    ensures count { length free.old.items + length contacts.new.items ≡ length free.new.items + length contacts.old.items + 1 }
    ensures more { length contacts.old.items ≤ length contacts.new.items }
    ensures least { 0 < length free.old.items → length contacts.new.items ≡ length contacts.old.items }
    ensures most { length contacts.new.items ≤ length contacts.old.items + 1 }
    ensures capacity { vec_capacity contacts.old ≤ vec_capacity contacts.new }
    ensures free_capacity { vec_capacity free.old ≤ vec_capacity free.new }
{
    match free.pop() {
        Some(number) => take_free(contacts, number, contact),
        None => take_new(contacts, contact),
    }
}

/// A number that a contact had is free.
fn release(contacts: &mut Vec<Option<NumberedContact>>, free: &mut Vec<u32>, number: u32)
    requires free { AreFree contacts.old.items free.old.items }
    requires given { is_some (contact_at contacts.old.items number) ≡ true }
    requires room { length contacts.old.items ≤ vec_capacity free.old }
    ensures contacts { contacts.new.items ≡ slice_set contacts.old.items number None }
    ensures items { free.new.items ≡ free.old.items ++ number ∷ [] }
    ensures free { AreFree contacts.new.items free.new.items }
    ensures capacity { vec_capacity contacts.old ≤ vec_capacity contacts.new }
    ensures free_capacity { vec_capacity free.old ≤ vec_capacity free.new }
{
    contacts[number as usize] = None;
    push_reserved(free, number);
}

impl NumberBook {
    /// A change begins that hasn't made or ended a contact yet.
    pub fn begin(&mut self)
        requires { IsBook self.old }
        ensures same { KeepBook self.old self.new }
        ensures made { self.new.made.items ≡ [] }
        ensures gone { gone_of self.new ≡ [] }
        ensures book { IsBook self.new }
        ensures room { (added slots : ℕ) → HasRoom added slots self.old → HasRoom added slots self.new }
    {
        self.made.clear();
        self.ended = self.free.len();
    }

    /// The contact with a key, if there is one, touches or doesn't. Answers a guess at the number of the contact with
    /// the next lower key: those of a body that were made together are one behind the other in its thread, the highest
    /// key first.
    fn set_touching(&mut self, guess: Option<u32>, key: ContactKey, touching: bool) -> Option<u32>
        requires { IsBook self.old }
        ensures touched { HaveTouched (key ∷ []) touching self.old.contacts.items self.new.contacts.items }
        ensures made { self.new.made.items ≡ self.old.made.items }
        ensures gone { gone_of self.new ≡ gone_of self.old }
        ensures bound { (added : ℕ) → bound_of self.new added ≡ bound_of self.old added }
        ensures book { IsBook self.new }
        ensures room { (added slots : ℕ) → HasRoom added slots self.old → HasRoom added slots self.new }
    {
        match self.number_by_guess(guess, key) {
            None => guess,
            Some(number) => {
                self.contacts[number as usize] = Some(NumberedContact { key, touching });
                self.ends.behind(Side::First, number)
            }
        }
    }

    /// The contacts with these keys, if there are any, touch or don't. It begins with the last key.
    pub fn set_all_touching(&mut self, keys: &[ContactKey], touching: bool)
        requires { IsBook self.old }
        ensures touched { HaveTouched keys.now touching self.old.contacts.items self.new.contacts.items }
        ensures made { self.new.made.items ≡ self.old.made.items }
        ensures gone { gone_of self.new ≡ gone_of self.old }
        ensures bound { (added : ℕ) → bound_of self.new added ≡ bound_of self.old added }
        ensures book { IsBook self.new }
        ensures room { (added slots : ℕ) → HasRoom added slots self.old → HasRoom added slots self.new }
    {
        let mut guess = None;
        let mut left = keys.len();
        while left > 0 {
            left -= 1;
            guess = self.set_touching(guess, keys[left], touching);
        }
    }

    /// A contact is made: it gets a number, and is one of its bodies' contacts.
    pub fn make(&mut self, contact: NumberedContact) -> u32
        requires book { IsBook self.old }
        requires can { CanMake contact self.old }
        ensures made { HasMade contact result self.old self.new }
        ensures book { IsBook self.new }
    {
        let number = take(&mut self.contacts, &mut self.free, contact);
        self.ends.put(contact.key, number);
        push_reserved(&mut self.made, number);
        self.ended = self.free.len();
        number
    }

    /// These contacts are made.
    pub fn make_all(&mut self, contacts: &[NumberedContact])
        requires book { IsBook self.old }
        requires can { CanMakeAll contacts.now self.old }
        requires begun { self.old.made.items ≡ [] }
        requires before { gone_of self.old ≡ [] }
        ensures made { HaveMade contacts.now self.old.contacts.items self.new.contacts.items self.new.made.items }
        ensures gone { gone_of self.new ≡ [] }
        ensures bound { length self.new.contacts.items ≤ bound_of self.old (length contacts.now) }
        ensures book { IsBook self.new }
    {
        for place in 0..contacts.len() {
            self.make(contacts[place]);
        }
    }

    /// The contact with a number and this key goes, and its number is free. Takes no memory.
    pub fn let_go(&mut self, number: u32, key: ContactKey)
        requires book { IsBook self.old }
        requires key { number_key_at self.old.contacts.items number ≡ Some key }
        ensures gone { HasEnded number self.old self.new }
        ensures book { IsBook self.new }
    {
        self.ends.take_out(key, number);
        release(&mut self.contacts, &mut self.free, number);
    }

    /// The contact with a key, if there is one, goes. Takes no memory.
    fn end(&mut self, key: ContactKey)
        requires { IsBook self.old }
        ensures gone { (first : List (Option NumberedContact)) (named : List ContactKey) → HaveGone named first self.old.contacts.items (gone_of self.old) → HaveGone (key ∷ named) first self.new.contacts.items (gone_of self.new) }
        ensures made { self.new.made.items ≡ self.old.made.items }
        ensures book { IsBook self.new }
    {
        if let Some(number) = self.number_of(key) {
            self.let_go(number, key);
        }
    }

    /// The contacts with these keys, if there are any, go, the last one first: of contacts that were made by one change
    /// that one stands nearest to the front of its threads. Takes no memory.
    pub fn end_all(&mut self, keys: &[ContactKey])
        requires book { IsBook self.old }
        requires before { gone_of self.old ≡ [] }
        ensures gone { HaveGone keys.now self.old.contacts.items self.new.contacts.items (gone_of self.new) }
        ensures made { self.new.made.items ≡ self.old.made.items }
        ensures book { IsBook self.new }
    {
        let mut left = keys.len();
        while left > 0 {
            left -= 1;
            self.end(keys[left]);
        }
    }
}
