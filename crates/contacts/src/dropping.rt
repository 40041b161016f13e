//! The contacts of a body go.

ghost use Rattle.std.specs.Prelude.{◌≡◌, ◌≢◌, [], ℕ, List, Option, Some};
ghost use Rattle.contacts_base.specs.declared.key.ContactKey.{ContactKey};
ghost use Rattle.contacts_base.specs.Contacts.{contacts_without};
ghost use Rattle.contacts_base.specs.Split.{Split, contacts_in};
ghost use Rattle.contacts.specs.declared.number_book.NumberedContact.{NumberedContact};
ghost use Rattle.contacts.specs.Dropping.{IsDropping, IsKeyOver};
ghost use Rattle.contacts.specs.NumberBooks.{HasEnded, IsBook, gone_of};
ghost use Rattle.contacts.specs.Numbered.{AreNumbered, IsTurnover, contact_at, number_key_at, slot_at};
ghost use Rattle.contacts.specs.Stirring.{HaveKeys};

use crate::ends::Side;
use crate::number_book::NumberBook;
use contacts_base::SplitContacts;

/// The contact with a number goes.
fn end_numbered(numbers: &mut NumberBook, contacts: &mut SplitContacts, number: u32)
    requires book { IsBook numbers.old }
    ensures gone { (key : ContactKey) → number_key_at numbers.old.contacts.items number ≡ Some key → HasEnded number numbers.old numbers.new }
    ensures over { (key : ContactKey) → number_key_at numbers.old.contacts.items number ≡ Some key → IsKeyOver key contacts.old contacts.new }
    ensures book { IsBook numbers.new }
{
    if let Some(contact) = numbers.contact(number) {
        numbers.let_go(number, contact.key);
        contacts.end(contact.key);
    }
}

/// The contacts that have the body in a slot on one side go.
fn end_side(numbers: &mut NumberBook, contacts: &mut SplitContacts, side: Side, slot: u32)
    requires book { IsBook numbers.old }
    ensures dropping { (was : Split) (numbered : List (Option NumberedContact)) → IsDropping slot was numbered contacts.old numbers.old → IsDropping slot was numbered contacts.new numbers.new }
    ensures fewer { (number : ℕ) (c : NumberedContact) → contact_at numbers.new.contacts.items number ≡ Some c → contact_at numbers.old.contacts.items number ≡ Some c }
    ensures none { (number : ℕ) → slot_at side numbers.new.contacts.items number ≢ Some slot }
    ensures book { IsBook numbers.new }
{
    while let Some(number) = numbers.ends.first_at(side, slot) {
        end_numbered(numbers, contacts, number);
    }
}

/// The contacts of the body in a slot go, and their numbers are free. Takes no memory. Each of them takes a search of
/// both lists.
pub(crate) fn drop_of_body(numbers: &mut NumberBook, contacts: &mut SplitContacts, slot: u32)
    requires book { IsBook numbers.old }
    requires numbered { AreNumbered (contacts_in contacts.old) numbers.old.contacts.items }
    ensures book { IsBook numbers.new }
    ensures contacts { contacts_in contacts.new ≡ contacts_without slot (contacts_in contacts.old) }
    ensures numbered { AreNumbered (contacts_in contacts.new) numbers.new.contacts.items }
    ensures turnover { IsTurnover numbers.old.contacts.items numbers.new.contacts.items numbers.new.made.items (gone_of numbers.new) }
    ensures none { numbers.new.made.items ≡ [] }
    ensures keys { HaveKeys contacts.old contacts.new }
{
    contacts.know_ascending();
    numbers.begin();
    end_side(numbers, contacts, Side::First, slot);
    end_side(numbers, contacts, Side::Second, slot);
}
