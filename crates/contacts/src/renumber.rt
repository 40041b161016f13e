//! The numbers of contacts where what is pending is carried out.

ghost use Rattle.std.specs.Prelude.{◌≡◌, ◌≤◌, Contains, IfOk, List, false, length, map, true};
ghost use Rattle.std.specs.Result.{IsOkUnless};
ghost use Rattle.contacts_base.specs.declared.contact.ContactEntry.{ContactEntry};
ghost use Rattle.contacts_base.specs.ContactLists.{AreContacts};
ghost use Rattle.contacts_base.specs.Split.{contacts_in};
ghost use Rattle.contacts_base.specs.ChangedKeys.{AreRising};
ghost use Rattle.contacts.specs.Numbered.{AreNumbered, IsTurnover};
ghost use Rattle.contacts.specs.NumberBooks.{HasRoomFor, IsBook, IsNoKey, bound_of, gone_of};
ghost use Rattle.contacts.specs.NumberChanges.{IsChange};
ghost use Rattle.contacts.specs.PendingUpdates.{IsPendingUpdate, IsNothing, pending_contacts};
ghost use Rattle.contacts.specs.Stirring.{AreHeld};

use crate::collide_memory::{CollideMemory, invalidate};
use crate::noting::note_fresh;
use crate::number_book::{NumberBook, NumberedContact};
use crate::pending_update::{PendingUpdate, apply_pending};
use contacts_base::{ContactEntry, SplitContacts};
use fixed_geom::Refusal;
use std::alloc::Global;

/// Carries out what is pending on the numbers: contacts begin and end to touch, and are made and ended.
fn renumber(numbers: &mut NumberBook, pending: &PendingUpdate)
    requires book { IsBook numbers.old }
    requires rising { AreRising (map (λ c. c.key) pending.now.made.items) }
    requires room { pending.now.any ≡ true → HasRoomFor pending.now.made.items numbers.old }
    requires idle { pending.now.any ≡ false → IsNothing pending.now }
    requires absent { (c : NumberedContact) → Contains pending.now.made.items c → IsNoKey c.key numbers.old }
    ensures change { (old new : List ContactEntry) → AreNumbered old numbers.old.contacts.items → IsChange old new pending.now.made.items pending.now.gone.items pending.now.begin.items pending.now.end.items → AreNumbered new numbers.new.contacts.items }
    ensures turnover { (old new : List ContactEntry) → AreNumbered old numbers.old.contacts.items → IsChange old new pending.now.made.items pending.now.gone.items pending.now.begin.items pending.now.end.items → IsTurnover numbers.old.contacts.items numbers.new.contacts.items numbers.new.made.items (gone_of numbers.new) }
    ensures bound { length numbers.new.contacts.items ≤ bound_of numbers.old (length pending.now.made.items) }
    ensures book { IsBook numbers.new }
{
    numbers.begin();
    if pending.any {
        numbers.set_all_touching(&pending.begin, true);
        numbers.set_all_touching(&pending.end, false);
        numbers.make_all(&pending.made);
        numbers.end_all(&pending.gone);
    }
}

/// These contacts get the numbers from 0 on.
pub(crate) fn number_all(alloc: Global, entries: &[ContactEntry]) -> Result<NumberBook, Refusal>
    requires { AreContacts entries.now }
    ensures book { IfOk result (λ numbers. IsBook numbers) }
    ensures numbered { IfOk result (λ numbers. AreNumbered entries.now numbers.contacts.items) }
    ensures memory_only { IsOkUnless result Refusal.NoMemory }
{
    let mut numbers = NumberBook::new(alloc);
    let mut made = Vec::new(alloc);
    note_fresh(&mut made, entries)?;
    numbers.reserve_for(&made)?;
    numbers.begin();
    numbers.make_all(&made);
    Ok(numbers)
}

/// Carries out what is pending, if something is. Takes no memory.
pub(crate) fn apply_and_renumber(
    contacts: &mut SplitContacts,
    pending: &mut PendingUpdate,
    memory: &mut CollideMemory,
    numbers: &mut NumberBook,
)
    requires held { AreHeld memory.old.stirring contacts.old }
    requires pending { IsPendingUpdate pending.old contacts.old }
    requires book { IsBook numbers.old }
    requires numbered { AreNumbered (contacts_in contacts.old) numbers.old.contacts.items }
    requires room { pending.old.any ≡ true → HasRoomFor pending.old.made.items numbers.old }
    ensures contacts { contacts_in contacts.new ≡ pending_contacts pending.old contacts.old }
    ensures held { AreHeld memory.new.stirring contacts.new }
    ensures nothing { IsNothing pending.new }
    ensures idle { pending.new.any ≡ false }
    ensures book { IsBook numbers.new }
    ensures numbered { AreNumbered (contacts_in contacts.new) numbers.new.contacts.items }
    ensures turnover { IsTurnover numbers.old.contacts.items numbers.new.contacts.items numbers.new.made.items (gone_of numbers.new) }
    ensures bound { length numbers.new.contacts.items ≤ bound_of numbers.old (length pending.old.made.items) }
{
    renumber(numbers, pending);
    if !apply_pending(contacts, pending) {
        invalidate(memory);
    }
}
