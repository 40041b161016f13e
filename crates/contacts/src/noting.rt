//! What a collide does to the numbers of contacts, noted until it is carried out: which contacts are made, and the keys
//! of those that go, that begin to touch, and that end.

ghost use Rattle.std.specs.Prelude.{◌≡◌, ◌++◌, OnOk, map, option_map, slice_get};
ghost use Rattle.std.specs.List.{filter_map};
ghost use Rattle.std.specs.Option.{option_copied, option_to_list};
ghost use Rattle.std.specs.Result.{IsOkUnless};
ghost use Rattle.contacts_base.specs.declared.contact.ContactEntry.{ContactEntry};
ghost use Rattle.contacts_base.specs.Contacts.{AreKeysRising, lookup};
ghost use Rattle.contacts.specs.Numbered.{numbered_of};
ghost use Rattle.contacts.specs.PendingUpdates.{KeepLists};

use crate::changes::push_key;
use crate::number_book::NumberedContact;
use crate::pending_update::{PendingUpdate, Touches};
use contacts_base::{ContactEntry, ContactKey, contact_at, seek_next};
use fixed_geom::Refusal;

/// What the number of a contact tells of it.
fn numbered(entry: &ContactEntry) -> NumberedContact
    ensures { result ≡ numbered_of entry.now }
{
    NumberedContact {
        key: entry.key,
        touching: entry.contact.is_touching(),
    }
}

/// Notes that these contacts are made, and no others.
pub(crate) fn note_fresh(
    made: &mut Vec<NumberedContact>,
    entries: &[ContactEntry],
) -> Result<(), Refusal>
    ensures noted { OnOk result (made.new.items ≡ map numbered_of entries.now) }
    ensures memory_only { IsOkUnless result Refusal.NoMemory }
{
    made.clear();
    for place in 0..entries.len() {
        made.push(numbered(&entries[place]))?;
    }
    Ok(())
}

/// Adds what the number of a contact tells of it, if there is a contact.
fn push_numbered(
    made: &mut Vec<NumberedContact>,
    entry: Option<&ContactEntry>,
) -> Result<(), Refusal>
    ensures pushed { OnOk result (made.new.items ≡ made.old.items ++ option_to_list (option_map numbered_of (option_copied entry.entry))) }
    ensures memory_only { IsOkUnless result Refusal.NoMemory }
{
    if let Some(entry) = entry {
        made.push(numbered(entry))?;
    }
    Ok(())
}

/// Notes which contacts are made: those that have these keys, and no others.
pub(crate) fn note_made(
    made: &mut Vec<NumberedContact>,
    entries: &[ContactEntry],
    keys: &[ContactKey],
) -> Result<(), Refusal>
    requires rising { AreKeysRising entries.now }
    ensures noted { OnOk result (made.new.items ≡ filter_map (λ key. option_map numbered_of (lookup entries.now key)) keys.now) }
    ensures memory_only { IsOkUnless result Refusal.NoMemory }
{
    made.clear();
    let mut place = 0;
    for index in 0..keys.len() {
        let key = keys[index];
        place = seek_next(entries, place, key);
        push_numbered(made, contact_at(entries, place, key))?;
    }
    Ok(())
}

/// The key of the contact at a place, if there is one.
fn key_at(entries: &[ContactEntry], place: usize) -> Option<ContactKey>
    ensures { result ≡ option_map (λ (e : ContactEntry). e.key) (slice_get entries.now place) }
{
    match entries.get(place) {
        None => None,
        Some(entry) => Some(entry.key),
    }
}

/// Adds the keys of the contacts at these places, which go.
pub(crate) fn note_ended(
    gone: &mut Vec<ContactKey>,
    entries: &[ContactEntry],
    places: &[usize],
) -> Result<(), Refusal>
    ensures noted { OnOk result (gone.new.items ≡ gone.old.items ++ filter_map (λ place. option_map (λ (e : ContactEntry). e.key) (slice_get entries.now place)) places.now) }
    ensures memory_only { IsOkUnless result Refusal.NoMemory }
{
    for index in 0..places.len() {
        push_key(gone, key_at(entries, places[index]))?;
    }
    Ok(())
}

/// Becomes a copy of a list.
fn copy_keys(to: &mut Vec<ContactKey>, keys: &[ContactKey]) -> Result<(), Refusal>
    ensures copied { OnOk result (to.new.items ≡ keys.now) }
    ensures memory_only { IsOkUnless result Refusal.NoMemory }
{
    to.clear();
    to.extend_from_slice(keys)?;
    Ok(())
}

/// Notes which contacts begin to touch and which end.
pub(crate) fn note_touches(pending: &mut PendingUpdate, touches: &Touches) -> Result<(), Refusal>
    ensures begin { OnOk result (pending.new.begin.items ≡ touches.now.begin.items) }
    ensures end { OnOk result (pending.new.end.items ≡ touches.now.end.items) }
    ensures same { KeepLists pending.old pending.new }
    ensures memory_only { IsOkUnless result Refusal.NoMemory }
{
    copy_keys(&mut pending.begin, &touches.begin)?;
    copy_keys(&mut pending.end, &touches.end)
}
