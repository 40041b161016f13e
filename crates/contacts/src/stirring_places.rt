//! The places in the long list of the contacts of which a body may stir: by a pass over all contacts, or by a search
//! for each contact of the flagged bodies where those are few.

ghost use Rattle.std.specs.Prelude.{◌≡◌, ◌↔◌, ◌++◌, ◌∷◌, [], ℕ, Contains, OnOk, Some, cond, option_map, true};
ghost use Rattle.std.specs.Option.{option_copied};
ghost use Rattle.std.specs.Result.{IsOkUnless};
ghost use Rattle.std.specs.List.Sorted.{IsStrictlyIncreasing};
ghost use Rattle.contacts_base.specs.declared.contact.ContactEntry.{ContactEntry};
ghost use Rattle.contacts_base.specs.Contacts.{AreKeysRising};
ghost use Rattle.contacts_base.specs.Split.{contacts_in};
ghost use Rattle.contacts.specs.Stirring.{AreFlagsListed, AreStirring, stirring_places};
ghost use Rattle.contacts.specs.Numbered.{AreNumbered};
ghost use Rattle.contacts.specs.NumberBooks.{IsBook};
ghost use Rattle.contacts.specs.StirringPlaces.{ArePushed, IsPlaceOf, IsPlaceOfOne, IsPlaceOn};

use crate::ends::Side;
use crate::number_book::{NumberBook, NumberedContact};
use crate::stirring_flags::is_one_flagged;
use contacts_base::{ContactEntry, ContactKey, SplitContacts, seek_next};
use fixed_geom::Refusal;

/// Where the flagged slots are fewer than one for so many contacts of the long list, places are found by them.
const FEW_FLAGGED: usize = 8;

/// Adds a place, if it is wanted.
fn push_place(places: &mut Vec<usize>, wanted: bool, place: usize) -> Result<(), Refusal>
    ensures pushed { OnOk result (places.new.items ≡ places.old.items ++ cond wanted (place ∷ []) []) }
    ensures memory_only { IsOkUnless result Refusal.NoMemory }
{
    if wanted {
        places.push(place)?;
    }
    Ok(())
}

/// Lists the places of those contacts of which a body may stir in a pass over all.
fn scan_places(
    places: &mut Vec<usize>,
    flags: &[bool],
    entries: &[ContactEntry],
) -> Result<(), Refusal>
    ensures listed { OnOk result (places.new.items ≡ stirring_places flags.now (λ key. true) entries.now) }
    ensures memory_only { IsOkUnless result Refusal.NoMemory }
{
    places.clear();
    for place in 0..entries.len() {
        push_place(places, is_one_flagged(flags, &entries[place]), place)?;
    }
    Ok(())
}

/// Whether there is a contact, and it has the key.
fn has_key(entry: Option<&ContactEntry>, key: ContactKey) -> bool
    ensures { (result ≡ true) ↔ (option_map (λ (e : ContactEntry). e.key) (option_copied entry.entry) ≡ Some key) }
{
    match entry {
        None => false,
        Some(entry) => entry.key == key,
    }
}

/// Adds the place in a list of the contact with the key of this one, if it is there. It is looked for from the hint on,
/// which becomes where the search ended.
fn push_place_of(
    places: &mut Vec<usize>,
    hint: &mut usize,
    entries: &[ContactEntry],
    contact: Option<NumberedContact>,
) -> Result<(), Refusal>
    requires rising { AreKeysRising entries.now }
    ensures pushed { OnOk result (ArePushed (IsPlaceOf entries.now contact) places.old.items places.new.items) }
    ensures memory_only { IsOkUnless result Refusal.NoMemory }
{
    if let Some(contact) = contact {
        *hint = seek_next(entries, *hint, contact.key);
        push_place(places, has_key(entries.get(*hint), contact.key), *hint)?;
    }
    Ok(())
}

/// Adds the places in a list of the contacts that have the body in a slot on one side.
fn push_side(
    places: &mut Vec<usize>,
    entries: &[ContactEntry],
    numbers: &NumberBook,
    side: Side,
    slot: u32,
) -> Result<(), Refusal>
    requires rising { AreKeysRising entries.now }
    requires book { IsBook numbers.now }
    ensures pushed { OnOk result (ArePushed (IsPlaceOn entries.now numbers.now.contacts.items side slot) places.old.items places.new.items) }
    ensures memory_only { IsOkUnless result Refusal.NoMemory }
{
    numbers.ends.know_once();
    let mut hint = 0;
    let mut next = numbers.ends.first_at(side, slot);
    while let Some(number) = next {
        push_place_of(places, &mut hint, entries, numbers.contact(number))?;
        next = numbers.ends.behind(side, number);
    }
    Ok(())
}

/// Lists the places in a list of the contacts of the bodies in these slots, one body after the other.
fn push_places(
    places: &mut Vec<usize>,
    slots: &[u32],
    entries: &[ContactEntry],
    numbers: &NumberBook,
) -> Result<(), Refusal>
    requires rising { AreKeysRising entries.now }
    requires book { IsBook numbers.now }
    ensures pushed { OnOk result ((place : ℕ) → Contains places.new.items place ↔ IsPlaceOfOne entries.now numbers.now.contacts.items slots.now place) }
    ensures memory_only { IsOkUnless result Refusal.NoMemory }
{
    places.clear();
    for place in 0..slots.len() {
        push_side(places, entries, numbers, Side::First, slots[place])?;
        push_side(places, entries, numbers, Side::Second, slots[place])?;
    }
    Ok(())
}

/// Lists the places in a list of the contacts of the bodies in these slots, ascending.
fn gather_places(
    places: &mut Vec<usize>,
    slots: &[u32],
    entries: &[ContactEntry],
    numbers: &NumberBook,
) -> Result<(), Refusal>
    requires rising { AreKeysRising entries.now }
    requires book { IsBook numbers.now }
    ensures rising { OnOk result (IsStrictlyIncreasing places.new.items) }
    ensures listed { OnOk result ((place : ℕ) → Contains places.new.items place ↔ IsPlaceOfOne entries.now numbers.now.contacts.items slots.now place) }
    ensures memory_only { IsOkUnless result Refusal.NoMemory }
{
    push_places(places, slots, entries, numbers)?;
    places.sort_unstable();
    places.dedup();
    Ok(())
}

/// Lists the places of those contacts of which a body may stir: where few are flagged, that takes a search for each of
/// their contacts.
pub(crate) fn list_places(
    places: &mut Vec<usize>,
    flags: &[bool],
    flagged: &[u32],
    contacts: &SplitContacts,
    numbers: &NumberBook,
) -> Result<(), Refusal>
    requires flagged { AreFlagsListed flags.now flagged.now }
    requires book { IsBook numbers.now }
    requires numbered { AreNumbered (contacts_in contacts.now) numbers.now.contacts.items }
    ensures listed { OnOk result (AreStirring flags.now contacts.now places.new.items) }
    ensures memory_only { IsOkUnless result Refusal.NoMemory }
{
    if flagged.len() < contacts.long().len() / FEW_FLAGGED && numbers.ends.bodies() <= flags.len() {
        return gather_places(places, flagged, contacts.long(), numbers);
    }
    scan_places(places, flags, contacts.long())
}
