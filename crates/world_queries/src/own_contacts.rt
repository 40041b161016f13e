//! Which contacts a body has (Box2D: `b2Body_GetContactData`).

ghost use Rattle.std.specs.Prelude.{◌≡◌, IfOk};
ghost use Rattle.std.specs.Result.{IsOkUnless};
ghost use Rattle.contacts_base.specs.Contacts.{has_slot};
ghost use Rattle.world_queries.specs.OwnContacts.{contacts_at};

use fixed_geom::Refusal;
use std::alloc::Global;
use world_core::{ContactEntry, WorldCore};

/// Whether one of the contact's shapes is of the body in a slot.
fn has_slot(entry: &ContactEntry, slot: u32) -> bool
    ensures { result ≡ has_slot slot entry.now }
{
    entry.key.first.slot == slot || entry.key.second.slot == slot
}

/// Those of these contacts that the body in a slot has.
fn contacts_among(
    alloc: Global,
    contacts: &[ContactEntry],
    slot: u32,
) -> Result<Vec<ContactEntry>, Refusal>
    ensures contacts { IfOk result (λ found. found.items ≡ contacts_at slot contacts.now) }
    ensures memory_only { IsOkUnless result Refusal.NoMemory }
{
    let mut found = Vec::new(alloc);
    for entry in contacts {
        if has_slot(entry, slot) {
            found.push(*entry)?;
        }
    }
    Ok(found)
}

/// The contacts of the body in a slot, ascending by key. It looks at all contacts.
pub fn contacts_of(
    alloc: Global,
    world: &WorldCore,
    slot: u32,
) -> Result<Vec<ContactEntry>, Refusal>
    ensures contacts { IfOk result (λ found. found.items ≡ contacts_at slot world.now.plain.contacts) }
    ensures memory_only { IsOkUnless result Refusal.NoMemory }
{
    if let Some(contacts) = world.contacts().as_one() {
        return contacts_among(alloc, contacts, slot);
    }
    let contacts = world.contacts().to_entries(alloc)?;
    contacts_among(alloc, &contacts, slot)
}
