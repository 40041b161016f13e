//! The sleeping sets of contacts, by number: each contact that sleeps under the name of its bodies' island.

ghost use Rattle.std.specs.Prelude.{◌≡◌, ◌<◌, ◌≤◌, ℕ, IfOk, None, Some, length, true};
ghost use Rattle.std.specs.Result.{IsOkUnless};
ghost use Rattle.contacts.specs.Numbered.{contact_at, slot_at};
ghost use Rattle.world_core_base.specs.Asleep.{AreContactSets, AreNamedAsleep, IsContactOfNone, contact_sleep, is_contact_end, movers_of_contact};
ghost use Rattle.world_core_base.specs.Following.{CanFollow, HaveFollowed, followed, placed};
ghost use Rattle.world_core_base.specs.Sleeping.{sleep_at};

use crate::SleepingSets;
use crate::asleep::{follow, place, sleep_with};
use contacts::{ContactTable, NumberedContact, Side};
use fixed_geom::Refusal;
use graph_colours::Movers;
use plain_world::Body;
use solver_sets::contact_movers;
use std::alloc::Global;

/// The movers of a contact, if there is one that touches.
fn movers_of_contact(bodies: &[Option<Body>], contact: Option<NumberedContact>) -> Option<Movers>
    ensures { result ≡ movers_of_contact bodies.now contact }
{
    match contact {
        None => None,
        Some(contact) => {
            if contact.touching {
                contact_movers(bodies, contact.key)
            } else {
                None
            }
        }
    }
}

/// The name under which the contact with a number sleeps, if there is one that does.
fn contact_sleep(bodies: &[Option<Body>], contacts: &ContactTable, number: u32) -> Option<u32>
    ensures { result ≡ contact_sleep bodies.now contacts.now.numbered number }
{
    sleep_with(bodies, movers_of_contact(bodies, contacts.contact(number)))
}

/// Puts the contact with a number into the set in which it sleeps, if it does.
fn add_contact(
    sets: &mut SleepingSets,
    bodies: &[Option<Body>],
    contacts: &ContactTable,
    number: u32,
)
    requires awake { sleep_at sets.old.names number ≡ None }
    requires below { number < length sets.old.names }
    requires named { (name : ℕ) → contact_sleep bodies.now contacts.now.numbered number ≡ Some name → name < length sets.old.sets }
    ensures names { sets.new.names ≡ placed (contact_sleep bodies.now contacts.now.numbered number) number sets.old.names }
    ensures sets { length sets.new.sets ≡ length sets.old.sets }
{
    place(sets, number, contact_sleep(bodies, contacts, number));
}

/// The sets of these contacts.
pub fn list_contacts_asleep(
    alloc: Global,
    bodies: &[Option<Body>],
    contacts: &ContactTable,
) -> Result<SleepingSets, Refusal>
    requires { AreNamedAsleep bodies.now }
    ensures asleep { IfOk result (λ sets. AreContactSets bodies.now contacts.now.numbered sets) }
    ensures memory_only { IsOkUnless result Refusal.NoMemory }
{
    let mut sets = SleepingSets::new(alloc);
    let count = contacts.number_bound();
    sets.reserve(count, bodies.len())?;
    for number in 0..count {
        add_contact(&mut sets, bodies, contacts, number as u32);
    }
    Ok(sets)
}

/// Lets the contact with a number wake or fall asleep as its bodies have.
fn follow_contact(
    sets: &mut SleepingSets,
    bodies: &[Option<Body>],
    contacts: &ContactTable,
    number: u32,
)
    requires below { (name : ℕ) → contact_sleep bodies.now contacts.now.numbered number ≡ Some name → number < length sets.old.names }
    requires named { (name : ℕ) → contact_sleep bodies.now contacts.now.numbered number ≡ Some name → name < length sets.old.sets }
    ensures names { sets.new.names ≡ followed (contact_sleep bodies.now contacts.now.numbered number) number sets.old.names }
    ensures sets { length sets.new.sets ≡ length sets.old.sets }
{
    follow(sets, number, contact_sleep(bodies, contacts, number));
}

/// Lets the contacts that have the body in a slot on one side wake or fall asleep as their bodies have.
fn follow_on(
    sets: &mut SleepingSets,
    bodies: &[Option<Body>],
    contacts: &ContactTable,
    side: Side,
    slot: u32,
)
    requires { CanFollow (sleep_at sets.old.names) (contact_sleep bodies.now contacts.now.numbered) (length sets.old.names) (length sets.old.sets) }
    ensures followed { HaveFollowed (contact_sleep bodies.now contacts.now.numbered) (λ number. slot_at side contacts.now.numbered number ≡ Some slot) sets.old.names sets.new.names }
    ensures sets { length sets.new.sets ≡ length sets.old.sets }
{
    let mut next = contacts.first_at(side, slot);
    while let Some(number) = next {
        follow_contact(sets, bodies, contacts, number);
        next = contacts.behind(side, number);
    }
}

/// The same of the contacts of the body in a slot.
fn follow_at(sets: &mut SleepingSets, bodies: &[Option<Body>], contacts: &ContactTable, slot: u32)
    requires { CanFollow (sleep_at sets.old.names) (contact_sleep bodies.now contacts.now.numbered) (length sets.old.names) (length sets.old.sets) }
    ensures followed { HaveFollowed (contact_sleep bodies.now contacts.now.numbered) (λ number. is_contact_end slot (contact_at contacts.now.numbered number) ≡ true) sets.old.names sets.new.names }
    ensures sets { length sets.new.sets ≡ length sets.old.sets }
{
    follow_on(sets, bodies, contacts, Side::First, slot);
    follow_on(sets, bodies, contacts, Side::Second, slot);
}

/// Lets the contacts of the bodies in these slots wake or fall asleep as these have; all others are where they are to
/// be.
pub fn follow_contacts(
    sets: &mut SleepingSets,
    bodies: &[Option<Body>],
    contacts: &ContactTable,
    slots: &[u32],
)
    requires can { CanFollow (sleep_at sets.old.names) (contact_sleep bodies.now contacts.now.numbered) (length sets.old.names) (length sets.old.sets) }
    requires others { (number : ℕ) → IsContactOfNone slots.now (contact_at contacts.now.numbered number) → contact_sleep bodies.now contacts.now.numbered number ≡ sleep_at sets.old.names number }
    ensures asleep { (number : ℕ) → sleep_at sets.new.names number ≡ contact_sleep bodies.now contacts.now.numbered number }
    ensures items { length sets.new.names ≡ length sets.old.names }
    ensures sets { length sets.new.sets ≡ length sets.old.sets }
{
    for place in 0..slots.len() {
        follow_at(sets, bodies, contacts, slots[place]);
    }
}
