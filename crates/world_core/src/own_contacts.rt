//! The contacts of one body: which constraints they are.

ghost use Rattle.std.specs.Prelude.{◌≡◌, ◌++◌, List, IfOk, OnOk};
ghost use Rattle.std.specs.List.{filter_map};
ghost use Rattle.std.specs.List.Sorted.{IsPermutation};
ghost use Rattle.std.specs.Result.{IsOkUnless};
ghost use Rattle.plain_world.specs.Constraints.{constraint_number};
ghost use Rattle.plain_world.specs.declared.constraint.Constraint.{Constraint as TheConstraint};
ghost use Rattle.contacts.specs.Kept.{numbers_on};
ghost use Rattle.contacts.specs.Numbered.{AreEndsAt};
ghost use Rattle.contacts_base.specs.Contacts.{AreKeysRising};
ghost use Rattle.graph_colours.specs.Members.{AreRising};
ghost use Rattle.graph_colours.specs.declared.member.Member.{Member as TheMember};
ghost use Rattle.packed_sets.specs.Packs.{list_at};
ghost use Rattle.packed_sets.specs.Once.{AreOnce};
ghost use Rattle.world_core.specs.WorldTies.{AreOfTwo, contact_tie_in, contact_ties_at, tie_of_contact};

use contacts::{ContactTable, NumberedContact, Side};
use fixed_geom::Refusal;
use graph_colours::{ConstraintId, Member};
use plain_world::{Body, Constraint};
use sleep_wake::push_some;
use solver_sets::{contact_movers, tie_with};
use std::alloc::Global;

/// The tie of a contact, if there is one and it touches.
pub(crate) fn contact_tie(
    bodies: &[Option<Body>],
    contact: Option<NumberedContact>,
) -> Option<Member<Constraint>>
    ensures { result ≡ tie_of_contact bodies.now contact }
{
    match contact {
        None => None,
        Some(contact) => {
            if contact.touching {
                tie_with(
                    Constraint::Contact(contact.key),
                    contact_movers(bodies, contact.key),
                )
            } else {
                None
            }
        }
    }
}

/// Adds the ties of the contacts that have the body in a slot on one side.
fn push_ties_on(
    ties: &mut Vec<Member<Constraint>>,
    bodies: &[Option<Body>],
    contacts: &ContactTable,
    side: Side,
    slot: u32,
) -> Result<(), Refusal>
    ensures items { OnOk result (ties.new.items ≡ ties.old.items ++ filter_map (contact_tie_in bodies.now contacts.now.numbered) (list_at (numbers_on side contacts.now) slot)) }
    ensures ends { AreEndsAt side contacts.now.numbered slot (list_at (numbers_on side contacts.now) slot) }
    ensures once { AreOnce (list_at (numbers_on side contacts.now) slot) }
    ensures memory_only { IsOkUnless result Refusal.NoMemory }
{
    let mut next = contacts.first_at(side, slot);
    while let Some(number) = next {
        push_some(ties, contact_tie(bodies, contacts.contact(number)))?;
        next = contacts.behind(side, number);
    }
    Ok(())
}

/// Puts ties in the order of their numbers.
fn put_in_order(ties: &mut Vec<Member<Constraint>>)
    ensures { (rising : List (TheMember TheConstraint)) → AreRising constraint_number rising → IsPermutation rising ties.old.items → ties.new.items ≡ rising }
{
    ties.sort_unstable_by_key(|tie| tie.id.number());
}

/// The ties of the contacts of the body in a slot, ascending. Costs by how many contacts it has.
pub(crate) fn contact_ties(
    alloc: Global,
    bodies: &[Option<Body>],
    contacts: &ContactTable,
    slot: u32,
) -> Result<Vec<Member<Constraint>>, Refusal>
    requires rising { AreKeysRising contacts.now.contacts }
    requires two { AreOfTwo contacts.now.contacts }
    ensures ties { IfOk result (λ ties. ties.items ≡ contact_ties_at slot bodies.now contacts.now.contacts) }
    ensures memory_only { IsOkUnless result Refusal.NoMemory }
{
    contacts.know_numbered();
    let mut ties = Vec::new(alloc);
    push_ties_on(&mut ties, bodies, contacts, Side::First, slot)?;
    push_ties_on(&mut ties, bodies, contacts, Side::Second, slot)?;
    put_in_order(&mut ties);
    Ok(ties)
}
