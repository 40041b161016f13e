//! The contacts that begin and end to touch in a collide, as one list of changes.

ghost use Rattle.std.specs.Prelude.{◌≡◌, ◌≤◌, ◌++◌, IfOk, OnOk, length, drop, option_map};
ghost use Rattle.std.specs.Result.{IsOkUnless};
ghost use Rattle.contacts_base.specs.ChangedKeys.{AreRising};
ghost use Rattle.solver_sets.specs.Merging.{all_ends, begin_of, end_of, ends_from, ends_until, key_tie, merged};
ghost use Rattle.solver_sets.specs.Ties.{key_changes};

use crate::ties::{contact_movers, tie_with};
use contacts_base::ContactKey;
use fixed_geom::Refusal;
use graph_colours::Member;
use plain_world::{Body, Constraint};
use sleep_wake::{Change, push_some};
use std::alloc::Global;

/// The contact with this key as a tie, if it has movers.
fn key_tie(bodies: &[Option<Body>], key: ContactKey) -> Option<Member<Constraint>>
    ensures { result ≡ key_tie bodies.now key }
{
    tie_with(Constraint::Contact(key), contact_movers(bodies, key))
}

fn end_of(bodies: &[Option<Body>], key: ContactKey) -> Option<Change<Constraint>>
    ensures { result ≡ end_of bodies.now key }
{
    match key_tie(bodies, key) {
        None => None,
        Some(tie) => Some(Change::End(tie)),
    }
}

fn begin_of(bodies: &[Option<Body>], key: ContactKey) -> Option<Change<Constraint>>
    ensures { result ≡ begin_of bodies.now key }
{
    match key_tie(bodies, key) {
        None => None,
        Some(tie) => Some(Change::Begin(tie)),
    }
}

/// Adds the ends that come before the key, from this place on. Answers the place of the next.
fn push_ends_until(
    changes: &mut Vec<Change<Constraint>>,
    bodies: &[Option<Body>],
    ends: &[ContactKey],
    from: usize,
    key: ContactKey,
) -> Result<usize, Refusal>
    requires { from ≤ length ends.now }
    ensures pushed { OnOk result (changes.new.items ≡ changes.old.items ++ ends_until bodies.now key (drop from ends.now)) }
    ensures left { IfOk result (λ place. drop place ends.now ≡ ends_from key (drop from ends.now)) }
    ensures within { IfOk result (λ place. place ≤ length ends.now) }
    ensures memory_only { IsOkUnless result Refusal.NoMemory }
{
    for place in from..ends.len() {
        if key.number() <= ends[place].number() {
            return Ok(place);
        }
        push_some(changes, end_of(bodies, ends[place]))?;
    }
    Ok(ends.len())
}

/// Adds all ends from this place on.
fn push_ends(
    changes: &mut Vec<Change<Constraint>>,
    bodies: &[Option<Body>],
    ends: &[ContactKey],
    from: usize,
) -> Result<(), Refusal>
    requires { from ≤ length ends.now }
    ensures pushed { OnOk result (changes.new.items ≡ changes.old.items ++ all_ends bodies.now (drop from ends.now)) }
    ensures memory_only { IsOkUnless result Refusal.NoMemory }
{
    for place in from..ends.len() {
        push_some(changes, end_of(bodies, ends[place]))?;
    }
    Ok(())
}

/// The contacts that begin and those that end to touch, in one list that ascends by key.
pub fn list_changes(
    alloc: Global,
    bodies: &[Option<Body>],
    begins: &[ContactKey],
    ends: &[ContactKey],
) -> Result<Vec<Change<Constraint>>, Refusal>
    requires begins { AreRising begins.now }
    requires ends { AreRising ends.now }
    ensures changes { IfOk result (λ changes. changes.items ≡ key_changes bodies.now begins.now ends.now) }
    ensures memory_only { IsOkUnless result Refusal.NoMemory }
{
    let mut changes = Vec::new(alloc);
    let mut place = 0;
    for key in begins {
        place = push_ends_until(&mut changes, bodies, ends, place, *key)?;
        push_some(&mut changes, begin_of(bodies, *key))?;
    }
    push_ends(&mut changes, bodies, ends, place)?;
    Ok(changes)
}
