//! A whole saved world.

ghost use Rattle.std.specs.Prelude.{IfSome, MatchResult};
ghost use Rattle.loaded_text.specs.Worlds.{IsEmpty, IsReadOf, IsRefusedOf, IsSavedText, WorldStands};

use crate::body_slots::add_bodies;
use crate::canonical::canonical_text;
use crate::heads::are_heads_fitting;
use crate::joint_slots::add_joints;
use crate::leaves::read_natural;
use crate::saved_contacts::add_contacts;
use crate::text::Text;
use crate::totals::read_totals;
use crate::vectors::read_vector_within;
use fixed_geom::ZERO_VECTOR;
use impulse_ledger::{Total, Totals};
use momenta::MAX_GRAVITY;
use plain_world::Plain;
use std::alloc::Global;
use world_file::{Broken, Saved, fit};
use world_file_base::{SavedBodies, SavedJoints};

const NO_TOTAL: Total = Total { x: 0, y: 0 };

/// A saved world of which nothing is read yet.
fn nothing_yet(alloc: Global) -> Saved
    ensures { IsEmpty result }
{
    Saved {
        bodies: SavedBodies {
            slot_entries: Vec::new(alloc),
            bodies: Vec::new(alloc),
            memberships: Vec::new(alloc),
        },
        joints: SavedJoints {
            slot_entries: Vec::new(alloc),
            joints: Vec::new(alloc),
        },
        contacts: Vec::new(alloc),
        totals: Totals {
            command: NO_TOTAL,
            gravity: NO_TOTAL,
            immovable: NO_TOTAL,
            clamp: NO_TOTAL,
            rest: NO_TOTAL,
            departed: NO_TOTAL,
        },
        gravity: ZERO_VECTOR,
        steps: 0,
        calls: 0,
    }
}

/// Reads the members of a saved world.
fn read_members(text: &mut Text, alloc: Global, saved: &mut Saved) -> Option<()>
    ensures { IfSome result (λ _. IsEmpty saved.old → WorldStands saved.new text.old.rest.now text.new.rest.now) }
{
    text.expect(b"{")?;
    add_bodies(text, b"\"bodies\":", alloc, &mut saved.bodies)?;
    saved.calls = read_natural(text, b",\"call\":")?;
    add_contacts(text, b",\"contacts\":", &mut saved.contacts)?;
    saved.gravity = read_vector_within(text, b",\"gravity\":", MAX_GRAVITY.unsigned_abs())?;
    add_joints(text, b",\"joints\":", &mut saved.joints)?;
    saved.totals = read_totals(text, b",\"ledger\":")?;
    saved.steps = read_natural(text, b",\"step\":")?;
    text.expect(b",\"version\":2}")
}

/// Reads a whole text.
fn read_all(text: &[u8], alloc: Global, saved: &mut Saved) -> Option<()>
    ensures { IfSome result (λ _. IsEmpty saved.old → IsSavedText text.now saved.new) }
{
    let mut rest = Text { rest: text };
    read_members(&mut rest, alloc, saved)?;
    if rest.rest.is_empty()
        && are_heads_fitting(saved.calls, saved.steps, saved.bodies.bodies.as_slice())
    {
        Some(())
    } else {
        None
    }
}

/// What a text saves, if it is one that is written of a world.
fn saved_of(alloc: Global, text: &[u8]) -> Option<Saved>
    ensures { IfSome result (IsSavedText text.now) }
{
    let mut saved = nothing_yet(alloc);
    read_all(text, alloc, &mut saved)?;
    Some(saved)
}

/// What a text saves, if one that says the same as saves write it is one that is written of a world.
fn saved_otherwise(alloc: Global, text: &[u8]) -> Option<Saved>
    ensures { IfSome result (IsSavedText text.now) }
{
    let written = canonical_text(alloc, text)?;
    if written.as_slice() == text {
        return None;
    }
    saved_of(alloc, written.as_slice())
}

fn saved_in(alloc: Global, text: &[u8]) -> Option<Saved>
    ensures { IfSome result (IsSavedText text.now) }
{
    if let Some(saved) = saved_of(alloc, text) {
        return Some(saved);
    }
    saved_otherwise(alloc, text)
}

/// The world that a text saves, and the totals of its ledger, if the text says in JSON what is written of a world: in
/// version 2, its numbers within their limits. Spaces may stand between its parts, and the keys of each object in any
/// order. The first of the clauses is answered that its parts break together. Nothing is answered of another text, nor
/// of one with escapes or a key twice in one object, nor where memory was wanting before the text's end.
pub fn read_text(alloc: Global, text: &[u8]) -> Option<Result<(Plain, Totals), Broken>>
    ensures { IfSome result (λ answer. MatchResult answer (IsReadOf text.now) (IsRefusedOf text.now)) }
{
    let saved = saved_in(alloc, text)?;
    Some(fit(alloc, saved))
}
