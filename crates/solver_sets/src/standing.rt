//! The solver set in which a joint or a contact stands.

ghost use Rattle.std.specs.Prelude.{◌≡◌, cond};
ghost use Rattle.plain_world.specs.Changes.{is_awake_in};
ghost use Rattle.plain_world.specs.Slots.{body_at};
ghost use Rattle.solver_sets.specs.Census.{mover_set, set_with, standing_apart, standing_between, standing_of_contact, standing_of_joint};

use crate::ties::is_enabled;
use contacts_base::{ContactEntry, ContactKey};
use plain_world::{Body, BodyJoint, SetName, item_at};

/// The set in which the mover in a slot stands.
fn mover_set(bodies: &[Option<Body>], slot: u32) -> Option<SetName>
    ensures { result ≡ mover_set (body_at bodies.now slot) }
{
    match item_at(bodies, slot as usize) {
        None => None,
        Some(body) => {
            if body.is_mover() {
                Some(body.standing())
            } else {
                None
            }
        }
    }
}

/// The set of the movers of two bodies; the static one where neither is a mover.
fn set_with(first: Option<SetName>, second: Option<SetName>) -> SetName
    ensures { result ≡ set_with first second }
{
    match (first, second) {
        (Some(set), _) => set,
        (None, Some(set)) => set,
        (None, None) => SetName::Static,
    }
}

/// The set of what ties two bodies together.
fn standing_between(bodies: &[Option<Body>], a: u32, b: u32) -> SetName
    ensures { result ≡ standing_between bodies.now a b }
{
    if is_enabled(bodies, a) && is_enabled(bodies, b) {
        set_with(mover_set(bodies, a), mover_set(bodies, b))
    } else {
        SetName::Disabled
    }
}

/// The set in which a joint stands: that of its movers, the static one where neither end is a mover, the disabled one
/// where an end is disabled.
pub fn standing_of_joint(bodies: &[Option<Body>], joint: &BodyJoint) -> SetName
    ensures { result ≡ standing_of_joint bodies.now joint.now }
{
    standing_between(bodies, joint.a, joint.b)
}

/// Whether an awake mover is in the slot.
fn is_awake_at(bodies: &[Option<Body>], slot: u32) -> bool
    ensures { result ≡ is_awake_in (body_at bodies.now slot) }
{
    match item_at(bodies, slot as usize) {
        None => false,
        Some(body) => body.is_awake(),
    }
}

/// The set of a contact that doesn't touch.
fn standing_apart(bodies: &[Option<Body>], a: u32, b: u32) -> SetName
    ensures { result ≡ standing_apart bodies.now a b }
{
    if is_awake_at(bodies, a) || is_awake_at(bodies, b) {
        SetName::Awake
    } else {
        SetName::Disabled
    }
}

/// The set in which a contact with this key stands: that of its movers where it touches; else the awake one beside an
/// awake mover, and the disabled one without.
pub fn standing_by_key(bodies: &[Option<Body>], key: ContactKey, touching: bool) -> SetName
    ensures { result ≡ cond touching (standing_between bodies.now key.first.slot key.second.slot) (standing_apart bodies.now key.first.slot key.second.slot) }
{
    let (a, b) = (key.first.slot, key.second.slot);
    if touching {
        standing_between(bodies, a, b)
    } else {
        standing_apart(bodies, a, b)
    }
}

/// The set in which a contact stands.
pub fn standing_of_contact(bodies: &[Option<Body>], entry: &ContactEntry) -> SetName
    ensures { result ≡ standing_of_contact bodies.now entry.now }
{
    standing_by_key(bodies, entry.key, entry.contact.is_touching())
}
