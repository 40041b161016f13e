//! The movers of joints and contacts, and what constraint each is.

ghost use Rattle.std.specs.Prelude.{◌≡◌, ◌&&◌};
ghost use Rattle.plain_world.specs.Bodies.{moves};
ghost use Rattle.solver_sets.specs.Ties.{contact_movers, is_enabled, joint_movers, movers_if, movers_with, tie_with};

use body_handles::Handle;
use contacts_base::ContactKey;
use graph_colours::{Member, Movers};
use plain_world::{Body, BodyJoint, Constraint, item_at};

/// Whether a mover is in the slot.
pub fn is_mover_at(bodies: &[Option<Body>], slot: u32) -> bool
    ensures { result ≡ moves bodies.now slot }
{
    match item_at(bodies, slot as usize) {
        None => false,
        Some(body) => body.is_mover(),
    }
}

/// Whether an enabled body is in the slot.
pub(crate) fn is_enabled(bodies: &[Option<Body>], slot: u32) -> bool
    ensures { result ≡ is_enabled bodies.now slot }
{
    match item_at(bodies, slot as usize) {
        None => false,
        Some(body) => body.enabled,
    }
}

/// The movers of two bodies, of which it is known whether they move; `None` where neither does.
fn movers_if(a_moves: bool, b_moves: bool, a: u32, b: u32) -> Option<Movers>
    ensures { result ≡ movers_if a_moves b_moves a b }
{
    match (a_moves, b_moves) {
        (true, true) => Some(Movers {
            first: a,
            second: Some(b),
        }),
        (true, false) => Some(Movers {
            first: a,
            second: None,
        }),
        (false, true) => Some(Movers {
            first: b,
            second: None,
        }),
        (false, false) => None,
    }
}

/// Of the bodies in two slots those that are movers. `None` where neither is, and where one of the two isn't enabled.
pub fn movers_with(bodies: &[Option<Body>], a: u32, b: u32) -> Option<Movers>
    ensures { result ≡ movers_with bodies.now a b }
{
    if is_enabled(bodies, a) && is_enabled(bodies, b) {
        movers_if(is_mover_at(bodies, a), is_mover_at(bodies, b), a, b)
    } else {
        None
    }
}

/// The movers at the ends of a joint.
pub fn joint_movers(bodies: &[Option<Body>], joint: &BodyJoint) -> Option<Movers>
    ensures { result ≡ joint_movers bodies.now joint.now }
{
    movers_with(bodies, joint.a, joint.b)
}

/// The movers of the contact with this key.
pub fn contact_movers(bodies: &[Option<Body>], key: ContactKey) -> Option<Movers>
    ensures { result ≡ contact_movers bodies.now key }
{
    movers_with(bodies, key.first.slot, key.second.slot)
}

/// A constraint with its movers, if it has any.
pub fn tie_with(id: Constraint, movers: Option<Movers>) -> Option<Member<Constraint>>
    ensures { result ≡ tie_with id movers }
{
    match movers {
        None => None,
        Some(movers) => Some(Member { id, movers }),
    }
}

/// The constraint that a joint is, with its movers, if it has any.
#[inline(always)]
pub fn joint_tie(
    bodies: &[Option<Body>],
    handle: Handle,
    joint: &BodyJoint,
) -> Option<Member<Constraint>>
    ensures { result ≡ tie_with (Constraint.Joint handle) (joint_movers bodies.now joint.now) }
{
    tie_with(Constraint::Joint(handle), joint_movers(bodies, joint))
}
