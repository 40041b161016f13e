//! Which movers are joined to a body.

ghost use Rattle.std.specs.Prelude.{◌≡◌, IfOk};
ghost use Rattle.std.specs.Option.{option_copied};
ghost use Rattle.std.specs.Result.{IsOkUnless};
ghost use Rattle.solver_sets.specs.Beside.{joined_by, joined_to, mover_at, mover_beside};

use crate::ties::is_mover_at;
use fixed_geom::Refusal;
use plain_world::{Body, BodyJoint, item_at};
use sleep_wake::push_some;
use std::alloc::Global;

fn mover_at(bodies: &[Option<Body>], slot: u32) -> Option<u32>
    ensures { result ≡ mover_at bodies.now slot }
{
    if is_mover_at(bodies, slot) {
        Some(slot)
    } else {
        None
    }
}

/// Of two bodies that are beside one another, the mover that is beside the one in the slot.
fn mover_beside(bodies: &[Option<Body>], slot: u32, a: u32, b: u32) -> Option<u32>
    ensures { result ≡ mover_beside bodies.now slot a b }
{
    if a == slot {
        mover_at(bodies, b)
    } else if b == slot {
        mover_at(bodies, a)
    } else {
        None
    }
}

/// The mover that a joint, if there is one, joins to the body in the slot.
fn joined_by(bodies: &[Option<Body>], slot: u32, joint: Option<&BodyJoint>) -> Option<u32>
    ensures { result ≡ joined_by bodies.now slot (option_copied joint.entry) }
{
    match joint {
        None => None,
        Some(joint) => mover_beside(bodies, slot, joint.a, joint.b),
    }
}

/// The movers at the other ends of the joints of the body in a slot, in the order of the joints' slots.
#[tactic(auto, unfolding(crate::specs::Beside::joined_to))]
pub fn list_joined(
    alloc: Global,
    bodies: &[Option<Body>],
    joints: &[Option<BodyJoint>],
    slot: u32,
) -> Result<Vec<u32>, Refusal>
    ensures slots { IfOk result (λ slots. slots.items ≡ joined_to bodies.now joints.now slot) }
    ensures memory_only { IsOkUnless result Refusal.NoMemory }
{
    let mut slots = Vec::new(alloc);
    for joint in joints {
        push_some(&mut slots, joined_by(bodies, slot, joint.as_ref()))?;
    }
    Ok(slots)
}
