//! Which pairs of bodies joints keep from colliding: the joints of one of the two bodies tell it.

ghost use Rattle.std.specs.Prelude.{◌≡◌};
ghost use Rattle.std.specs.Option.{option_copied};
ghost use Rattle.world_core_base.specs.ForbiddenPairs.{is_of, keeps_apart, one_keeps_apart};

use contacts_base::BodyPair;
use plain_world::{BodyJoint, item_at};

/// Whether a pair, if there is one, is of the bodies in these two slots.
fn is_of(pair: Option<BodyPair>, a: u32, b: u32) -> bool
    ensures { result ≡ is_of a b pair }
{
    match pair {
        None => false,
        Some(pair) => pair.is_of(a, b),
    }
}

/// Whether a joint, if there is one, keeps the two bodies from colliding.
fn keeps_apart(joint: Option<&BodyJoint>, a: u32, b: u32) -> bool
    ensures { result ≡ keeps_apart a b (option_copied joint.entry) }
{
    match joint {
        None => false,
        Some(joint) => is_of(joint.forbidden_pair(), a, b),
    }
}

/// Whether one of the joints with these ends does.
fn one_keeps_apart(joints: &[Option<BodyJoint>], ends: &[u32], a: u32, b: u32) -> bool
    ensures { result ≡ one_keeps_apart joints.now a b ends.now }
{
    for place in 0..ends.len() {
        if keeps_apart(item_at(joints, (ends[place] / 2) as usize), a, b) {
            return true;
        }
    }
    false
}

/// The same, where the joints with some other ends tell the same: those are asked if they are fewer.
pub(crate) fn either_keeps_apart(
    joints: &[Option<BodyJoint>],
    ends: &[u32],
    others: &[u32],
    a: u32,
    b: u32,
) -> bool
    requires { one_keeps_apart joints.now a b others.now ≡ one_keeps_apart joints.now a b ends.now }
    ensures { result ≡ one_keeps_apart joints.now a b ends.now }
{
    let fewer = if others.len() < ends.len() {
        others
    } else {
        ends
    };
    one_keeps_apart(joints, fewer, a, b)
}
