//! A joint, read.

ghost use Rattle.std.specs.Prelude.{◌≡◌, IfSome};
ghost use Rattle.world_file_base.specs.SavedJoints.{joint_in};
ghost use Rattle.world_file_base.specs.AskedSlots.{joint_asks};
ghost use Rattle.world_file_base.specs.declared.version.Version.TheVariants.{Second};
ghost use Rattle.loaded_text.specs.Stands.{Holds};

use crate::leaves::{read_colour, read_nonnegative, read_size, read_truth};
use crate::names::read_handle;
use crate::text::Text;
use crate::vectors::read_vector_within;
use body_handles::Handle;
use joint_rows::{Joint, MAX_ANCHOR, MAX_JOINT_IMPULSE, MAX_JOINT_LENGTH};
use plain_world::BodyJoint;
use world_file_base::SavedJoint;

/// A joint of bodies with these ids.
fn joint_with(a: Handle, b: Handle, collide: bool, colour: Option<u8>, joint: Joint) -> SavedJoint
    ensures { result ≡ record { a = a; b = b; joint = record { a = a.slot; b = b.slot; collide = collide; joint = joint }; colour = colour } }
{
    SavedJoint {
        a,
        b,
        joint: BodyJoint {
            a: a.slot,
            b: b.slot,
            collide,
            joint,
        },
        colour,
    }
}

pub(crate) fn read_joint(text: &mut Text, lead: &[u8]) -> Option<SavedJoint>
    ensures { IfSome result (λ joint. Holds lead.now (joint_in Second) (joint_asks Second) 2 joint text.old.rest.now text.new.rest.now) }
{
    text.expect(lead)?;
    text.expect(b"{")?;
    let a = read_handle(text, b"\"a\":")?;
    let b = read_handle(text, b",\"b\":")?;
    let collide = read_truth(text, b",\"collide\":")?;
    let colour = read_colour(text, b",\"colour\":")?;
    let from = read_vector_within(text, b",\"from\":", MAX_ANCHOR.unsigned_abs())?;
    let impulse = read_size(text, b",\"impulse\":", MAX_JOINT_IMPULSE.unsigned_abs())?;
    let length = read_nonnegative(text, b",\"length\":", MAX_JOINT_LENGTH.unsigned_abs())?;
    let to = read_vector_within(text, b",\"to\":", MAX_ANCHOR.unsigned_abs())?;
    text.expect(b"}")?;
    let joint = Joint {
        from,
        to,
        length,
        impulse,
    };
    Some(joint_with(a, b, collide, colour, joint))
}
