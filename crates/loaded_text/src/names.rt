//! Names of bodies and of shapes, and of kinds. Each stands after `lead`.

ghost use Rattle.std.specs.Prelude.{◌<◌, ◌^◌, IfSome};
ghost use Rattle.serde_json.specs.Data.{string};
ghost use Rattle.world_file_base.specs.SavedBodies.{kind_name};
ghost use Rattle.world_file_base.specs.SavedContacts.{shape_id_of};
ghost use Rattle.world_file_base.specs.Written.{id_of};
ghost use Rattle.loaded_text.specs.Stands.{Stands};

use crate::leaves::{read_count, read_index};
use crate::text::Text;
use body_handles::Handle;
use contacts_base::ShapeId;
use plain_world::{Kind, NO_COURSE};

/// The id of a body.
pub(crate) fn read_handle(text: &mut Text, lead: &[u8]) -> Option<Handle>
    ensures text { IfSome result (λ handle. Stands lead.now (id_of handle) text.old.rest.now text.new.rest.now) }
    ensures slot { IfSome result (λ handle. handle.slot < 2 ^ 32) }
    ensures generation { IfSome result (λ handle. handle.generation < 2 ^ 32) }
{
    text.expect(lead)?;
    let slot = read_count(text, b"\"")?;
    let generation = read_count(text, b".")?;
    text.expect(b"\"")?;
    Some(Handle { slot, generation })
}

/// The slot of a body, and the place of a shape among the body's.
pub(crate) fn read_shape_id(text: &mut Text, lead: &[u8]) -> Option<ShapeId>
    ensures text { IfSome result (λ id. Stands lead.now (shape_id_of id) text.old.rest.now text.new.rest.now) }
    ensures slot { IfSome result (λ id. id.slot < 2 ^ 32) }
    ensures index { IfSome result (λ id. id.index < 256) }
{
    text.expect(lead)?;
    let slot = read_count(text, b"[")?;
    let index = read_index(text, b",")?;
    text.expect(b"]")?;
    Some(ShapeId { slot, index })
}

/// A kind, which has no course yet.
pub(crate) fn read_kind(text: &mut Text, lead: &[u8]) -> Option<Kind>
    ensures { IfSome result (λ kind. Stands lead.now (string (kind_name kind)) text.old.rest.now text.new.rest.now) }
{
    text.expect(lead)?;
    if text.take(b"\"dynamic\"") {
        return Some(Kind::Dynamic);
    }
    if text.take(b"\"static\"") {
        return Some(Kind::Static);
    }
    text.expect(b"\"kinematic\"")?;
    Some(Kind::Kinematic(NO_COURSE))
}
