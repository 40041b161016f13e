//! Pairs of numbers, and pairs of these. Each stands after `lead`.

ghost use Rattle.std.specs.Prelude.{◌≡◌, ◌^◌, IfSome};
ghost use Rattle.fixed_geom.specs.Boxes.{IsBoxWithin};
ghost use Rattle.fixed_geom.specs.Facings.{IsFacing};
ghost use Rattle.fixed_geom.specs.Vectors.{IsWithin};
ghost use Rattle.world_file_base.specs.Written.{corners_of, ends_of, vector_of};
ghost use Rattle.saved_text.specs.Leaves.{facing_of};
ghost use Rattle.loaded_text.specs.Stands.{IsSignedVector, Stands};

use crate::leaves::read_integer;
use crate::text::Text;
use fixed_geom::{Box2, Rot, Vec2, is_facing, is_within};
use world_file_base::MAX_CORNER;

/// The ends of a core.
#[derive(Clone, Copy)]
pub(crate) struct CoreEnds {
    pub(crate) first: Vec2,
    pub(crate) second: Vec2,
}

pub(crate) fn read_vector(text: &mut Text, lead: &[u8]) -> Option<Vec2>
    ensures text { IfSome result (λ v. Stands lead.now (vector_of v) text.old.rest.now text.new.rest.now) }
    ensures signed { IfSome result IsSignedVector }
{
    text.expect(lead)?;
    let x = read_integer(text, b"[")?;
    let y = read_integer(text, b",")?;
    text.expect(b"]")?;
    Some(Vec2 { x, y })
}

/// Two numbers of sizes up to `most`.
pub(crate) fn read_vector_within(text: &mut Text, lead: &[u8], most: u64) -> Option<Vec2>
    ensures text { IfSome result (λ v. Stands lead.now (vector_of v) text.old.rest.now text.new.rest.now) }
    ensures within { IfSome result (IsWithin most) }
{
    let vector = read_vector(text, lead)?;
    if is_within(vector, most) {
        Some(vector)
    } else {
        None
    }
}

pub(crate) fn read_facing(text: &mut Text, lead: &[u8]) -> Option<Rot>
    ensures text { IfSome result (λ rot. Stands lead.now (facing_of rot) text.old.rest.now text.new.rest.now) }
    ensures facing { IfSome result IsFacing }
{
    let vector = read_vector(text, lead)?;
    let rot = Rot {
        c: vector.x,
        s: vector.y,
    };
    if is_facing(rot) { Some(rot) } else { None }
}

/// Two places of any coordinates.
pub(crate) fn read_ends(text: &mut Text, lead: &[u8]) -> Option<CoreEnds>
    ensures text { IfSome result (λ ends. Stands lead.now (ends_of ends.first ends.second) text.old.rest.now text.new.rest.now) }
    ensures first { IfSome result (λ ends. IsSignedVector ends.first) }
    ensures second { IfSome result (λ ends. IsSignedVector ends.second) }
{
    text.expect(lead)?;
    let first = read_vector(text, b"[")?;
    let second = read_vector(text, b",")?;
    text.expect(b"]")?;
    Some(CoreEnds { first, second })
}

/// A fat box by its two corners.
pub(crate) fn read_corners(text: &mut Text, lead: &[u8]) -> Option<Box2>
    ensures text { IfSome result (λ corners. Stands lead.now (corners_of corners) text.old.rest.now text.new.rest.now) }
    ensures within { IfSome result (IsBoxWithin (2 ^ 37)) }
{
    text.expect(lead)?;
    let lo = read_vector_within(text, b"[", MAX_CORNER)?;
    let hi = read_vector_within(text, b",", MAX_CORNER)?;
    text.expect(b"]")?;
    Some(Box2 { lo, hi })
}
