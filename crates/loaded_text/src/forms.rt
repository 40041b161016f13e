//! A shape by its form.

ghost use Rattle.std.specs.Prelude.{◌≡◌, [], true, IfSome};
ghost use Rattle.world_file_base.specs.SavedShapes.{shape_in};
ghost use Rattle.world_file_base.specs.AskedShapes.{shape_asks};
ghost use Rattle.loaded_text.specs.Shapes.{IsSurround, surround_members};
ghost use Rattle.loaded_text.specs.Stands.{Holds, MembersStand};

use crate::leaves::{read_group, read_integer, read_natural};
use crate::text::Text;
use crate::vectors::{read_corners, read_ends, read_vector};
use fixed_geom::Box2;
use shapes::{Filter, Shape, ShapeDef};
use world_file_base::SavedShape;

/// What stands between the core of a shape and its radius.
#[derive(Clone, Copy)]
struct Surround {
    fat: Box2,
    friction: i64,
    group: i32,
    mask: u64,
}

fn read_surround(text: &mut Text) -> Option<Surround>
    ensures text { IfSome result (λ s. MembersStand true (surround_members s) text.old.rest.now text.new.rest.now) }
    ensures fits { IfSome result IsSurround }
{
    let fat = read_corners(text, b",\"fat\":")?;
    let friction = read_integer(text, b",\"friction\":")?;
    let group = read_group(text, b",\"group\":")?;
    let mask = read_natural(text, b",\"mask\":")?;
    Some(Surround {
        fat,
        friction,
        group,
        mask,
    })
}

/// A shape of this form.
fn shape_with(shape: Shape, category: u64, surround: Surround, restitution: i64) -> SavedShape
    ensures { result ≡ record { def = record { shape = shape; friction = surround.friction; restitution = restitution; filter = record { category = category; mask = surround.mask; group = surround.group } }; fat = surround.fat } }
{
    SavedShape {
        def: ShapeDef {
            shape,
            friction: surround.friction,
            restitution,
            filter: Filter {
                category,
                mask: surround.mask,
                group: surround.group,
            },
        },
        fat: surround.fat,
    }
}

fn read_circle(text: &mut Text) -> Option<SavedShape>
    ensures { IfSome result (λ shape. Holds [] shape_in shape_asks 3 shape text.old.rest.now text.new.rest.now) }
{
    text.expect(b"{")?;
    let category = read_natural(text, b"\"category\":")?;
    let center = read_vector(text, b",\"circle\":")?;
    let surround = read_surround(text)?;
    let radius = read_integer(text, b",\"radius\":")?;
    let restitution = read_integer(text, b",\"restitution\":")?;
    text.expect(b"}")?;
    let shape = Shape::Circle { center, radius };
    Some(shape_with(shape, category, surround, restitution))
}

fn read_capsule(text: &mut Text) -> Option<SavedShape>
    ensures { IfSome result (λ shape. Holds [] shape_in shape_asks 3 shape text.old.rest.now text.new.rest.now) }
{
    text.expect(b"{")?;
    let ends = read_ends(text, b"\"capsule\":")?;
    let category = read_natural(text, b",\"category\":")?;
    let surround = read_surround(text)?;
    let radius = read_integer(text, b",\"radius\":")?;
    let restitution = read_integer(text, b",\"restitution\":")?;
    text.expect(b"}")?;
    let shape = Shape::Capsule {
        first: ends.first,
        second: ends.second,
        radius,
    };
    Some(shape_with(shape, category, surround, restitution))
}

fn read_segment(text: &mut Text) -> Option<SavedShape>
    ensures { IfSome result (λ shape. Holds [] shape_in shape_asks 3 shape text.old.rest.now text.new.rest.now) }
{
    text.expect(b"{")?;
    let category = read_natural(text, b"\"category\":")?;
    let surround = read_surround(text)?;
    let restitution = read_integer(text, b",\"restitution\":")?;
    let ends = read_ends(text, b",\"segment\":")?;
    text.expect(b"}")?;
    let shape = Shape::Segment {
        first: ends.first,
        second: ends.second,
    };
    Some(shape_with(shape, category, surround, restitution))
}

/// A shape of any form.
pub(crate) fn read_shape(text: &mut Text) -> Option<SavedShape>
    ensures { IfSome result (λ shape. Holds [] shape_in shape_asks 3 shape text.old.rest.now text.new.rest.now) }
{
    let start = *text;
    if let Some(shape) = read_circle(text) {
        return Some(shape);
    }
    *text = start;
    if let Some(shape) = read_capsule(text) {
        return Some(shape);
    }
    *text = start;
    read_segment(text)
}
