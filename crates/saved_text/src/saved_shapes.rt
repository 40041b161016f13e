//! The shapes of a body, each with its fat box, written.

ghost use Rattle.std.specs.Prelude.{◌≡◌, OnOk};
ghost use Rattle.shapes.specs.declared.shape.Shape.TheVariants.{Capsule, Circle, Segment};
ghost use Rattle.world_file_base.specs.SavedShapes.{shape_of, shapes_of};
ghost use Rattle.world_file_base.specs.Written.{list_data};
ghost use Rattle.saved_text.specs.Tokens.{AddsValue};

use crate::leaves::Leaf;
use crate::members::put_object;
use fixed_geom::{Box2, Vec2};
use json::Writer;
use shapes::{Shape, ShapeDef};
use std::alloc::AllocError;
use world_file_base::lesser;

fn put_circle<'a>(
    out: &mut Writer,
    def: &'a ShapeDef,
    fat: Box2,
    center: Vec2,
    radius: &'a i64,
) -> Result<(), AllocError>
    ensures text { def.now.shape ≡ Circle center radius.now → OnOk result (AddsValue (shape_of def.now fat) out.old out.new) }
{
    put_object(
        out,
        &[
            ("category", Leaf::Natural(def.filter.category)),
            ("circle", Leaf::Vector(center)),
            ("fat", Leaf::Ends(fat.lo, fat.hi)),
            ("friction", Leaf::Integer(&def.friction)),
            ("group", Leaf::Group(&def.filter.group)),
            ("mask", Leaf::Natural(def.filter.mask)),
            ("radius", Leaf::Integer(radius)),
            ("restitution", Leaf::Integer(&def.restitution)),
        ],
    )
}

fn put_capsule<'a>(
    out: &mut Writer,
    def: &'a ShapeDef,
    fat: Box2,
    first: Vec2,
    second: Vec2,
    radius: &'a i64,
) -> Result<(), AllocError>
    ensures text { def.now.shape ≡ Capsule first second radius.now → OnOk result (AddsValue (shape_of def.now fat) out.old out.new) }
{
    put_object(
        out,
        &[
            ("capsule", Leaf::Ends(first, second)),
            ("category", Leaf::Natural(def.filter.category)),
            ("fat", Leaf::Ends(fat.lo, fat.hi)),
            ("friction", Leaf::Integer(&def.friction)),
            ("group", Leaf::Group(&def.filter.group)),
            ("mask", Leaf::Natural(def.filter.mask)),
            ("radius", Leaf::Integer(radius)),
            ("restitution", Leaf::Integer(&def.restitution)),
        ],
    )
}

fn put_segment(
    out: &mut Writer,
    def: &ShapeDef,
    fat: Box2,
    first: Vec2,
    second: Vec2,
) -> Result<(), AllocError>
    ensures text { def.now.shape ≡ Segment first second → OnOk result (AddsValue (shape_of def.now fat) out.old out.new) }
{
    put_object(
        out,
        &[
            ("category", Leaf::Natural(def.filter.category)),
            ("fat", Leaf::Ends(fat.lo, fat.hi)),
            ("friction", Leaf::Integer(&def.friction)),
            ("group", Leaf::Group(&def.filter.group)),
            ("mask", Leaf::Natural(def.filter.mask)),
            ("restitution", Leaf::Integer(&def.restitution)),
            ("segment", Leaf::Ends(first, second)),
        ],
    )
}

fn put_shape(out: &mut Writer, def: &ShapeDef, fat: Box2) -> Result<(), AllocError>
    ensures text { OnOk result (AddsValue (shape_of def.now fat) out.old out.new) }
{
    match &def.shape {
        Shape::Circle { center, radius } => put_circle(out, def, fat, *center, radius),
        Shape::Capsule {
            first,
            second,
            radius,
        } => put_capsule(out, def, fat, *first, *second, radius),
        Shape::Segment { first, second } => put_segment(out, def, fat, *first, *second),
    }
}

/// Writes shapes, each with its fat box.
pub(crate) fn put_shapes(
    out: &mut Writer,
    defs: &[ShapeDef],
    fats: &[Box2],
) -> Result<(), AllocError>
    ensures text { OnOk result (AddsValue (list_data (shapes_of defs.now fats.now)) out.old out.new) }
{
    out.begin_array()?;
    for place in 0..lesser(defs.len(), fats.len()) {
        put_shape(out, &defs[place], fats[place])?;
    }
    out.end_array()?;
    Ok(())
}
