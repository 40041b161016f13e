//! The shapes of a saved body, each with its fat box.

ghost use Rattle.std.specs.Prelude.{◌≡◌, IfOk, OnOk, codes};
ghost use Rattle.std.specs.Result.{IsOkUnless};
ghost use Rattle.serde_json.specs.Find.{get};
ghost use Rattle.world_file_base.specs.Reading.{first_in, seen, second_item, vector_in};
ghost use Rattle.world_file_base.specs.SavedShapes.{
  capsule_in,
  circle_in,
  form_in,
  long_form,
  round_form,
  segment_in,
  shape_in,
  shape_of,
  with_form,
};
ghost use Rattle.world_file_base.specs.AskedShapes.{
  capsule_asks,
  circle_asks,
  core_asks,
  form_asks,
  long_asks,
  round_asks,
  segment_asks,
  shape_asks,
};
ghost use Rattle.world_file_base.specs.Written.{written};
ghost use Rattle.serde_json.specs.View.{view};

use crate::clause::Clause;
use crate::members::{Members, corners_value, ends_value};
use crate::reader::Reader;
use crate::values::{field, has_keys, item_at};
use fixed_geom::{Box2, Refusal, Vec2};
use serde_json::Value;
use shapes::{Filter, Shape, ShapeDef};
use std::alloc::Global;

/// The greatest size of a coordinate of a fat box, in u.
pub const MAX_CORNER: u64 = fixed_geom::MAX_CORNER as u64;

/// The two ends of a core.
#[derive(Clone, Copy)]
struct Ends {
    first: Vec2,
    second: Vec2,
}

/// Two places of any coordinates.
fn read_ends(reader: &mut Reader, value: Option<&Value>) -> Ends
    ensures first { result.first ≡ vector_in (first_in (seen value.entry)) }
    ensures second { result.second ≡ vector_in (second_item (seen value.entry)) }
    ensures asked { reader.new ≡ core_asks (seen value.entry) reader.old }
{
    let items = reader.pair(value);
    Ends {
        first: reader.vector(item_at(items, 0)),
        second: reader.vector(item_at(items, 1)),
    }
}

fn read_capsule(reader: &mut Reader, value: &Value, core: &Value) -> Shape
    ensures value { result ≡ capsule_in (view core.now) (view value.now) }
    ensures asked { reader.new ≡ capsule_asks (view core.now) (view value.now) reader.old }
{
    let ends = read_ends(reader, Some(core));
    let radius = reader.number(field(value, "radius"));
    reader.ask(has_keys(value, 8), Clause::Form);
    Shape::Capsule {
        first: ends.first,
        second: ends.second,
        radius,
    }
}

fn read_circle(reader: &mut Reader, value: &Value, core: &Value) -> Shape
    ensures value { result ≡ circle_in (view core.now) (view value.now) }
    ensures asked { reader.new ≡ circle_asks (view core.now) (view value.now) reader.old }
{
    let center = reader.vector(Some(core));
    let radius = reader.number(field(value, "radius"));
    reader.ask(has_keys(value, 8), Clause::Form);
    Shape::Circle { center, radius }
}

fn read_segment(reader: &mut Reader, value: &Value) -> Shape
    ensures value { result ≡ segment_in (get (codes "segment") (view value.now)) }
    ensures asked { reader.new ≡ segment_asks (view value.now) reader.old }
{
    let ends = read_ends(reader, field(value, "segment"));
    reader.ask(has_keys(value, 7), Clause::Form);
    Shape::Segment {
        first: ends.first,
        second: ends.second,
    }
}

/// A circle, or else a segment.
fn read_round(reader: &mut Reader, value: &Value, circle: Option<&Value>) -> Shape
    ensures value { result ≡ round_form (seen circle.entry) (view value.now) }
    ensures asked { reader.new ≡ round_asks (seen circle.entry) (view value.now) reader.old }
{
    match circle {
        Some(core) => read_circle(reader, value, core),
        None => read_segment(reader, value),
    }
}

/// A capsule, or else a circle or a segment.
fn read_long(reader: &mut Reader, value: &Value, capsule: Option<&Value>) -> Shape
    ensures value { result ≡ long_form (seen capsule.entry) (view value.now) }
    ensures asked { reader.new ≡ long_asks (seen capsule.entry) (view value.now) reader.old }
{
    match capsule {
        Some(core) => read_capsule(reader, value, core),
        None => {
            let circle = field(value, "circle");
            read_round(reader, value, circle)
        }
    }
}

/// The form of a shape: the core under "capsule", or else that under "circle", or else that under "segment".
#[tactic(auto, unfolding(crate::specs::SavedShapes::form_in, crate::specs::AskedShapes::form_asks))]
fn read_form(reader: &mut Reader, value: &Value) -> Shape
    ensures value { result ≡ form_in (view value.now) }
    ensures asked { reader.new ≡ form_asks (view value.now) reader.old }
{
    let capsule = field(value, "capsule");
    read_long(reader, value, capsule)
}

/// A shape with its fat box.
#[derive(Clone, Copy)]
pub struct SavedShape {
    pub def: ShapeDef,
    pub fat: Box2,
}

/// Reads a shape. Its numbers may have any size that their types have: whether a body may have it is asked of all of
/// its shapes together.
#[tactic(auto, unfolding(crate::specs::SavedShapes::shape_in, crate::specs::AskedShapes::shape_asks))]
pub(crate) fn read_shape(reader: &mut Reader, value: &Value) -> SavedShape
    ensures value { result ≡ shape_in (view value.now) }
    ensures asked { reader.new ≡ shape_asks (view value.now) reader.old }
{
    let shape = read_form(reader, value);
    let friction = reader.number(field(value, "friction"));
    let restitution = reader.number(field(value, "restitution"));
    let category = reader.unsigned(field(value, "category"), u64::MAX);
    let mask = reader.unsigned(field(value, "mask"), u64::MAX);
    let group = reader.group(field(value, "group"));
    let fat = reader.corners(field(value, "fat"), MAX_CORNER);
    SavedShape {
        def: ShapeDef {
            shape,
            friction,
            restitution,
            filter: Filter {
                category,
                mask,
                group,
            },
        },
        fat,
    }
}

fn put_form(members: &mut Members, alloc: Global, shape: &Shape) -> Result<(), Refusal>
    ensures put { OnOk result (written members.new ≡ with_form shape.now (written members.old)) }
    ensures memory_only { IsOkUnless result Refusal.NoMemory }
{
    match shape {
        Shape::Circle { center, radius } => {
            members.put_vector("circle", *center)?;
            members.put("radius", Value::from(*radius))
        }
        Shape::Capsule {
            first,
            second,
            radius,
        } => {
            members.put("capsule", ends_value(alloc, *first, *second)?)?;
            members.put("radius", Value::from(*radius))
        }
        Shape::Segment { first, second } => {
            members.put("segment", ends_value(alloc, *first, *second)?)
        }
    }
}

/// A shape as it is written.
#[tactic(auto, unfolding(crate::specs::SavedShapes::shape_of))]
pub(crate) fn shape_value(alloc: Global, def: &ShapeDef, fat: Box2) -> Result<Value, Refusal>
    ensures value { IfOk result (λ value. view value ≡ shape_of def.now fat) }
    ensures memory_only { IsOkUnless result Refusal.NoMemory }
{
    let mut members = Members::new(alloc);
    put_form(&mut members, alloc, &def.shape)?;
    members.put("category", Value::from(def.filter.category))?;
    members.put("fat", corners_value(alloc, fat)?)?;
    members.put("friction", Value::from(def.friction))?;
    members.put("group", Value::from(def.filter.group))?;
    members.put("mask", Value::from(def.filter.mask))?;
    members.put("restitution", Value::from(def.restitution))?;
    Ok(members.object())
}
