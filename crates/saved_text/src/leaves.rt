//! Values without lists of any length in them.

ghost use Rattle.std.specs.Prelude.{OnOk};
ghost use Rattle.serde_json.specs.Data.{boolean, string};
ghost use Rattle.world_file_base.specs.SavedBodies.{kind_name};
ghost use Rattle.world_file_base.specs.SavedContacts.{shape_id_of};
ghost use Rattle.world_file_base.specs.SavedTotals.{total_data};
ghost use Rattle.world_file_base.specs.Written.{ends_of, vector_of};
ghost use Rattle.saved_text.specs.Leaves.{data_of, facing_of};
ghost use Rattle.saved_text.specs.Tokens.{AddsValue};

use crate::numbers::{
    put_colour, put_count, put_decimal, put_group, put_index, put_integer, put_island, put_natural,
    put_text,
};
use contacts_base::ShapeId;
use fixed_geom::{Rot, Vec2};
use impulse_ledger::Total;
use json::Writer;
use plain_world::Kind;
use std::alloc::AllocError;

/// A value that has no list of any length in it.
#[derive(Clone, Copy)]
pub(crate) enum Leaf<'a> {
    Truth(bool),
    Natural(u64),
    Count(u32),
    Integer(&'a i64),
    Group(&'a i32),
    Text(&'a str),
    /// A number as a text.
    Decimal(&'a i128),
    Kind(Kind),
    Colour(Option<u8>),
    Island(Option<u32>),
    Vector(Vec2),
    Facing(Rot),
    /// Two places.
    Ends(Vec2, Vec2),
    Shape(ShapeId),
    Total(Total),
}

fn put_truth(out: &mut Writer, holds: bool) -> Result<(), AllocError>
    ensures text { OnOk result (AddsValue (boolean holds) out.old out.new) }
{
    out.boolean(holds)
}

fn put_kind(out: &mut Writer, kind: Kind) -> Result<(), AllocError>
    ensures text { OnOk result (AddsValue (string (kind_name kind)) out.old out.new) }
{
    match kind {
        Kind::Static => put_text(out, "static"),
        Kind::Kinematic(_) => put_text(out, "kinematic"),
        Kind::Dynamic => put_text(out, "dynamic"),
    }
}

fn put_vector(out: &mut Writer, vector: Vec2) -> Result<(), AllocError>
    ensures text { OnOk result (AddsValue (vector_of vector) out.old out.new) }
{
    out.begin_array()?;
    put_integer(out, vector.x)?;
    put_integer(out, vector.y)?;
    out.end_array()?;
    Ok(())
}

fn put_facing(out: &mut Writer, facing: Rot) -> Result<(), AllocError>
    ensures text { OnOk result (AddsValue (facing_of facing) out.old out.new) }
{
    out.begin_array()?;
    put_integer(out, facing.c)?;
    put_integer(out, facing.s)?;
    out.end_array()?;
    Ok(())
}

fn put_ends(out: &mut Writer, first: Vec2, second: Vec2) -> Result<(), AllocError>
    ensures text { OnOk result (AddsValue (ends_of first second) out.old out.new) }
{
    out.begin_array()?;
    put_vector(out, first)?;
    put_vector(out, second)?;
    out.end_array()?;
    Ok(())
}

fn put_shape_id(out: &mut Writer, id: ShapeId) -> Result<(), AllocError>
    ensures text { OnOk result (AddsValue (shape_id_of id) out.old out.new) }
{
    out.begin_array()?;
    put_count(out, id.slot)?;
    put_index(out, id.index)?;
    out.end_array()?;
    Ok(())
}

fn put_total(out: &mut Writer, total: Total) -> Result<(), AllocError>
    ensures text { OnOk result (AddsValue (total_data total) out.old out.new) }
{
    out.begin_array()?;
    put_decimal(out, total.x)?;
    put_decimal(out, total.y)?;
    out.end_array()?;
    Ok(())
}

pub(crate) fn put_leaf(out: &mut Writer, leaf: Leaf<'_>) -> Result<(), AllocError>
    ensures text { OnOk result (AddsValue (data_of leaf.entry) out.old out.new) }
{
    match leaf {
        Leaf::Truth(holds) => put_truth(out, holds),
        Leaf::Natural(number) => put_natural(out, number),
        Leaf::Count(number) => put_count(out, number),
        Leaf::Integer(number) => put_integer(out, *number),
        Leaf::Group(number) => put_group(out, *number),
        Leaf::Text(text) => put_text(out, text),
        Leaf::Decimal(number) => put_decimal(out, *number),
        Leaf::Kind(kind) => put_kind(out, kind),
        Leaf::Colour(colour) => put_colour(out, colour),
        Leaf::Island(island) => put_island(out, island),
        Leaf::Vector(vector) => put_vector(out, vector),
        Leaf::Facing(facing) => put_facing(out, facing),
        Leaf::Ends(first, second) => put_ends(out, first, second),
        Leaf::Shape(id) => put_shape_id(out, id),
        Leaf::Total(total) => put_total(out, total),
    }
}
