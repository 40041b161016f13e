//! The slots of bodies, written.

ghost use Rattle.std.specs.Prelude.{◌≡◌, ◌∷◌, [], None, Some, OnOk, codes};
ghost use Rattle.world_file_base.specs.SavedBodies.{body_data};
ghost use Rattle.world_file_base.specs.SavedShapes.{shapes_of};
ghost use Rattle.world_file_base.specs.SavedSlots.{bodies_data, body_slot_of, slot_of};
ghost use Rattle.world_file_base.specs.Written.{list_data};
ghost use Rattle.saved_text.specs.Bodies.{first_of_body, last_of_body, numbers_of_body, position_of_body, membership_by};
ghost use Rattle.saved_text.specs.Tokens.{AddsMembers, AddsValue};

use crate::leaves::Leaf;
use crate::members::{put_members, put_object};
use crate::saved_shapes::put_shapes;
use body_handles::SlotEntry;
use islands::Label;
use json::Writer;
use plain_world::{Body, Kind};
use std::alloc::AllocError;
use world_file_base::{label_at, lesser};

/// What is told of a body's island.
#[derive(Clone, Copy)]
pub(crate) struct SavedMembership {
    pub(crate) asleep: bool,
    pub(crate) loose: bool,
    pub(crate) island: Option<u32>,
}

fn membership_by(label: Option<Label>) -> SavedMembership
    ensures { result ≡ membership_by label }
{
    match label {
        Some(label) => SavedMembership {
            asleep: label.state.is_asleep(),
            loose: label.state.is_loose(),
            island: Some(label.name),
        },
        None => SavedMembership {
            asleep: false,
            loose: false,
            island: None,
        },
    }
}

fn put_position(
    out: &mut Writer,
    body: &Body,
    membership: SavedMembership,
) -> Result<(), AllocError>
    ensures text { OnOk result (AddsMembers (position_of_body body.now membership) out.old out.new) }
{
    put_members(
        out,
        &[
            ("asleep", Leaf::Truth(membership.asleep)),
            ("at", Leaf::Vector(body.motion.x)),
            ("enabled", Leaf::Truth(body.enabled)),
            ("facing", Leaf::Facing(body.motion.rot)),
            ("inertia", Leaf::Integer(&body.mass.inertia)),
        ],
    )
}

fn put_numbers(out: &mut Writer, body: &Body, membership: SavedMembership) -> Result<(), AllocError>
    ensures text { OnOk result (AddsMembers (numbers_of_body body.now membership) out.old out.new) }
{
    put_members(
        out,
        &[
            ("island", Leaf::Island(membership.island)),
            ("kind", Leaf::Kind(body.kind)),
            ("l", Leaf::Decimal(&body.motion.l)),
            ("loose", Leaf::Truth(membership.loose)),
            ("mass", Leaf::Integer(&body.mass.mass)),
            ("p", Leaf::Vector(body.motion.p)),
        ],
    )
}

/// The members of a body that stand before its shapes.
fn put_first(out: &mut Writer, body: &Body, membership: SavedMembership) -> Result<(), AllocError>
    ensures text { OnOk result (AddsMembers (first_of_body body.now membership) out.old out.new) }
{
    put_position(out, body, membership)?;
    put_numbers(out, body, membership)?;
    Ok(())
}

/// Those that stand behind them.
fn put_last(out: &mut Writer, kind: Kind, timer: u64) -> Result<(), AllocError>
    ensures text { OnOk result (AddsMembers (last_of_body kind timer) out.old out.new) }
{
    match kind {
        Kind::Kinematic(course) => put_members(
            out,
            &[
                ("spin", Leaf::Integer(&course.spin)),
                ("timer", Leaf::Natural(timer)),
                ("velocity", Leaf::Vector(course.velocity)),
            ],
        ),
        Kind::Static => put_members(out, &[("timer", Leaf::Natural(timer))]),
        Kind::Dynamic => put_members(out, &[("timer", Leaf::Natural(timer))]),
    }
}

fn put_body_shapes(out: &mut Writer, body: &Body) -> Result<(), AllocError>
    ensures text { OnOk result (AddsValue (list_data (shapes_of body.now.shapes body.now.fats)) out.old out.new) }
{
    put_shapes(out, body.shapes.as_slice(), body.fats.as_slice())
}

/// Writes a body, with the label of its island if it is a mover.
fn put_body(out: &mut Writer, body: &Body, label: Option<Label>) -> Result<(), AllocError>
    ensures text { OnOk result (AddsValue (body_data body.now label) out.old out.new) }
{
    out.begin_object()?;
    put_first(out, body, membership_by(label))?;
    out.key("shapes")?;
    put_body_shapes(out, body)?;
    put_last(out, body.kind, body.timer)?;
    out.end_object()?;
    Ok(())
}

/// Writes a slot in which nothing is.
pub(crate) fn put_free(out: &mut Writer, slot_entry: SlotEntry) -> Result<(), AllocError>
    ensures text { OnOk result (AddsValue (slot_of slot_entry [] None) out.old out.new) }
{
    put_object(out, &[("generation", Leaf::Count(slot_entry.generation))])
}

fn put_taken(
    out: &mut Writer,
    slot_entry: SlotEntry,
    body: &Body,
    label: Option<Label>,
) -> Result<(), AllocError>
    ensures text { OnOk result (AddsValue (body_slot_of slot_entry (Some body.now) label) out.old out.new) }
{
    out.begin_object()?;
    out.key("body")?;
    put_body(out, body, label)?;
    put_members(out, &[("generation", Leaf::Count(slot_entry.generation))])?;
    out.end_object()?;
    Ok(())
}

fn put_slot(
    out: &mut Writer,
    slot_entry: SlotEntry,
    entry: &Option<Body>,
    label: Option<Label>,
) -> Result<(), AllocError>
    ensures text { OnOk result (AddsValue (body_slot_of slot_entry entry.now label) out.old out.new) }
{
    match entry {
        Some(body) => put_taken(out, slot_entry, body, label),
        None => put_free(out, slot_entry),
    }
}

/// Writes the bodies by slot.
pub(crate) fn put_bodies(
    out: &mut Writer,
    slot_entries: &[SlotEntry],
    bodies: &[Option<Body>],
    labels: &[Option<Label>],
) -> Result<(), AllocError>
    ensures text { OnOk result (AddsValue (bodies_data slot_entries.now bodies.now labels.now) out.old out.new) }
{
    out.begin_array()?;
    for slot in 0..lesser(slot_entries.len(), bodies.len()) {
        put_slot(
            out,
            slot_entries[slot],
            &bodies[slot],
            label_at(labels, slot),
        )?;
    }
    out.end_array()?;
    Ok(())
}
