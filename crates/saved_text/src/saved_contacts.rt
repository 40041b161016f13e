//! The contacts, written.

ghost use Rattle.std.specs.Prelude.{◌∷◌, [], OnOk, codes, nat_eq};
ghost use Rattle.std.specs.HashMap.{get};
ghost use Rattle.world_file_base.specs.SavedContacts.{contact_data, contacts_data, point_data, point_or_none, points_of};
ghost use Rattle.world_file.specs.Taken.{contact_colours_by};
ghost use Rattle.saved_text.specs.Tokens.{AddsItems, AddsMembers, AddsValue};

use crate::leaves::Leaf;
use crate::members::{put_members, put_object};
use contacts_base::{ContactEntry, ContactPoint, PackedContact};
use graph_colours::ConstraintId;
use json::Writer;
use plain_world::Constraint;
use std::alloc::AllocError;
use std::collections::HashMap;
use world_file::colour_at;

fn put_point(out: &mut Writer, point: &ContactPoint) -> Result<(), AllocError>
    ensures text { OnOk result (AddsValue (point_data point.now) out.old out.new) }
{
    put_object(
        out,
        &[
            ("candidate", Leaf::Natural(point.candidate)),
            ("normal", Leaf::Vector(point.normal)),
            ("push", Leaf::Integer(&point.normal_impulse)),
            ("ra", Leaf::Vector(point.ra)),
            ("rb", Leaf::Vector(point.rb)),
            ("sep", Leaf::Integer(&point.separation)),
            ("slip", Leaf::Integer(&point.tangent_impulse)),
        ],
    )
}

fn put_point_or_none(out: &mut Writer, point: Option<ContactPoint>) -> Result<(), AllocError>
    ensures text { OnOk result (AddsItems (point_or_none point) out.old out.new) }
{
    if let Some(point) = point {
        put_point(out, &point)?;
    }
    Ok(())
}

fn put_points(out: &mut Writer, contact: &PackedContact) -> Result<(), AllocError>
    ensures text { OnOk result (AddsValue (points_of contact.now) out.old out.new) }
{
    out.begin_array()?;
    put_point_or_none(out, contact.first())?;
    put_point_or_none(out, contact.second())?;
    out.end_array()?;
    Ok(())
}

/// Writes a contact, with its colour if it acts.
fn put_contact(out: &mut Writer, entry: &ContactEntry, colour: Option<u8>) -> Result<(), AllocError>
    ensures text { OnOk result (AddsValue (contact_data entry.now colour) out.old out.new) }
{
    out.begin_object()?;
    put_members(
        out,
        &[
            ("a", Leaf::Shape(entry.key.first)),
            ("b", Leaf::Shape(entry.key.second)),
            ("colour", Leaf::Colour(colour)),
        ],
    )?;
    out.key("points")?;
    put_points(out, &entry.contact)?;
    put_members(
        out,
        &[("touching", Leaf::Truth(entry.contact.is_touching()))],
    )?;
    out.end_object()?;
    Ok(())
}

/// Writes the contacts, each with the colour of its number.
pub(crate) fn put_contacts(
    out: &mut Writer,
    contacts: &[ContactEntry],
    by_number: &HashMap<u128, u8>,
) -> Result<(), AllocError>
    ensures text { OnOk result (AddsValue (contacts_data contacts.now (contact_colours_by (get nat_eq by_number.now) contacts.now)) out.old out.new) }
{
    out.begin_array()?;
    for entry in contacts {
        let colour = colour_at(by_number, Constraint::Contact(entry.key).number());
        put_contact(out, entry, colour)?;
    }
    out.end_array()?;
    Ok(())
}
