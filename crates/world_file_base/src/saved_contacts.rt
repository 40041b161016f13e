//! Saved contacts.

ghost use Rattle.std.specs.Prelude.{◌≡◌, ◌++◌, IfOk, IfErr, OnOk};
ghost use Rattle.std.specs.Result.{IsOkUnless};
ghost use Rattle.world_file_base.specs.Reading.{items_in, seen};
ghost use Rattle.world_file_base.specs.SavedContacts.{
  contact_in,
  contact_data,
  contacts_in,
  contacts_data,
  no_points,
  point_in,
  point_data,
  points_of,
  shape_id_in,
  shape_id_of,
  size_in,
  with_point,
  with_points,
};
ghost use Rattle.world_file_base.specs.AskedContacts.{
  contact_asks,
  contacts_asks,
  point_asks,
  points_asks,
  push_asks,
  shape_id_asks,
  size_asks,
};
ghost use Rattle.contacts_base.specs.Limits.{IsPackable};
ghost use Rattle.contacts_base.specs.declared.limits.TheConstants.{MAX_SEPARATION};
ghost use Rattle.world_file_base.specs.Asks.{Ask};
ghost use Rattle.world_file_base.specs.Reading.{number_in};
ghost use Rattle.world_file_base.specs.AskedValues.{list_asks};
ghost use Rattle.world_file_base.specs.declared.clause.Broken.TheVariants.{NoMemory};
ghost use Rattle.serde_json.specs.View.{items_view, view};

use crate::clause::{Broken, Clause};
use crate::counts::{count, lesser};
use crate::members::{Members, array_value, pair_value};
use crate::reader::Reader;
use crate::saved::SavedContact;
use crate::values::{field, has_keys, item_at};
use crate::version::{Version, colour_value, read_colour};
use contacts_base::{
    ContactEntry, ContactKey, ContactPoint, MAX_NORMAL, MAX_NORMAL_IMPULSE, MAX_OFFSET,
    MAX_SEPARATION, MAX_TANGENT_IMPULSE, PackedContact, ShapeId,
};
use fixed_geom::Refusal;
use serde_json::Value;
use std::alloc::Global;

/// The greatest number of a candidate.
pub const LAST_CANDIDATE: u64 = 3;

/// Reads a number of a size up to `most`.
fn read_size(reader: &mut Reader, value: Option<&Value>, most: u64) -> i64
    ensures value { result ≡ number_in (seen value.entry) }
    ensures asked { reader.new ≡ size_asks most (seen value.entry) reader.old }
{
    let number = reader.number(value);
    reader.ask(number.unsigned_abs() <= most, Clause::Limits);
    number
}

/// Reads the separation, 0 if it is beyond its limit.
fn read_separation(reader: &mut Reader, value: Option<&Value>) -> i64
    ensures value { result ≡ size_in MAX_SEPARATION (seen value.entry) }
    ensures asked { reader.new ≡ size_asks MAX_SEPARATION (seen value.entry) reader.old }
{
    let number = read_size(reader, value, MAX_SEPARATION);
    if number.unsigned_abs() <= MAX_SEPARATION {
        number
    } else {
        0
    }
}

/// Reads the impulse along the normal, which is at least 0.
fn read_push(reader: &mut Reader, value: Option<&Value>) -> i64
    ensures value { result ≡ number_in (seen value.entry) }
    ensures asked { reader.new ≡ push_asks (seen value.entry) reader.old }
{
    let push = read_size(reader, value, MAX_NORMAL_IMPULSE);
    reader.ask(0 <= push, Clause::Limits);
    push
}

/// Reads a point of a contact.
#[tactic(auto, unfolding(crate::specs::SavedContacts::point_in, crate::specs::AskedContacts::point_asks))]
fn read_point(reader: &mut Reader, value: &Value) -> ContactPoint
    ensures value { result ≡ point_in (view value.now) }
    ensures asked { reader.new ≡ point_asks (view value.now) reader.old }
{
    reader.ask(has_keys(value, 7), Clause::Form);
    let normal = reader.vector_within(field(value, "normal"), MAX_NORMAL);
    let separation = read_separation(reader, field(value, "sep"));
    let ra = reader.vector_within(field(value, "ra"), MAX_OFFSET);
    let rb = reader.vector_within(field(value, "rb"), MAX_OFFSET);
    let push = read_push(reader, field(value, "push"));
    let slip = read_size(reader, field(value, "slip"), MAX_TANGENT_IMPULSE);
    let candidate = reader.unsigned(field(value, "candidate"), LAST_CANDIDATE);
    ContactPoint {
        normal,
        separation,
        ra,
        rb,
        normal_impulse: push,
        tangent_impulse: slip,
        candidate,
    }
}

/// A contact with one more point, of which the first two are kept.
fn with_point(contact: PackedContact, point: &ContactPoint) -> PackedContact
    requires { IsPackable point.now }
    ensures { result ≡ with_point contact point.now }
{
    if contact.first().is_none() {
        contact.with_first(point)
    } else if contact.second().is_none() {
        contact.with_second(point)
    } else {
        contact
    }
}

/// Reads the points of a contact, of which the first two are kept.
fn read_points(reader: &mut Reader, points: &[Value]) -> PackedContact
    ensures value { result ≡ with_points (items_view points.now) no_points }
    ensures asked { reader.new ≡ points_asks (items_view points.now) reader.old }
{
    let mut contact = PackedContact::apart();
    for value in points {
        contact = with_point(contact, &read_point(reader, value));
    }
    contact
}

/// Reads the name of a shape: the slot of its body, and its place among the body's shapes.
fn read_shape_id(reader: &mut Reader, value: Option<&Value>) -> ShapeId
    ensures value { result ≡ shape_id_in (seen value.entry) }
    ensures asked { reader.new ≡ shape_id_asks (seen value.entry) reader.old }
{
    let items = reader.pair(value);
    ShapeId {
        slot: reader.slot(item_at(items, 0)),
        index: reader.byte(item_at(items, 1)),
    }
}

/// Reads a contact.
#[tactic(auto, unfolding(crate::specs::SavedContacts::contact_in, crate::specs::AskedContacts::contact_asks))]
fn read_contact(reader: &mut Reader, value: &Value, version: Version) -> SavedContact
    ensures value { result ≡ contact_in version (view value.now) }
    ensures asked { reader.new ≡ contact_asks version (view value.now) reader.old }
{
    reader.ask(has_keys(value, 5), Clause::Form);
    let first = read_shape_id(reader, field(value, "a"));
    let second = read_shape_id(reader, field(value, "b"));
    let touching = reader.truth(field(value, "touching"));
    let colour = read_colour(reader, field(value, "colour"), version);
    let points = reader.list(field(value, "points"));
    let contact = read_points(reader, points);
    SavedContact {
        key: ContactKey { first, second },
        touching,
        colour,
        contact,
        points: count(points),
    }
}

/// Reads each contact of a list.
fn read_each_contact(
    alloc: Global,
    reader: &mut Reader,
    items: &[Value],
    version: Version,
) -> Result<Vec<SavedContact>, Broken>
    ensures value { IfOk result (λ contacts. contacts.items ≡ contacts_in version (items_view items.now)) }
    ensures asked { OnOk result (reader.new ≡ contacts_asks version (items_view items.now) reader.old) }
    ensures memory { IfErr result (λ e. e ≡ NoMemory) }
{
    let mut contacts = Vec::new(alloc);
    for item in items {
        contacts.push(read_contact(reader, item, version))?;
    }
    Ok(contacts)
}

/// Reads the contacts of a world.
pub fn read_contacts(
    alloc: Global,
    reader: &mut Reader,
    value: Option<&Value>,
    version: Version,
) -> Result<Vec<SavedContact>, Broken>
    ensures value { IfOk result (λ contacts. contacts.items ≡ contacts_in version (items_in (seen value.entry))) }
    ensures asked { OnOk result (reader.new ≡ contacts_asks version (items_in (seen value.entry)) (list_asks (seen value.entry) reader.old)) }
    ensures memory { IfErr result (λ e. e ≡ NoMemory) }
{
    let items = reader.list(value);
    read_each_contact(alloc, reader, items, version)
}

#[tactic(auto, unfolding(crate::specs::SavedContacts::point_data))]
fn point_value(alloc: Global, point: &ContactPoint) -> Result<Value, Refusal>
    ensures value { IfOk result (λ value. view value ≡ point_data point.now) }
    ensures memory_only { IsOkUnless result Refusal.NoMemory }
{
    let mut members = Members::new(alloc);
    members.put("candidate", Value::from(point.candidate))?;
    members.put_vector("normal", point.normal)?;
    members.put("push", Value::from(point.normal_impulse))?;
    members.put_vector("ra", point.ra)?;
    members.put_vector("rb", point.rb)?;
    members.put("sep", Value::from(point.separation))?;
    members.put("slip", Value::from(point.tangent_impulse))?;
    Ok(members.object())
}

fn points_value(alloc: Global, contact: &PackedContact) -> Result<Value, Refusal>
    ensures value { IfOk result (λ value. view value ≡ points_of contact.now) }
    ensures memory_only { IsOkUnless result Refusal.NoMemory }
{
    let mut items = Vec::with_capacity(alloc, 2)?;
    if let Some(point) = contact.first() {
        items.push(point_value(alloc, &point)?)?;
    }
    if let Some(point) = contact.second() {
        items.push(point_value(alloc, &point)?)?;
    }
    Ok(array_value(items))
}

fn shape_id_value(alloc: Global, id: ShapeId) -> Result<Value, Refusal>
    ensures value { IfOk result (λ value. view value ≡ shape_id_of id) }
    ensures memory_only { IsOkUnless result Refusal.NoMemory }
{
    pair_value(alloc, Value::from(id.slot), Value::from(id.index))
}

#[tactic(auto, unfolding(crate::specs::SavedContacts::contact_data))]
fn contact_value(alloc: Global, entry: &ContactEntry, colour: Option<u8>) -> Result<Value, Refusal>
    ensures value { IfOk result (λ value. view value ≡ contact_data entry.now colour) }
    ensures memory_only { IsOkUnless result Refusal.NoMemory }
{
    let mut members = Members::new(alloc);
    members.put("a", shape_id_value(alloc, entry.key.first)?)?;
    members.put("b", shape_id_value(alloc, entry.key.second)?)?;
    members.put("colour", colour_value(colour))?;
    members.put("points", points_value(alloc, &entry.contact)?)?;
    members.put("touching", Value::from(entry.contact.is_touching()))?;
    Ok(members.object())
}

/// The contacts as they are written, each with its colour: none where there is no colour in its place.
pub fn contacts_value(
    alloc: Global,
    contacts: &[ContactEntry],
    colours: &[Option<u8>],
) -> Result<Value, Refusal>
    ensures value { IfOk result (λ value. view value ≡ contacts_data contacts.now colours.now) }
    ensures memory_only { IsOkUnless result Refusal.NoMemory }
{
    let mut items = Vec::new(alloc);
    for place in 0..lesser(contacts.len(), colours.len()) {
        items.push(contact_value(alloc, &contacts[place], colours[place])?)?;
    }
    Ok(array_value(items))
}
