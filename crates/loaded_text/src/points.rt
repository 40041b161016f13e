//! The points of a contact.

ghost use Rattle.std.specs.Prelude.{◌≡◌, [], IfSome};
ghost use Rattle.contacts_base.specs.Limits.{IsPackable};
ghost use Rattle.world_file_base.specs.SavedContacts.{point_in};
ghost use Rattle.world_file_base.specs.AskedContacts.{point_asks};
ghost use Rattle.loaded_text.specs.Contacts.{PointsHold};
ghost use Rattle.loaded_text.specs.Stands.{Holds};

use crate::leaves::{read_natural, read_nonnegative, read_size};
use crate::text::Text;
use crate::vectors::read_vector_within;
use contacts_base::{
    ContactPoint, MAX_NORMAL, MAX_NORMAL_IMPULSE, MAX_OFFSET, MAX_SEPARATION, MAX_TANGENT_IMPULSE,
    PackedContact,
};
use world_file_base::LAST_CANDIDATE;

/// The points that a contact was read with, and how many they are.
#[derive(Clone, Copy)]
pub(crate) struct Points {
    pub(crate) contact: PackedContact,
    pub(crate) count: usize,
}

fn read_point(text: &mut Text) -> Option<ContactPoint>
    ensures text { IfSome result (λ point. Holds [] point_in point_asks 2 point text.old.rest.now text.new.rest.now) }
    ensures packable { IfSome result IsPackable }
{
    text.expect(b"{")?;
    let candidate = read_natural(text, b"\"candidate\":")?;
    let normal = read_vector_within(text, b",\"normal\":", MAX_NORMAL)?;
    let push = read_nonnegative(text, b",\"push\":", MAX_NORMAL_IMPULSE)?;
    let ra = read_vector_within(text, b",\"ra\":", MAX_OFFSET)?;
    let rb = read_vector_within(text, b",\"rb\":", MAX_OFFSET)?;
    let separation = read_size(text, b",\"sep\":", MAX_SEPARATION)?;
    let slip = read_size(text, b",\"slip\":", MAX_TANGENT_IMPULSE)?;
    text.expect(b"}")?;
    if candidate > LAST_CANDIDATE {
        return None;
    }
    Some(ContactPoint {
        normal,
        separation,
        ra,
        rb,
        normal_impulse: push,
        tangent_impulse: slip,
        candidate,
    })
}

/// The points of a contact: none, one or two.
pub(crate) fn read_points(text: &mut Text, lead: &[u8]) -> Option<Points>
    ensures { IfSome result (λ points. PointsHold lead.now points text.old.rest.now text.new.rest.now) }
{
    text.expect(lead)?;
    let mut contact = PackedContact::apart();
    if text.take(b"[]") {
        return Some(Points { contact, count: 0 });
    }
    text.expect(b"[")?;
    contact = contact.with_first(&read_point(text)?);
    if text.take(b"]") {
        return Some(Points { contact, count: 1 });
    }
    text.expect(b",")?;
    contact = contact.with_second(&read_point(text)?);
    text.expect(b"]")?;
    Some(Points { contact, count: 2 })
}
