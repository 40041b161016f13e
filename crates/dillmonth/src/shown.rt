//! Items as C has them, written into a caller's array.

ghost use Rattle.std.specs.Prelude.{◌≡◌, ◌<◌, ◌+◌, ◌^◌, [], ◌∷◌, length, map, nat_lt, slice_set, cond};
ghost use Rattle.dillmonth.specs.Forms.{handle_shown, id_shown, pair_shown};
ghost use Rattle.dillmonth.specs.Getters.{form_shown, shape_shown};
ghost use Rattle.dillmonth.specs.Events.{event_shown};
ghost use Rattle.dillmonth.specs.Lists.{contact_shown, count_points, list_of, normal_shown, point_shown, points_shown, put_at, put_list, written};

use crate::conversions::{show_handle, show_id, show_pair, show_vector};
use crate::forms::{CContact, CContactPoint, CEvent, CHandle, CPair, CShape, CShapeId, CVector};
use contacts_base::{ContactEntry, ContactKey, ContactPoint, ShapeId};
use shapes::{Shape, ShapeDef};
use world_core::Handle;
use world_desk::StepEvent;

/// What has a form for C.
pub(crate) trait Shown {
    type Form: Copy;

    // Its form.
    ghost shown: { Self → Self.Form };

    /// Its form.
    fn show(&self) -> Self::Form
        ensures { result ≡ shown self.now };
}

impl Shown for ContactKey {
    type Form = CPair;

    ghost shown = { λ k. pair_shown k };

    fn show(&self) -> CPair {
        show_pair(*self)
    }
}

impl Shown for Handle {
    type Form = CHandle;

    ghost shown = { λ h. handle_shown h };

    fn show(&self) -> CHandle {
        show_handle(*self)
    }
}

impl Shown for ShapeId {
    type Form = CShapeId;

    ghost shown = { λ id. id_shown id };

    fn show(&self) -> CShapeId {
        show_id(*self)
    }
}

/// The number of a form.
fn form_number(shape: &Shape) -> u32
    ensures { result ≡ form_shown shape.now }
{
    match shape {
        Shape::Circle { .. } => 0,
        Shape::Capsule { .. } => 1,
        Shape::Segment { .. } => 2,
    }
}

impl Shown for ShapeDef {
    type Form = CShape;

    ghost shown = { λ d. shape_shown d };

    fn show(&self) -> CShape {
        CShape {
            form: form_number(&self.shape),
            group: self.filter.group,
            first: show_vector(self.shape.first_end()),
            second: show_vector(self.shape.second_end()),
            radius: self.shape.radius(),
            friction: self.friction,
            restitution: self.restitution,
            category: self.filter.category,
            mask: self.filter.mask,
        }
    }
}

impl Shown for u8 {
    type Form = u8;

    ghost shown = { λ b. b };

    fn show(&self) -> u8 {
        *self
    }
}

const NOWHERE: CVector = CVector { x: 0, y: 0 };

const NO_POINT: CContactPoint = CContactPoint {
    offset: NOWHERE,
    separation: 0,
    normal_impulse: 0,
    tangent_impulse: 0,
};

fn show_point(point: Option<ContactPoint>) -> CContactPoint
    ensures { result ≡ point_shown point }
{
    match point {
        None => NO_POINT,
        Some(point) => CContactPoint {
            offset: show_vector(point.ra),
            separation: point.separation,
            normal_impulse: point.normal_impulse,
            tangent_impulse: point.tangent_impulse,
        },
    }
}

fn normal_of(point: Option<ContactPoint>) -> CVector
    ensures { result ≡ normal_shown point }
{
    match point {
        None => NOWHERE,
        Some(point) => show_vector(point.normal),
    }
}

fn count_points(first: Option<ContactPoint>, second: Option<ContactPoint>) -> u32
    ensures { result ≡ count_points first second }
{
    match (first, second) {
        (None, _) => 0,
        (Some(_), None) => 1,
        (Some(_), Some(_)) => 2,
    }
}

/// Two shapes with the points where they touch.
fn show_points(pair: CPair, first: Option<ContactPoint>, second: Option<ContactPoint>) -> CContact
    ensures { result ≡ points_shown pair first second }
{
    CContact {
        pair,
        points: count_points(first, second),
        unused: 0,
        normal: normal_of(first),
        first: show_point(first),
        second: show_point(second),
    }
}

impl Shown for ContactEntry {
    type Form = CContact;

    ghost shown = { λ e. contact_shown e };

    fn show(&self) -> CContact {
        show_points(
            show_pair(self.key),
            self.contact.first(),
            self.contact.second(),
        )
    }
}

impl Shown for StepEvent {
    type Form = CEvent;

    ghost shown = { λ e. event_shown e };

    fn show(&self) -> CEvent {
        CEvent {
            step: self.step,
            kind: self.kind,
            unused: 0,
            first: show_handle(self.first.body),
            second: show_handle(self.second.body),
            first_tag: self.first.tag,
            second_tag: self.second.tag,
            contact: show_points(
                show_pair(self.key),
                self.contact.first(),
                self.contact.second(),
            ),
        }
    }
}

/// Writes an item at a place of an array, if it has that place.
fn write_at<T: Copy>(out: &mut [T], at: usize, item: T)
    ensures { out.new ≡ put_at out.old at item }
{
    if at < out.len() {
        out[at] = item;
    }
}

/// Writes an item, if there is one, at the place `count`, and tells the next place.
pub(crate) fn write_next<T: Copy>(out: &mut [T], count: usize, item: Option<T>) -> usize
    requires { count < 2 ^ 63 }
    ensures count { result ≡ count + length (list_of item) }
    ensures written { out.new ≡ put_list out.old count (list_of item) }
{
    match item {
        None => count,
        Some(item) => {
            write_at(out, count, item);
            count + 1
        }
    }
}

/// Writes the forms of items, as many as fit, and tells how many items there are.
pub(crate) fn write_all<T: Shown>(items: &[T], out: &mut [T::Form]) -> usize
    ensures count { result ≡ length items.now }
    ensures written { out.new ≡ written (map T.shown items.now) out.old }
{
    let count = items.len().min(out.len());
    for at in 0..count {
        out[at] = items[at].show();
    }
    items.len()
}
