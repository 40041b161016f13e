//! A shape of a line.

use crate::faults::LineFault;
use crate::fields::Fields;
use shapes::{Filter, Shape, ShapeDef};

/// The form of a shape: exactly one of the keys that name it, with a radius where it has one.
fn take_form<'a>(fields: &mut Fields<'a>) -> Shape {
    if fields.has("circle") {
        let center = fields.take_vector("circle");
        let radius = fields.take_signed("radius");
        return Shape::Circle { center, radius };
    }
    if fields.has("capsule") {
        let (first, second) = fields.take_ends("capsule");
        let radius = fields.take_signed("radius");
        return Shape::Capsule {
            first,
            second,
            radius,
        };
    }
    let (first, second) = fields.take_ends("segment");
    Shape::Segment { first, second }
}

fn take_filter<'a>(fields: &mut Fields<'a>) -> Filter {
    let mut filter = Filter::default();
    if fields.has("category") {
        filter.category = fields.take_unsigned("category");
    }
    if fields.has("mask") {
        filter.mask = fields.take_unsigned("mask");
    }
    if fields.has("group") {
        filter.group = fields.take_group("group");
    }
    filter
}

/// A number that may be left out, and is 0 then.
fn take_or_zero<'a>(fields: &mut Fields<'a>, key: &'a str) -> i64 {
    if fields.has(key) {
        fields.take_signed(key)
    } else {
        0
    }
}

/// Reads a shape.
pub(crate) fn take_shape<'a>(fields: &mut Fields<'a>) -> ShapeDef {
    ShapeDef {
        shape: take_form(fields),
        friction: take_or_zero(fields, "friction"),
        restitution: take_or_zero(fields, "restitution"),
        filter: take_filter(fields),
    }
}
