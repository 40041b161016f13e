//! Which shapes a body may have.

ghost use Rattle.std.specs.Prelude.{◌≡◌, All, OnOk, pos};
ghost use Rattle.std.specs.Result.{result_err};
ghost use Rattle.std.specs.List.{list_all};
ghost use Rattle.shapes.specs.Shapes.{IsShapeDef, is_between, are_apart, is_form_allowed, is_core_near, is_in_range, are_forms_allowed, shapes_refusal};

use crate::beam::WHOLE;
use crate::{Shape, ShapeDef};
use fixed_geom::{Refusal, Vec2, is_within};

/// How many shapes a body has at most; the least number is 1.
pub const MAX_SHAPES: usize = 8;

/// The greatest size of a coordinate of a core, in u.
pub const MAX_CORE: u64 = 1 << 24;

/// The greatest radius, in u.
pub const MAX_RADIUS: i64 = 1 << 24;

/// The greatest friction, in 256ths.
pub const MAX_FRICTION: i64 = 512;

/// The greatest restitution, in 256ths.
pub const MAX_RESTITUTION: i64 = 256;

/// The greatest size of a component of a ray's way, in u.
pub const MAX_RAY: i64 = 1 << 28;

/// By how much a fat box is larger than the tight box on each side, in u.
pub const MARGIN: i64 = 131_072;

/// How much further than the first point of a contact the second may be, and how far the two have to be from one
/// another, in u (2 hundredths of a metre).
pub const TOLERANCE: i64 = 20_972;

/// Whether a number is from `low` to `high`.
pub fn is_between(low: i64, high: i64, value: i64) -> bool
    ensures { result ≡ is_between low high value }
{
    low <= value && value <= high
}

fn are_apart(p: Vec2, q: Vec2) -> bool
    ensures { result ≡ are_apart p q }
{
    !(p.x == q.x && p.y == q.y)
}

/// A circle of radius 0 to 2^24, a capsule of radius 1 to 2^24, or a segment where segments are
/// allowed; the ends of the last two are different.
fn is_form_allowed(segments: bool, shape: &Shape) -> bool
    ensures { result ≡ is_form_allowed segments shape.now }
{
    match shape {
        Shape::Circle { center: _, radius } => is_between(0, MAX_RADIUS, *radius),
        Shape::Capsule {
            first,
            second,
            radius,
        } => are_apart(*first, *second) && is_between(1, MAX_RADIUS, *radius),
        Shape::Segment { first, second } => segments && are_apart(*first, *second),
    }
}

/// Whether the core lies near the centre.
fn is_core_near(shape: &Shape) -> bool
    ensures { result ≡ is_core_near shape.now }
{
    is_within(shape.first_end(), MAX_CORE) && is_within(shape.second_end(), MAX_CORE)
}

/// Whether each number is within its limit.
fn is_in_range(def: &ShapeDef) -> bool
    ensures { result ≡ is_in_range def.now }
{
    is_core_near(&def.shape)
        && is_between(0, MAX_FRICTION, def.friction)
        && is_between(0, MAX_RESTITUTION, def.restitution)
}

fn has_allowed_forms(segments: bool, defs: &[ShapeDef]) -> bool
    ensures { result ≡ list_all (λ d. is_form_allowed segments d.shape) defs.now }
{
    defs.iter().all(|def| is_form_allowed(segments, &def.shape))
}

/// Whether there are 1 to 8 shapes, each of a form that is allowed.
fn are_forms_allowed(segments: bool, defs: &[ShapeDef]) -> bool
    ensures { result ≡ are_forms_allowed segments defs.now }
{
    if defs.len() < 1 {
        return false;
    }
    if defs.len() > MAX_SHAPES {
        return false;
    }
    has_allowed_forms(segments, defs)
}

fn are_in_range(defs: &[ShapeDef]) -> bool
    ensures { result ≡ list_all is_in_range defs.now }
{
    defs.iter().all(|def| is_in_range(def))
}

/// Tests the shapes of a body, `segments` being whether it may have segments, that is, whether it
/// is static. Refused 4 where there is none, more than eight, or one of a form or a radius that
/// isn't allowed, and else 5 where a number is outside its limit: a coordinate of a core 2^24 u in
/// size, a friction 0 to 512, a restitution 0 to 256.
#[tactic(auto, unfolding(crate::specs::Shapes::shapes_refusal))]
pub fn check(defs: &[ShapeDef], segments: bool) -> Result<(), Refusal>
    ensures refusal { result_err result ≡ shapes_refusal segments defs.now }
    ensures allowed { OnOk result (All IsShapeDef defs.now) }
{
    if !are_forms_allowed(segments, defs) {
        return Err(Refusal::BadShape);
    }
    if !are_in_range(defs) {
        return Err(Refusal::OutOfRange);
    }
    Ok(())
}

/// The law of the limits: the numbers that definitions take from the code, in digits. The function does nothing; its
/// contract is the law.
pub fn limits_in_digits()
    ensures shapes { MAX_SHAPES ≡ 8 }
    ensures core { MAX_CORE ≡ 16777216 }
    ensures radius { MAX_RADIUS ≡ pos 16777216 }
    ensures friction { MAX_FRICTION ≡ pos 512 }
    ensures restitution { MAX_RESTITUTION ≡ pos 256 }
    ensures ray { MAX_RAY ≡ pos 268435456 }
    ensures margin { MARGIN ≡ pos 131072 }
    ensures tolerance { TOLERANCE ≡ pos 20972 }
    ensures whole { WHOLE ≡ pos 16777216 }
{}
