//! Where a ray meets a circle and a side of a shape.

ghost use Rattle.std.specs.Prelude.{◌≡◌, ◌+◌, ◌^◌, ◌<◌, ◌≤◌, pos, neg_ℤ, ◌-ℤ◌, ◌*ℤ◌, ◌≤ℤ◌, ◌<ℤ◌, unsigned_abs};
ghost use Rattle.fixed_geom.specs.Numbers.{fdiv};
ghost use Rattle.fixed_geom.specs.Vectors.{IsWithin};
ghost use Rattle.shapes.specs.Rays.{IsBeam, whole, fraction, room_of, entered, circle_hit, end_hit, crossed, crossed_from_either_side, side_hit, earlier};

use crate::{Core, MAX_RADIUS};
use fixed_geom::{Vec2, cross, dot, fdiv, isqrt, minus, product};

/// A ray: its start and its way, in u.
#[derive(Clone, Copy, Debug, PartialEq, Eq)]
pub struct Beam {
    pub from: Vec2,
    pub along: Vec2,
}

/// The whole way of a ray, in the units of its hits.
pub(crate) const WHOLE: i128 = 1 << 24;

/// A line that passes a centre further off than this, times the length of the ray's way, misses
/// each circle of a radius up to 2^24 u.
const FAR_OFF: u128 = 1 << 53;

/// A hit at `t`, unless that is beyond the way's end.
fn fraction(t: i128) -> Option<u32>
    requires { pos 0 ≤ℤ t }
    ensures { result ≡ fraction t }
{
    if t > WHOLE { None } else { Some(t as u32) }
}

/// `x` times 2^24.
fn times_whole(x: i128) -> i128
    requires { unsigned_abs x ≤ 2 ^ 90 }
    ensures value { result ≡ x *ℤ whole }
{
    x * WHOLE
}

fn difference(a: i128, b: i128) -> i128
    requires first { unsigned_abs a ≤ 2 ^ 120 }
    requires second { unsigned_abs b ≤ 2 ^ 120 }
    ensures value { result ≡ a -ℤ b }
    ensures size { unsigned_abs result ≤ unsigned_abs a + unsigned_abs b }
{
    a - b
}

fn square_of(x: i128) -> i128
    requires { unsigned_abs x ≤ 2 ^ 53 }
    ensures value { result ≡ x *ℤ x }
    ensures small { unsigned_abs result ≤ 2 ^ 106 }
{
    x * x
}

fn area(square: i128, way: i128) -> i128
    requires first { unsigned_abs square ≤ 2 ^ 48 }
    requires second { unsigned_abs way ≤ 2 ^ 57 }
    ensures value { result ≡ square *ℤ way }
    ensures small { unsigned_abs result ≤ 2 ^ 105 }
{
    square * way
}

/// How far inside the circle the ray's line passes, squared; below zero where it misses.
fn room_of(radius: i64, square: i128, off: i128) -> i128
    requires radius { unsigned_abs radius ≤ unsigned_abs MAX_RADIUS }
    requires square { unsigned_abs square ≤ 2 ^ 57 }
    requires off { unsigned_abs off ≤ 2 ^ 53 }
    ensures value { result ≡ room_of radius square off }
    ensures small { unsigned_abs result ≤ 2 ^ 107 }
{
    difference(area(product(radius, radius), square), square_of(off))
}

/// Where the ray comes into the circle, `ahead` being where it is nearest to the centre.
fn entered(ahead: i128, room: i128, square: i128) -> Option<u32>
    requires ahead { unsigned_abs ahead ≤ 2 ^ 67 }
    requires nonnegative { pos 0 ≤ℤ room }
    requires room { unsigned_abs room ≤ 2 ^ 107 }
    requires positive { pos 0 <ℤ square }
    ensures { result ≡ entered ahead room square }
{
    let at = fdiv(times_whole(difference(ahead, isqrt(room))), square);
    fraction(at.max(0))
}

/// The hit on a circle whose centre lies `ahead` along the ray and `off` to its right, both times the
/// length of the ray's way, whose square is `square`.
#[tactic(auto, unfolding(crate::specs::Rays::circle_hit))]
fn circle_hit(ahead: i128, off: i128, radius: i64, square: i128) -> Option<u32>
    requires ahead { unsigned_abs ahead ≤ 2 ^ 67 }
    requires radius { unsigned_abs radius ≤ unsigned_abs MAX_RADIUS }
    requires square { unsigned_abs square ≤ 2 ^ 57 }
    requires positive { pos 0 <ℤ ahead → pos 0 <ℤ square }
    ensures { result ≡ circle_hit ahead off radius square }
{
    if ahead <= 0 {
        return None;
    }
    if off.unsigned_abs() > FAR_OFF {
        return None;
    }
    let room = room_of(radius, square, off);
    if room < 0 {
        return None;
    }
    entered(ahead, room, square)
}

/// The hit on the circle round an end of a core, ahead of the start.
pub(crate) fn end_hit(beam: &Beam, radius: i64, end: Vec2) -> Option<u32>
    requires beam { IsBeam beam.now }
    requires radius { unsigned_abs radius ≤ unsigned_abs MAX_RADIUS }
    requires end { IsWithin (2 ^ 37) end }
    ensures { result ≡ end_hit beam.now radius end }
{
    let way = minus(end, beam.from);
    circle_hit(
        dot(way, beam.along),
        cross(way, beam.along),
        radius,
        dot(beam.along, beam.along),
    )
}

/// The hit at `s / den` of the way and `z / den` of a side, if it lies on both.
#[tactic(auto, unfolding(crate::specs::Rays::crossed))]
fn crossed(den: i128, s: i128, z: i128) -> Option<u32>
    requires s { unsigned_abs s ≤ 2 ^ 90 }
    ensures { result ≡ crossed den s z }
{
    if den <= 0 {
        return None;
    }
    if s < 0 {
        return None;
    }
    if s > den {
        return None;
    }
    if z < 0 {
        return None;
    }
    if z > den {
        return None;
    }
    Some(inner_fraction(s, den))
}

#[tactic(auto, unfolding(crate::specs::Rays::crossed_from_either_side))]
fn crossed_from_either_side(den: i128, s: i128, z: i128) -> Option<u32>
    requires den { unsigned_abs den ≤ 2 ^ 90 }
    requires s { unsigned_abs s ≤ 2 ^ 90 }
    requires z { unsigned_abs z ≤ 2 ^ 90 }
    ensures { result ≡ crossed_from_either_side den s z }
{
    if den < 0 {
        crossed(negated(den), negated(s), negated(z))
    } else {
        crossed(den, s, z)
    }
}

fn negated(x: i128) -> i128
    requires { unsigned_abs x ≤ 2 ^ 90 }
    ensures value { result ≡ neg_ℤ x }
    ensures small { unsigned_abs result ≤ 2 ^ 90 }
{
    -x
}

/// `part / whole` of the way, of a part that is no more than the whole.
fn inner_fraction(part: i128, whole: i128) -> u32
    requires nonnegative { pos 0 ≤ℤ part }
    requires inside { part ≤ℤ whole }
    requires small { unsigned_abs part ≤ 2 ^ 90 }
    requires positive { pos 0 <ℤ whole }
    ensures { result ≡ unsigned_abs (fdiv (part *ℤ WHOLE) whole) }
{
    fdiv(times_whole(part), whole).unsigned_abs() as u32
}

/// The hit on a side, from one end of `side` to the other.
pub(crate) fn side_hit(beam: &Beam, side: &Core) -> Option<u32>
    requires beam { IsBeam beam.now }
    requires first { IsWithin (2 ^ 38) side.now.p }
    requires second { IsWithin (2 ^ 38) side.now.q }
    ensures { result ≡ side_hit beam.now side.now }
{
    let way = minus(side.q, side.p);
    let to_side = minus(side.p, beam.from);
    crossed_from_either_side(
        cross(beam.along, way),
        cross(to_side, way),
        cross(to_side, beam.along),
    )
}

/// The lesser of two hits.
pub(crate) fn earlier(first: Option<u32>, second: Option<u32>) -> Option<u32>
    ensures { result ≡ earlier first second }
{
    match first {
        None => second,
        Some(s) => match second {
            None => Some(s),
            Some(t) => Some(if t < s { t } else { s }),
        },
    }
}
