//! Cores in the world: the nearest point of one, and whether two of them cross.

ghost use Rattle.std.specs.Prelude.{◌≡◌, ℕ, ◌+◌, ◌*◌, ◌^◌, ◌<◌, ◌≤◌, true, false, pos, ◌*ℤ◌, ◌<ℤ◌, ◌≤ℤ◌, unsigned_abs};
ghost use Rattle.fixed_geom.specs.Numbers.{rdiv};
ghost use Rattle.fixed_geom.specs.Vectors.{IsWithin, unit_length, dot, cross};
ghost use Rattle.shapes.specs.Poses.{IsPosed};
ghost use Rattle.shapes.specs.Cores.{is_point, way_of, part_clamped, closest, side, are_opposite, is_parted, cores_cross};

use crate::Core;
use fixed_geom::{
    UNIT, Vec2, cross, cross_64, dot, dot_64, is_within, minus, moved, moved_64, rdiv, share,
};

/// Up to this size of the components of two ways, in u, their products have room in 64 bits.
const MAX_WAY_64: u64 = 1 << 30;

/// Both ends are at one place.
#[tactic(auto, unfolding(crate::specs::Cores::is_point))]
pub(crate) fn is_point(core: &Core) -> bool
    ensures { result ≡ is_point core.now }
{
    core.p.x == core.q.x && core.p.y == core.q.y
}

/// From the first end to the second.
#[tactic(auto, unfolding(crate::specs::Cores::is_point))]
pub(crate) fn way_of(core: &Core) -> Vec2
    requires { IsPosed core.now }
    ensures value { result ≡ way_of core.now }
    ensures within { IsWithin (2 ^ 38) result }
    ensures wide { is_point core.now ≡ false → 0 < unsigned_abs result.x + unsigned_abs result.y }
{
    minus(core.q, core.p)
}

/// `x` times 2^30.
fn times_unit(x: i128) -> i128
    requires { unsigned_abs x ≤ 2 ^ 90 }
    ensures value { result ≡ x *ℤ unit_length }
    ensures small { unsigned_abs result ≤ 2 ^ 120 }
{
    x * i128::from(UNIT)
}

/// `part / whole`, times 2^30 and to the nearest, of a part of the whole.
fn inner_fraction(part: i128, whole: i128) -> i64
    requires nonnegative { pos 0 ≤ℤ part }
    requires inside { part ≤ℤ whole }
    requires small { unsigned_abs part ≤ 2 ^ 90 }
    requires positive { pos 0 <ℤ whole }
    ensures value { result ≡ part_clamped (rdiv (part *ℤ unit_length) whole) }
    ensures within { unsigned_abs result ≤ 2 ^ 30 }
{
    rdiv(times_unit(part), whole) as i64
}

/// `part / whole`, times 2^30 and to the nearest, brought within 0 to 2^30. Only a part that is
/// inside the whole has to be divided.
fn fraction(part: i128, whole: i128) -> i64
    requires part { unsigned_abs part ≤ 2 ^ 90 }
    requires positive { pos 0 <ℤ whole }
    ensures value { result ≡ part_clamped (rdiv (part *ℤ unit_length) whole) }
    ensures within { unsigned_abs result ≤ 2 ^ 30 }
{
    if part <= 0 {
        return 0;
    }
    if part >= whole {
        return UNIT;
    }
    inner_fraction(part, whole)
}

/// `share` of a part that is inside the whole.
fn inner_share(part: i64, whole: i64) -> i64
    requires nonnegative { pos 0 ≤ℤ part }
    requires inside { part ≤ℤ whole }
    requires positive { pos 0 <ℤ whole }
    ensures value { result ≡ part_clamped (rdiv (part *ℤ unit_length) whole) }
    ensures within { unsigned_abs result ≤ 2 ^ 30 }
{
    share(part, whole)
}

/// `fraction` in 64 bits.
fn fraction_64(part: i64, whole: i64) -> i64
    requires positive { pos 0 <ℤ whole }
    ensures value { result ≡ part_clamped (rdiv (part *ℤ unit_length) whole) }
    ensures within { unsigned_abs result ≤ 2 ^ 30 }
{
    if part <= 0 {
        return 0;
    }
    if part >= whole {
        return UNIT;
    }
    inner_share(part, whole)
}

/// The products of two ways have room in 64 bits.
#[inline(always)]
fn have_products_64(a: Vec2, b: Vec2) -> bool
    ensures first { result ≡ true → IsWithin (2 ^ 30) a }
    ensures second { result ≡ true → IsWithin (2 ^ 30) b }
{
    if is_within(a, MAX_WAY_64) {
        is_within(b, MAX_WAY_64)
    } else {
        false
    }
}

/// How far along a way its point nearest to the end of `from` lies, times 2^30; both begin at one
/// place, and both are near.
fn share_along_64(way: Vec2, from: Vec2) -> i64
    requires way { IsWithin (2 ^ 30) way }
    requires position { IsWithin (2 ^ 30) from }
    requires wide { 0 < unsigned_abs way.x + unsigned_abs way.y }
    ensures value { result ≡ part_clamped (rdiv (dot from way *ℤ unit_length) (dot way way)) }
    ensures within { unsigned_abs result ≤ 2 ^ 30 }
{
    fraction_64(dot_64(from, way), dot_64(way, way))
}

/// The same of any others.
fn share_along(way: Vec2, from: Vec2) -> i64
    requires way { IsWithin (2 ^ 38) way }
    requires position { IsWithin (2 ^ 38) from }
    requires wide { 0 < unsigned_abs way.x + unsigned_abs way.y }
    ensures value { result ≡ part_clamped (rdiv (dot from way *ℤ unit_length) (dot way way)) }
    ensures within { unsigned_abs result ≤ 2 ^ 30 }
{
    fraction(dot(from, way), dot(way, way))
}

/// The nearest point of a core that is no point, by the way along it and the way from its first end to `e`.
fn closest_along(core: &Core, e: Vec2) -> Vec2
    requires wide { is_point core.now ≡ false }
    requires core { IsPosed core.now }
    requires position { IsWithin (2 ^ 37) e }
    ensures value { result ≡ closest core.now e }
    ensures within { IsWithin (2 ^ 39) result }
{
    let way = way_of(core);
    let from = minus(e, core.p);
    if have_products_64(way, from) {
        moved_64(core.p, way, share_along_64(way, from))
    } else {
        moved(core.p, way, share_along(way, from))
    }
}

/// The core's point nearest to `e`, but for rounding.
pub(crate) fn closest(core: &Core, e: Vec2) -> Vec2
    requires core { IsPosed core.now }
    requires position { IsWithin (2 ^ 37) e }
    ensures value { result ≡ closest core.now e }
    ensures within { IsWithin (2 ^ 39) result }
{
    if is_point(core) {
        return core.p;
    }
    closest_along(core, e)
}

/// On which side of the core's line `e` lies: above zero to the left, zero on the line.
fn side(core: &Core, e: Vec2) -> i128
    requires core { IsPosed core.now }
    requires position { IsWithin (2 ^ 37) e }
    ensures value { result ≡ side core.now e }
{
    cross(way_of(core), minus(e, core.p))
}

/// The ends of `other` lie strictly on different sides of the line of the first core.
#[tactic(auto, unfolding(crate::specs::Cores::is_parted))]
fn are_sides_apart(line: &Core, other: &Core) -> bool
    requires line { IsPosed line.now }
    requires other { IsPosed other.now }
    ensures { result ≡ is_parted line.now other.now }
{
    let first = side(line, other.p);
    let second = side(line, other.q);
    (first > 0 && second < 0) || (first < 0 && second > 0)
}

/// One is above zero and the other below.
fn are_opposite(a: i64, b: i64) -> bool
    ensures { result ≡ are_opposite a b }
{
    (a > 0 && b < 0) || (a < 0 && b > 0)
}

/// The ends of two ways lie strictly on different sides of a third; all begin at one place, and all
/// are near.
fn are_sides_apart_64(way: Vec2, first: Vec2, second: Vec2) -> bool
    requires way { IsWithin (2 ^ 30) way }
    requires first { IsWithin (2 ^ 30) first }
    requires second { IsWithin (2 ^ 30) second }
    ensures { result ≡ are_opposite (cross way first) (cross way second) }
{
    are_opposite(cross_64(way, first), cross_64(way, second))
}

/// `are_sides_apart`, in 64 bits where the cores are near.
fn is_parted(line: &Core, other: &Core) -> bool
    requires line { IsPosed line.now }
    requires other { IsPosed other.now }
    ensures { result ≡ is_parted line.now other.now }
{
    let way = way_of(line);
    let first = minus(other.p, line.p);
    let second = minus(other.q, line.p);
    if have_products_64(way, first) {
        if is_within(second, MAX_WAY_64) {
            return are_sides_apart_64(way, first, second);
        }
    }
    are_sides_apart(line, other)
}

/// Two cores cross where neither is a point and the ends of each lie strictly on different sides
/// of the other's line.
#[tactic(auto, unfolding(crate::specs::Cores::cores_cross))]
pub(crate) fn cores_cross(a: &Core, b: &Core) -> bool
    requires first { IsPosed a.now }
    requires second { IsPosed b.now }
    ensures { result ≡ cores_cross a.now b.now }
{
    if is_point(a) {
        return false;
    }
    if is_point(b) {
        return false;
    }
    if is_parted(a, b) {
        is_parted(b, a)
    } else {
        false
    }
}
