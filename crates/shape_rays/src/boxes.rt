//! Boxes along the way of a ray.

ghost use Rattle.std.specs.Prelude.{◌≡◌, ◌+◌, ◌^◌, ◌≤◌, pos, unsigned_abs};
ghost use Rattle.fixed_geom.specs.Boxes.{IsBoxWithin, Overlaps};
ghost use Rattle.fixed_geom.specs.Vectors.{IsWithin, minus};
ghost use Rattle.shapes.specs.Rays.{beam_of};
ghost use Rattle.shape_rays.specs.Reach.{lowest, highest, box_round, common, extent, sizes_across, is_at_most, is_crossed};

use fixed_geom::{Box2, MAX_POSITION, Vec2, cross_64, dot_64, plus};
use shapes::MAX_RAY;

/// How far from a box, in u, a ray may pass and is still taken to meet what is in it. A hit is told in whole 2^24ths of
/// the way, rounded down, so that its place is up to 16 u before the shape in each coordinate.
pub const RAY_SLACK: i64 = 64;

/// The least number on the way along one axis, less the slack.
fn lowest(from: i64, along: i64) -> i64
    requires from { unsigned_abs from ≤ unsigned_abs MAX_POSITION }
    requires along { unsigned_abs along ≤ unsigned_abs MAX_RAY }
    ensures value { result ≡ lowest from along }
{
    from + along.min(0) - RAY_SLACK
}

/// The greatest number on the way along one axis, and the slack.
fn highest(from: i64, along: i64) -> i64
    requires from { unsigned_abs from ≤ unsigned_abs MAX_POSITION }
    requires along { unsigned_abs along ≤ unsigned_abs MAX_RAY }
    ensures value { result ≡ highest from along }
{
    from + along.max(0) + RAY_SLACK
}

/// The box round the way of a ray, with the slack on each side.
pub(crate) fn box_round(from: Vec2, along: Vec2) -> Box2
    requires from { IsWithin (unsigned_abs MAX_POSITION) from }
    requires along { IsWithin (unsigned_abs MAX_RAY) along }
    ensures { result ≡ box_round (beam_of from along) }
{
    Box2 {
        lo: Vec2 {
            x: lowest(from.x, along.x),
            y: lowest(from.y, along.y),
        },
        hi: Vec2 {
            x: highest(from.x, along.x),
            y: highest(from.y, along.y),
        },
    }
}

/// What two boxes that overlap have in common.
pub(crate) fn common(a: &Box2, b: &Box2) -> Box2
    ensures { result ≡ common a.now b.now }
{
    Box2 {
        lo: Vec2 {
            x: a.lo.x.max(b.lo.x),
            y: a.lo.y.max(b.lo.y),
        },
        hi: Vec2 {
            x: a.hi.x.min(b.hi.x),
            y: a.hi.y.min(b.hi.y),
        },
    }
}

/// The width and the height of the box from `low` to `high`, with the slack on each side.
fn extent(low: Vec2, high: Vec2) -> Vec2
    requires low { IsWithin (2 ^ 29) low }
    requires high { IsWithin (2 ^ 29) high }
    ensures value { result ≡ extent low high }
    ensures within { IsWithin (2 ^ 31) result }
{
    Vec2 {
        x: high.x - low.x + 2 * RAY_SLACK,
        y: high.y - low.y + 2 * RAY_SLACK,
    }
}

/// The sizes of the parts of a way, exchanged.
fn sizes_across(along: Vec2) -> Vec2
    requires { IsWithin (unsigned_abs MAX_RAY) along }
    ensures value { result ≡ sizes_across along }
    ensures within { IsWithin (2 ^ 30) result }
{
    Vec2 {
        x: along.y.unsigned_abs() as i64,
        y: along.x.unsigned_abs() as i64,
    }
}

/// Whether a number is at most `limit` in size.
#[inline(always)]
fn is_at_most(number: i64, limit: i64) -> bool
    requires { unsigned_abs limit ≤ 2 ^ 62 }
    ensures value { result ≡ is_at_most number limit }
{
    if number < -limit {
        return false;
    }
    number <= limit
}

/// Whether the line along a way passes the box, with its slack, from `low` to `high`, both taken from a place on the
/// line. The box's middle is then no further from the line than the box reaches (Ericson, 'Real-Time Collision
/// Detection', 5.3.3).
pub(crate) fn is_crossed(along: Vec2, low: Vec2, high: Vec2) -> bool
    requires along { IsWithin (unsigned_abs MAX_RAY) along }
    requires low { IsWithin (2 ^ 29) low }
    requires high { IsWithin (2 ^ 29) high }
    ensures { result ≡ is_crossed along low high }
{
    let middle = cross_64(plus(low, high), along);
    let half = dot_64(extent(low, high), sizes_across(along));
    is_at_most(middle, half)
}

/// The law of the limits: the numbers that definitions take from the code, in digits. The function does nothing; its
/// contract is the law.
pub fn limits_in_digits()
    ensures slack { RAY_SLACK ≡ pos 64 }
{}
