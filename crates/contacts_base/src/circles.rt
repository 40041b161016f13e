//! Circles that are apart, of which no point is computed.

ghost use Rattle.std.specs.Prelude.{◌≡◌, ◌^◌, ◌≤◌, true, pos, ◌+ℤ◌, ◌≤ℤ◌, ◌<ℤ◌, unsigned_abs};
ghost use Rattle.fixed_geom.specs.Vectors.{IsWithin, minus, span};
ghost use Rattle.shapes.specs.Discs.{IsDisc};

use fixed_geom::{Vec2, dot_64, is_within, minus};
use shapes::Disc;

/// A way of the length `reach + 1`.
fn next_way(reach: i64) -> Vec2
    requires { unsigned_abs reach ≤ 2 ^ 25 }
    ensures value { result ≡ record { x = reach +ℤ pos 1; y = pos 0 } }
    ensures within { IsWithin (2 ^ 26) result }
{
    Vec2 { x: reach + 1, y: 0 }
}

/// Whether `way` is longer than `reach`: told by a coordinate, or else by the squares, for which 64
/// bits have room then.
fn is_longer(way: Vec2, reach: i64) -> bool
    requires way { IsWithin (2 ^ 38) way }
    requires nonnegative { pos 0 ≤ℤ reach }
    requires small { unsigned_abs reach ≤ 2 ^ 25 }
    ensures { result ≡ true → reach <ℤ span way }
{
    if !is_within(way, reach.unsigned_abs()) {
        return true;
    }
    let next = next_way(reach);
    dot_64(way, way) >= dot_64(next, next)
}

/// Whether two circles are apart. Where they aren't known to be, nothing is said.
#[inline(always)]
pub(crate) fn are_discs_apart(a: Disc, b: Disc) -> bool
    requires first { IsDisc a }
    requires second { IsDisc b }
    ensures { result ≡ true → (a.radius +ℤ b.radius) <ℤ span (minus b.center a.center) }
{
    is_longer(minus(b.center, a.center), a.radius + b.radius)
}
