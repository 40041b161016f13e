//! The least box round two, and boxes well within others.

ghost use Rattle.std.specs.Prelude.{◌≡◌, ◌≤ℤ◌, IsTrue};
ghost use Rattle.fixed_geom.specs.Boxes.{Contains};
ghost use Rattle.box_tree_base.specs.Joins.{joined};

use fixed_geom::{Box2, Vec2};

/// The least box round both.
pub(crate) fn joined(a: &Box2, b: &Box2) -> Box2
    ensures { result ≡ joined a.now b.now }
{
    Box2 {
        lo: Vec2 {
            x: a.lo.x.min(b.lo.x),
            y: a.lo.y.min(b.lo.y),
        },
        hi: Vec2 {
            x: a.hi.x.max(b.hi.x),
            y: a.hi.y.max(b.hi.y),
        },
    }
}

/// On one axis, `low` to `high` lies between `lo` and `hi` and comes to neither.
fn is_between(lo: i64, hi: i64, low: i64, high: i64) -> bool
    ensures { IsTrue result → (lo ≤ℤ low) × (high ≤ℤ hi) }
{
    lo < low && high < hi
}

/// Whether the inner box lies within the outer one and comes to none of its sides.
pub(crate) fn is_inside(outer: &Box2, inner: &Box2) -> bool
    ensures { IsTrue result → Contains outer.now inner.now }
{
    is_between(outer.lo.x, outer.hi.x, inner.lo.x, inner.hi.x)
        && is_between(outer.lo.y, outer.hi.y, inner.lo.y, inner.hi.y)
}
