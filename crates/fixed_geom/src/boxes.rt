//! Boxes with sides along the axes.

ghost use Rattle.std.specs.Prelude.{◌≡◌, ℕ, ◌+◌, ◌^◌, ◌≤◌, pos, ◌≤ℤ◌, unsigned_abs, IsTrue, ◌↔◌};
ghost use Rattle.fixed_geom.specs.Boxes.{IsBoxWithin, Overlaps, spans_meet, overlaps, Contains, covers, contains, grow};

use crate::Vec2;

/// A box from its lower to its upper corner, in u. Its sides belong to it.
#[derive(Clone, Copy, Debug, Default, PartialEq, Eq)]
pub struct Box2 {
    pub lo: Vec2,
    pub hi: Vec2,
}

/// On one axis, `lo` to `hi` and `low` to `high` have a number in common.
#[tactic(auto, unfolding(crate::specs::Boxes::spans_meet))]
fn meets(lo: i64, hi: i64, low: i64, high: i64) -> bool
    ensures value { result ≡ spans_meet lo hi low high }
    ensures meets { IsTrue result ↔ ((lo ≤ℤ high) × (low ≤ℤ hi)) }
{
    lo <= high && low <= hi
}

/// Some point is in both. Boxes that only touch do overlap.
pub fn overlaps(a: Box2, b: Box2) -> bool
    ensures value { result ≡ overlaps a b }
    ensures overlaps { IsTrue result ↔ Overlaps a b }
{
    meets(a.lo.x, a.hi.x, b.lo.x, b.hi.x) && meets(a.lo.y, a.hi.y, b.lo.y, b.hi.y)
}

/// On one axis, `lo` to `hi` holds `low` to `high`.
#[tactic(auto, unfolding(crate::specs::Boxes::covers))]
fn covers(lo: i64, hi: i64, low: i64, high: i64) -> bool
    ensures value { result ≡ covers lo hi low high }
    ensures covers { IsTrue result ↔ ((lo ≤ℤ low) × (high ≤ℤ hi)) }
{
    lo <= low && high <= hi
}

/// Each side of the inner box is in the outer one. A box contains itself.
pub fn contains(outer: Box2, inner: Box2) -> bool
    ensures value { result ≡ contains outer inner }
    ensures contains { IsTrue result ↔ Contains outer inner }
{
    covers(outer.lo.x, outer.hi.x, inner.lo.x, inner.hi.x)
        && covers(outer.lo.y, outer.hi.y, inner.lo.y, inner.hi.y)
}

/// The box with each side moved out by `by`, which is at most 2^61 in size, as the corners are;
/// a `by` below zero moves them in.
pub fn grow(b: Box2, by: i64) -> Box2
    requires corners { IsBoxWithin (2 ^ 61) b }
    requires by { unsigned_abs by ≤ 2 ^ 61 }
    ensures value { result ≡ grow b by }
    ensures within { (k : ℕ) → IsBoxWithin k b → IsBoxWithin (k + unsigned_abs by) result }
    ensures contains { pos 0 ≤ℤ by → Contains result b }
{
    Box2 {
        lo: Vec2 {
            x: b.lo.x - by,
            y: b.lo.y - by,
        },
        hi: Vec2 {
            x: b.hi.x + by,
            y: b.hi.y + by,
        },
    }
}
