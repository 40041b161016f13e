//! Laws of rays among shapes. Each function does nothing; its contract is a law.

ghost use Rattle.shape_rays.specs.Laws.{AreInAnyOrder, PartsGiveTheFirst, MissesWithin, MetIsReached, HitLiesInBox, UnreachedIsMissed};

/// The nearer of two hits may be taken in any order and grouping, and none counts for nothing.
pub fn hits_combine_in_any_order()
    ensures { AreInAnyOrder }
{}

/// The first hit on two lists of shapes is the nearer of the first hits on each.
pub fn parts_give_the_first()
    ensures { PartsGiveTheFirst }
{}

/// A ray that doesn't reach a box reaches none within it.
pub fn misses_within()
    ensures { MissesWithin }
{}

/// A ray reaches each box with a point of its way in it, or no further from it than [`RAY_SLACK`](crate::RAY_SLACK) on
/// each side.
pub fn met_is_reached()
    ensures { MetIsReached }
{}

/// Where a ray hits a shape, the point of its way lies in the shape's tight box, but for
/// [`RAY_SLACK`](crate::RAY_SLACK) on each side. So a ray that is cut off there still reaches the box.
pub fn a_hit_lies_in_the_box()
    ensures { HitLiesInBox }
{}

/// A shape whose tight box lies in a box that the ray doesn't reach isn't hit.
pub fn what_is_not_reached_is_missed()
    ensures { UnreachedIsMissed }
{}
