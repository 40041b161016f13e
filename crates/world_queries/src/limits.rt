//! Which rays and regions may be asked about.

ghost use Rattle.std.specs.Prelude.{◌≡◌, ◌↔◌, IsTrue, pos};
ghost use Rattle.shapes.specs.Rays.{IsBeam, beam_of};
ghost use Rattle.world_queries.specs.Limits.{is_ordered, is_region};

use fixed_geom::{Box2, MAX_CORNER, MAX_POSITION, Vec2, is_within};
use shapes::MAX_RAY;

/// Whether a world may be asked about a ray: its start is within 2^36 u in each coordinate, its way within 2^28 u in
/// each. A way of zero may be asked about.
pub fn is_ray(from: Vec2, along: Vec2) -> bool
    ensures { IsTrue result ↔ IsBeam (beam_of from along) }
{
    is_within(from, MAX_POSITION as u64) && is_within(along, MAX_RAY as u64)
}

/// Whether neither coordinate of the first is above that of the second.
fn is_ordered(lo: Vec2, hi: Vec2) -> bool
    ensures { result ≡ is_ordered lo hi }
{
    lo.x <= hi.x && lo.y <= hi.y
}

/// Whether a world may be asked about a region: its corners are within 2^37 u in each coordinate, and the lower one
/// isn't above the upper one in either.
pub fn is_region(bounds: &Box2) -> bool
    ensures { result ≡ is_region bounds.now }
{
    is_within(bounds.lo, MAX_CORNER as u64)
        && is_within(bounds.hi, MAX_CORNER as u64)
        && is_ordered(bounds.lo, bounds.hi)
}

/// The law of the limits: the numbers that definitions take from the code, in digits. The function does nothing; its
/// contract is the law.
pub fn limits_in_digits()
    ensures corner { MAX_CORNER ≡ pos 137438953472 }
{}
