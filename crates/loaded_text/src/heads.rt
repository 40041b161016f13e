//! The numbers of a saved world, and whether they fit.

ghost use Rattle.std.specs.Prelude.{◌≡◌, ◌≤◌, ◌*◌, IsTrue, true};
ghost use Rattle.loaded_text.specs.Bodies.{are_timed};
ghost use Rattle.world_file.specs.Saved.{most_calls, most_ticks};

use crate::body_slots::are_timed;
use plain_world::Body;
use world_file::MOST_TICKS;
use world_rules::MAX_CALLS;

/// Whether a world that accepted so many calls, so many of them steps, may have these bodies.
pub(crate) fn are_heads_fitting(calls: u64, steps: u64, bodies: &[Option<Body>]) -> bool
    ensures calls { IsTrue result → calls ≤ most_calls }
    ensures steps { IsTrue result → steps ≤ calls }
    ensures timed { IsTrue result → are_timed (steps * most_ticks) bodies.now ≡ true }
{
    calls <= MAX_CALLS && steps <= calls && are_timed(bodies, steps * MOST_TICKS)
}
