//! What a ray hits first of the shapes that a frame shows.

ghost use Rattle.std.specs.Prelude.{◌≡◌, IfSome, Some};
ghost use Rattle.shapes.specs.Rays.{IsBeam, beam_of};
ghost use Rattle.shape_rays.specs.Hits.{first_hit};
ghost use Rattle.world_core.specs.Frames.{IsFrameBody};
ghost use Rattle.world_queries.specs.Framed.{framed_at, framed_shapes};

use crate::framed::framed_shape;
use fixed_geom::Vec2;
use shape_rays::{Hit, RayCast, hit_on, nearer};
use shapes::MAX_SHAPES;
use world_core::{Frame, FrameBody};

/// The ray's first hit on the shapes of a body.
fn hit_on_body(cast: &RayCast, body: &FrameBody) -> Option<Hit>
    requires { IsFrameBody body.now.handle.slot body.now }
    ensures { result ≡ first_hit cast.now (framed_at (Some body.now)) }
{
    let mut best: Option<Hit> = None;
    for index in 0..MAX_SHAPES {
        let Some(posed) = framed_shape(body, index as u8) else {
            return best;
        };
        best = nearer(best, hit_on(cast, &posed));
    }
    best
}

/// The ray's first hit on what is shown in a slot.
fn hit_in_slot(cast: &RayCast, shown: &Option<FrameBody>) -> Option<Hit>
    requires { IfSome shown.now (λ b. IsFrameBody b.handle.slot b) }
    ensures { result ≡ first_hit cast.now (framed_at shown.now) }
{
    match shown {
        None => None,
        Some(body) => hit_on_body(cast, body),
    }
}

/// The ray's first hit on the shapes of all bodies that a frame shows: the least by its fraction, in 2^24ths of the
/// way, and then by the shape's name. It is what [`ray`](crate::ray) hits first in the world that the frame is of. The
/// start, in u, is within 2^36 in each coordinate, the way within 2^28. It looks at each shape, and takes no memory.
pub fn frame_ray(frame: &Frame, from: Vec2, along: Vec2) -> Option<Hit>
    requires { IsBeam (beam_of from along) }
    ensures { result ≡ first_hit (beam_of from along) (framed_shapes frame.now.bodies) }
{
    let cast = RayCast::new(from, along);
    let mut best: Option<Hit> = None;
    for shown in frame.bodies() {
        best = nearer(best, hit_in_slot(&cast, shown));
    }
    best
}
