//! What a ray hits of one shape: where, and how the surface faces there (Box2D: `b2Shape_RayCast`).

ghost use Rattle.std.specs.Prelude.{◌≡◌, IfSome};
ghost use Rattle.shapes.specs.Rays.{IsBeam, beam_of};
ghost use Rattle.shape_rays.specs.Hits.{IsPosedShape};
ghost use Rattle.world_queries.specs.ByBoxes.{hit_of_posed};
ghost use Rattle.world_queries.specs.OnShape.{hit_on_shape};

use crate::shapes_in::posed_shape;
use contacts_base::ShapeId;
use fixed_geom::{Refusal, Vec2};
use shape_rays::{PosedShape, ShapeHit};
use world_core::WorldCore;

/// The ray's hit on a shape that was found by its name; refused 2 where none was.
fn hit_of(found: Option<PosedShape>, from: Vec2, along: Vec2) -> Result<Option<ShapeHit>, Refusal>
    requires found { IfSome found (λ posed. IsPosedShape posed) }
    requires ray { IsBeam (beam_of from along) }
    ensures { result ≡ hit_of_posed (beam_of from along) found }
{
    match found {
        None => Err(Refusal::StaleHandle),
        Some(posed) => Ok(shape_rays::ray_on_shape(&posed.shape, posed.pose, from, along)),
    }
}

/// The ray's first hit on the shape of this name: the fraction, in 2^24ths of the way, the point, in u, and the normal,
/// times 2^30, from the shape outwards; `None` where the ray misses it. So what is told of a hit is its shape's here,
/// as the shape lies now. Refused 2 where the name is of no shape of an enabled body. The start, in u, is within 2^36
/// in each coordinate, the way within 2^28. It takes no memory.
pub fn ray_on_shape(
    world: &WorldCore,
    from: Vec2,
    along: Vec2,
    id: ShapeId,
) -> Result<Option<ShapeHit>, Refusal>
    requires { IsBeam (beam_of from along) }
    ensures { result ≡ hit_on_shape world.now.plain.bodies (beam_of from along) id }
{
    hit_of(posed_shape(world, id), from, along)
}
