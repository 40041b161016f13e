//! A shape by its name, as it lies in the world.

ghost use Rattle.std.specs.Prelude.{◌≡◌, IfSome, option_map};
ghost use Rattle.plain_world.specs.Placement.{shape_of};
ghost use Rattle.shape_rays.specs.Hits.{IsPosedShape};
ghost use Rattle.world_queries.specs.Posed.{named};

use contacts_base::ShapeId;
use shape_rays::PosedShape;
use world_core::WorldCore;

/// The shape of this name as it lies in the world; `None` where it names no shape of an enabled body.
pub(crate) fn posed_shape(world: &WorldCore, id: ShapeId) -> Option<PosedShape>
    ensures value { result ≡ option_map (named id) (shape_of world.now.plain.bodies id) }
    ensures posed { IfSome result (λ posed. IsPosedShape posed) }
{
    let (shape, pose) = world.shape_of(id)?;
    Some(PosedShape {
        id,
        shape: *shape,
        pose,
    })
}
