//! Where a shape lies in the world.

ghost use Rattle.std.specs.Prelude.{◌≡◌, option_map};
ghost use Rattle.contacts_base.specs.Surfaces.{IsSurface};
ghost use Rattle.plain_world.specs.Formed.{surface_of};
ghost use Rattle.plain_world.specs.Placement.{shape_of};
ghost use Rattle.shapes.specs.Shapes.{IsShapeDef};

use crate::body::Body;
use crate::slots::item_at;
use contacts_base::{ShapeId, Surface};
use shapes::{Pose, Shape, ShapeDef};

/// The friction and the restitution of a shape.
#[inline(always)]
pub fn surface_of(def: &ShapeDef) -> Surface
    ensures value { result ≡ surface_of def.now }
    ensures surface { IsShapeDef def.now → IsSurface result }
{
    Surface {
        friction: def.friction,
        restitution: def.restitution,
    }
}

/// The shape of this name, and the pose of its body; `None` where it names no shape of an enabled body.
pub fn shape_of(bodies: &[Option<Body>], id: ShapeId) -> Option<(&Shape, Pose)>
    ensures { option_map (λ found. (found.0.now, found.1)) result ≡ shape_of bodies.now id }
{
    let body = item_at(bodies, id.slot as usize)?;
    if !body.enabled {
        return None;
    }
    let def = body.shapes.as_slice().get(id.index as usize)?;
    Some((&def.shape, body.pose()))
}
