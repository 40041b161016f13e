//! The shapes that a frame shows.

ghost use Rattle.std.specs.Prelude.{◌≡◌, IfSome};
ghost use Rattle.shape_rays.specs.Hits.{IsPosedShape};
ghost use Rattle.world_core.specs.Frames.{IsFrameBody};
ghost use Rattle.world_queries.specs.Framed.{framed_shape};

use contacts_base::ShapeId;
use shape_rays::PosedShape;
use world_core::FrameBody;

/// The shape of a body with this index, as a frame shows it; `None` where the body has no such shape.
pub(crate) fn framed_shape(body: &FrameBody, index: u8) -> Option<PosedShape>
    requires { IsFrameBody body.now.handle.slot body.now }
    ensures value { result ≡ framed_shape body.now index }
    ensures posed { IfSome result (λ posed. IsPosedShape posed) }
{
    let def = body.shapes.as_slice().get(index as usize)?;
    Some(PosedShape {
        id: ShapeId {
            slot: body.handle.slot,
            index,
        },
        shape: def.shape,
        pose: body.pose,
    })
}
