//! Which of the shapes that a frame shows lie over a region.

ghost use Rattle.std.specs.Prelude.{◌≡◌, ◌++◌, IfOk, IfSome, OnOk, Some};
ghost use Rattle.std.specs.Result.{IsOkUnless};
ghost use Rattle.shape_rays.specs.Hits.{region};
ghost use Rattle.world_core.specs.Frames.{IsFrameBody};
ghost use Rattle.world_queries.specs.Framed.{framed_at, framed_shapes};

use crate::framed::framed_shape;
use crate::regions::add_over;
use contacts_base::ShapeId;
use fixed_geom::{Box2, Refusal};
use shapes::MAX_SHAPES;
use std::alloc::Global;
use world_core::{Frame, FrameBody};

/// Adds the shapes of a body that lie over the region.
fn add_body(found: &mut Vec<ShapeId>, bounds: &Box2, body: &FrameBody) -> Result<(), Refusal>
    requires { IsFrameBody body.now.handle.slot body.now }
    ensures found { OnOk result (found.new.items ≡ found.old.items ++ region bounds.now (framed_at (Some body.now))) }
    ensures memory_only { IsOkUnless result Refusal.NoMemory }
{
    for index in 0..MAX_SHAPES {
        let Some(posed) = framed_shape(body, index as u8) else {
            return Ok(());
        };
        add_over(found, bounds, &posed)?;
    }
    Ok(())
}

/// Adds the shapes of what is shown in a slot that lie over the region.
fn add_shown(
    found: &mut Vec<ShapeId>,
    bounds: &Box2,
    shown: &Option<FrameBody>,
) -> Result<(), Refusal>
    requires { IfSome shown.now (λ b. IsFrameBody b.handle.slot b) }
    ensures found { OnOk result (found.new.items ≡ found.old.items ++ region bounds.now (framed_at shown.now)) }
    ensures memory_only { IsOkUnless result Refusal.NoMemory }
{
    match shown {
        None => Ok(()),
        Some(body) => add_body(found, bounds, body),
    }
}

/// All shapes of the bodies that a frame shows whose tight box overlaps the region, ascending by name; a box that only
/// touches it does. They are what [`region`](crate::region) finds in the world that the frame is of. It looks at each
/// shape.
pub fn frame_region(alloc: Global, frame: &Frame, bounds: &Box2) -> Result<Vec<ShapeId>, Refusal>
    ensures shapes { IfOk result (λ found. found.items ≡ region bounds.now (framed_shapes frame.now.bodies)) }
    ensures memory_only { IsOkUnless result Refusal.NoMemory }
{
    let mut found = Vec::new(alloc);
    for shown in frame.bodies() {
        add_shown(&mut found, bounds, shown)?;
    }
    Ok(found)
}
