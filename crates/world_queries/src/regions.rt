//! Regions: which shapes overlap a box (Box2D: `b2World_OverlapAABB`).

ghost use Rattle.std.specs.Prelude.{◌≡◌, [], ◌∷◌, ◌++◌, IfErr, IfOk, None, OnOk};
ghost use Rattle.std.specs.Result.{IsOkUnless};
ghost use Rattle.plain_world.specs.Slots.{body_at};
ghost use Rattle.shape_rays.specs.Hits.{IsPosedShape, region};
ghost use Rattle.world_rules.specs.Sound.{IsSound};
ghost use Rattle.world_queries.specs.Filters.{IsDueOrWanting, filter_refusal, names_through, shapes_through};
ghost use Rattle.world_queries.specs.Posed.{shapes_at, posed_shapes};

use crate::filters::QueryFilter;
use crate::shapes_in::posed_shape;
use contacts_base::ShapeId;
use fixed_geom::{Box2, Refusal};
use plain_world::Body;
use shape_rays::{PosedShape, is_over};
use shapes::MAX_SHAPES;
use std::alloc::Global;
use world_core::WorldCore;

/// Adds the shape if it lies over the region.
pub(crate) fn add_over(
    found: &mut Vec<ShapeId>,
    bounds: &Box2,
    posed: &PosedShape,
) -> Result<(), Refusal>
    requires { IsPosedShape posed.now }
    ensures found { OnOk result (found.new.items ≡ found.old.items ++ region bounds.now (posed.now ∷ [])) }
    ensures memory_only { IsOkUnless result Refusal.NoMemory }
{
    if is_over(&posed.shape, posed.pose, bounds) {
        found.push(posed.id)?;
    }
    Ok(())
}

/// Adds the shapes of the body in a slot that lie over the region.
fn add_at_slot(
    found: &mut Vec<ShapeId>,
    world: &WorldCore,
    bounds: &Box2,
    slot: u32,
) -> Result<(), Refusal>
    requires { IsSound world.now }
    ensures found { OnOk result (found.new.items ≡ found.old.items ++ region bounds.now (shapes_at slot (body_at world.now.plain.bodies slot))) }
    ensures memory_only { IsOkUnless result Refusal.NoMemory }
{
    for index in 0..MAX_SHAPES {
        let id = ShapeId {
            slot,
            index: index as u8,
        };
        let Some(posed) = posed_shape(world, id) else {
            return Ok(());
        };
        add_over(found, bounds, &posed)?;
    }
    Ok(())
}

/// All shapes of enabled bodies whose tight box overlaps the region, ascending by name; a box that only touches it
/// does. It looks at the bodies whose boxes overlap the region.
pub fn region(alloc: Global, world: &WorldCore, bounds: &Box2) -> Result<Vec<ShapeId>, Refusal>
    ensures shapes { IfOk result (λ found. found.items ≡ region bounds.now (posed_shapes world.now.plain.bodies)) }
    ensures memory_only { IsOkUnless result Refusal.NoMemory }
{
    let slots = world.tree().overlapping(bounds)?;
    let mut found = Vec::with_capacity(alloc, slots.len())?;
    for slot in &slots {
        add_at_slot(&mut found, world, bounds, *slot)?;
    }
    Ok(found)
}

/// Those of these names that the filter lets through, in their order.
fn names_through(
    alloc: Global,
    bodies: &[Option<Body>],
    filter: &QueryFilter,
    ids: &[ShapeId],
) -> Result<Vec<ShapeId>, Refusal>
    ensures names { IfOk result (λ kept. kept.items ≡ names_through filter.now bodies.now ids.now) }
    ensures memory_only { IsOkUnless result Refusal.NoMemory }
{
    let mut kept = Vec::new(alloc);
    for id in ids {
        if filter.lets_through(bodies, *id) {
            kept.push(*id)?;
        }
    }
    Ok(kept)
}

/// Those of the shapes over a region, as [`region`] has them, that the filter lets through. Refused 2 where the filter
/// leaves out a body that doesn't live, else 1 where memory is wanting.
pub fn filtered_region(
    alloc: Global,
    world: &WorldCore,
    bounds: &Box2,
    filter: QueryFilter,
) -> Result<Vec<ShapeId>, Refusal>
    ensures allowed { OnOk result (filter_refusal world.now.plain filter ≡ None) }
    ensures shapes { IfOk result (λ found. found.items ≡ region bounds.now (shapes_through filter world.now.plain.bodies)) }
    ensures why { IfErr result (λ e. IsDueOrWanting (filter_refusal world.now.plain filter) e) }
{
    filter.check(world)?;
    let found = region(alloc, world, bounds)?;
    Ok(names_through(alloc, world.bodies(), &filter, &found)?)
}
