//! All hits of a ray, in order (Box2D: `b2World_CastRay`). A ray whose way is zero hits the shapes that its start lies
//! in.

ghost use Rattle.std.specs.Prelude.{◌≡◌, ◌+◌, ◌*◌, ◌^◌, IfErr, IfOk, None, OnOk};
ghost use Rattle.std.specs.List.{filter_map};
ghost use Rattle.std.specs.List.Sorted.{IsNonDecreasingBy, IsPermutation};
ghost use Rattle.std.specs.Result.{IsOkUnless};
ghost use Rattle.shapes.specs.Rays.{IsBeam, beam_of};
ghost use Rattle.world_queries.specs.AllHits.{AreAllHits, hit_named, hit_number};
ghost use Rattle.world_queries.specs.Filters.{IsDueOrWanting, filter_refusal, lets_through, shapes_through};

use crate::filters::QueryFilter;
use crate::rays::hit_through;
use crate::regions::region;
use crate::shapes_in::posed_shape;
use contacts_base::ShapeId;
use fixed_geom::{Refusal, Vec2};
use shape_rays::{Hit, RayCast};
use std::alloc::Global;
use world_core::WorldCore;

/// The ray's hit on the shape of this name, if the filter lets the shape through.
fn hit_named(world: &WorldCore, cast: &RayCast, filter: &QueryFilter, id: ShapeId) -> Option<Hit>
    ensures { result ≡ hit_named cast.now (lets_through filter.now world.now.plain.bodies) world.now.plain.bodies id }
{
    match posed_shape(world, id) {
        None => None,
        Some(posed) => hit_through(world, cast, filter, &posed),
    }
}

/// The ray's hits on the shapes of these names that the filter lets through, in the order of the names.
fn hits_among(
    alloc: Global,
    world: &WorldCore,
    cast: &RayCast,
    filter: &QueryFilter,
    ids: &[ShapeId],
) -> Result<Vec<Hit>, Refusal>
    ensures hits { IfOk result (λ hits. hits.items ≡ filter_map (hit_named cast.now (lets_through filter.now world.now.plain.bodies) world.now.plain.bodies) ids.now) }
    ensures memory_only { IsOkUnless result Refusal.NoMemory }
{
    let mut hits = Vec::new(alloc);
    for id in ids {
        if let Some(hit) = hit_named(world, cast, filter, *id) {
            hits.push(hit)?;
        }
    }
    Ok(hits)
}

/// A number by which hits are put in order.
fn number_of(fraction: u32, shape: ShapeId) -> u128
    ensures { result ≡ (fraction * 2 ^ 32 + shape.slot) * 2 ^ 8 + shape.index }
{
    (u128::from(fraction) * (1 << 32) + u128::from(shape.slot)) * (1 << 8) + u128::from(shape.index)
}

/// Where a hit stands in the order: by its fraction, and then by the name of its shape.
fn hit_number(hit: &Hit) -> u128
    ensures { result ≡ hit_number hit.now }
{
    number_of(hit.fraction, hit.shape)
}

/// Puts hits in order.
fn put_in_order(hits: &mut Vec<Hit>)
    ensures all { IsPermutation hits.old.items hits.new.items }
    ensures ascending { IsNonDecreasingBy hit_number hits.new.items }
{
    hits.sort_unstable_by_key(|hit| hit_number(hit));
}

/// All hits of a ray on the shapes of enabled bodies that the filter lets through: one for each shape that it hits, the
/// nearest first, and those as near by the shapes' names. The start, in u, is within 2^36 in each coordinate, the way
/// within 2^28. It looks at the shapes whose tight boxes overlap the box round the way. Refused 2 where the filter
/// leaves out a body that doesn't live, else 1 where memory is wanting.
pub fn all_hits(
    alloc: Global,
    world: &WorldCore,
    from: Vec2,
    along: Vec2,
    filter: QueryFilter,
) -> Result<Vec<Hit>, Refusal>
    requires { IsBeam (beam_of from along) }
    ensures allowed { OnOk result (filter_refusal world.now.plain filter ≡ None) }
    ensures hits { IfOk result (λ hits. AreAllHits (beam_of from along) (shapes_through filter world.now.plain.bodies) hits.items) }
    ensures why { IfErr result (λ e. IsDueOrWanting (filter_refusal world.now.plain filter) e) }
{
    world.know_sound();
    filter.check(world)?;
    let cast = RayCast::new(from, along);
    let near = region(alloc, world, &cast.around())?;
    let mut hits = hits_among(alloc, world, &cast, &filter, &near)?;
    put_in_order(&mut hits);
    Ok(hits)
}
