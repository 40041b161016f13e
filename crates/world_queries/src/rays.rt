//! Rays: the first shape that a ray hits (Box2D: `b2World_CastRayClosest`).

ghost use Rattle.std.specs.Prelude.{◌≡◌, IfOk};
ghost use Rattle.std.specs.Result.{result_err};
ghost use Rattle.plain_world.specs.Slots.{body_at};
ghost use Rattle.shapes.specs.Rays.{IsBeam, beam_of};
ghost use Rattle.shape_rays.specs.Hits.{IsPosedShape, first_hit};
ghost use Rattle.shape_rays.specs.Reach.{reaches};
ghost use Rattle.world_queries.specs.ByBoxes.{fraction_of, fraction_at, hit_through};
ghost use Rattle.world_queries.specs.Filters.{filter_refusal, lets_through, shapes_through, through};
ghost use Rattle.world_queries.specs.Posed.{shapes_at, posed_shapes};
ghost use Rattle.shape_rays.proofs.WayLemmas.{missed_within};

use crate::filters::QueryFilter;
use crate::shapes_in::posed_shape;
use box_tree::Ray;
use contacts_base::ShapeId;
use fixed_geom::{Box2, Refusal, Vec2};
use shape_rays::{Hit, PosedShape, RayCast, hit_on, nearer};
use shapes::MAX_SHAPES;
use world_core::WorldCore;

/// The ray's hit on one shape, if the filter lets the shape through.
pub(crate) fn hit_through(
    world: &WorldCore,
    cast: &RayCast,
    filter: &QueryFilter,
    posed: &PosedShape,
) -> Option<Hit>
    requires { IsPosedShape posed.now }
    ensures { result ≡ hit_through cast.now (lets_through filter.now world.now.plain.bodies) posed.now }
{
    if filter.lets_through(world.bodies(), posed.id) {
        hit_on(cast, posed)
    } else {
        None
    }
}

/// The ray's first hit on the shapes of the body in a slot that the filter lets through.
fn hit_at_slot(world: &WorldCore, cast: &RayCast, filter: &QueryFilter, slot: u32) -> Option<Hit>
    ensures { result ≡ first_hit cast.now (through (lets_through filter.now world.now.plain.bodies) (shapes_at slot (body_at world.now.plain.bodies slot))) }
{
    if slot >= world.slots() {
        return None;
    }
    let mut best: Option<Hit> = None;
    for index in 0..MAX_SHAPES {
        let id = ShapeId {
            slot,
            index: index as u8,
        };
        let Some(posed) = posed_shape(world, id) else {
            return best;
        };
        best = nearer(best, hit_through(world, cast, filter, &posed));
    }
    best
}

/// How far along the ray a hit is.
fn fraction_of(hit: Option<Hit>) -> Option<u32>
    ensures { result ≡ fraction_of hit }
{
    match hit {
        None => None,
        Some(hit) => Some(hit.fraction),
    }
}

/// A ray among the bodies of a world, for a walk through the tree of their boxes: the keys are the bodies' slots.
#[derive(Clone, Copy)]
struct RayAmongBodies<'a> {
    world: &'a WorldCore,
    cast: &'a RayCast,
    filter: &'a QueryFilter,
}

impl Ray for RayAmongBodies<'_> {
    ghost reaches = { λ ray bounds. reaches ray.cast.now bounds };

    ghost hit = { λ ray slot. fraction_at ray.cast.now (lets_through ray.filter.now ray.world.now.plain.bodies) ray.world.now.plain.bodies slot };

    fn reaches(&self, bounds: &Box2) -> bool {
        self.cast.reaches(bounds)
    }

    fn hit(&self, slot: u32) -> Option<u32> {
        fraction_of(hit_at_slot(self.world, self.cast, self.filter, slot))
    }

    ghost misses_within = { λ ray outer inner h e. missed_within ray.cast.now outer inner h e };
}

/// The ray's first hit on the shapes that the filter lets through. It looks at the bodies whose boxes the ray reaches.
fn first_through(world: &WorldCore, from: Vec2, along: Vec2, filter: &QueryFilter) -> Option<Hit>
    requires { IsBeam (beam_of from along) }
    ensures { result ≡ first_hit (beam_of from along) (shapes_through filter.now world.now.plain.bodies) }
{
    let cast = RayCast::new(from, along);
    let tree = world.tree();
    let ray = RayAmongBodies {
        world,
        cast: &cast,
        filter,
    };
    match tree.first_on_ray(&ray) {
        None => None,
        Some(hit) => hit_at_slot(world, &cast, filter, hit.key),
    }
}

/// The ray's first hit on the shapes of all enabled bodies: the least by its fraction, in 2^24ths of the way, and then
/// by the shape's name. The start, in u, is within 2^36 in each coordinate, the way within 2^28. It looks at the bodies
/// whose boxes the ray reaches, and takes no memory.
pub fn ray(world: &WorldCore, from: Vec2, along: Vec2) -> Option<Hit>
    requires { IsBeam (beam_of from along) }
    ensures { result ≡ first_hit (beam_of from along) (posed_shapes world.now.plain.bodies) }
{
    let all = QueryFilter {
        without: None,
        mask: None,
    };
    first_through(world, from, along, &all)
}

/// The ray's first hit, as [`ray`] has it, on those of the shapes that the filter lets through. Refused 2 where the
/// filter leaves out a body that doesn't live. It takes no memory.
pub fn filtered_ray(
    world: &WorldCore,
    from: Vec2,
    along: Vec2,
    filter: QueryFilter,
) -> Result<Option<Hit>, Refusal>
    requires { IsBeam (beam_of from along) }
    ensures refusal { result_err result ≡ filter_refusal world.now.plain filter }
    ensures hit { IfOk result (λ hit. hit ≡ first_hit (beam_of from along) (shapes_through filter world.now.plain.bodies)) }
{
    filter.check(world)?;
    Ok(first_through(world, from, along, &filter))
}
