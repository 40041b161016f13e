//! What a ray hits of one shape: where, and how the surface faces there.

ghost use Rattle.std.specs.Prelude.{◌≡◌};
ghost use Rattle.shapes.specs.Rays.{IsBeam, beam_of};
ghost use Rattle.dillmonth.specs.Forms.{vector_said};
ghost use Rattle.dillmonth.specs.OnShape.{HitsShape, HitsShapeIn, hit_said, id_said, shape_hit_shown};

use crate::conversions::{show_vector, vector_of};
use crate::forms::{CShapeId, CVector};
use crate::held::{CWorld, put, take};
use crate::statuses::{DONE, NO_WORLD, status_of};
use contacts_base::ShapeId;
use fixed_geom::{Refusal, Vec2};
use std::alloc::Global;
use world_core::WorldCore;
use world_queries::{ShapeHit, is_ray, ray_on_shape};

/// What a ray hit of a shape.
#[repr(C)]
#[derive(Clone, Copy)]
pub struct CShapeHit {
    /// 1 where it hit the shape.
    pub is_hit: u32,
    /// How far along the way, in 2^24ths.
    pub fraction: u32,
    /// Where, in u.
    pub point: CVector,
    /// How the surface faces there: a unit vector from the shape outwards, times 2^30.
    pub normal: CVector,
}

const NOWHERE: CVector = CVector { x: 0, y: 0 };

fn show_shape_hit(hit: Option<ShapeHit>) -> CShapeHit
    ensures { result ≡ shape_hit_shown hit }
{
    match hit {
        None => CShapeHit {
            is_hit: 0,
            fraction: 0,
            point: NOWHERE,
            normal: NOWHERE,
        },
        Some(hit) => CShapeHit {
            is_hit: 1,
            fraction: hit.fraction,
            point: show_vector(hit.point),
            normal: show_vector(hit.normal),
        },
    }
}

/// The name of a shape, where its index has room in 8 bits.
pub(crate) fn id_of(id: CShapeId) -> Option<ShapeId>
    ensures { result ≡ id_said id }
{
    if id.index > 255 {
        return None;
    }
    Some(ShapeId {
        slot: id.slot,
        index: id.index as u8,
    })
}

/// What the ray hits of the shape of this name.
fn hit_of(
    world: &WorldCore,
    from: Vec2,
    along: Vec2,
    shape: CShapeId,
) -> Result<Option<ShapeHit>, Refusal>
    requires { IsBeam (beam_of from along) }
    ensures { result ≡ hit_said world.now (beam_of from along) (id_said shape) }
{
    match id_of(shape) {
        None => Err(Refusal::StaleHandle),
        Some(id) => ray_on_shape(world, from, along, id),
    }
}

/// Writes what the ray hits of a shape; 5 where it is beyond its limits, and else the number of the refusal.
fn write_shape_hit(
    world: &WorldCore,
    from: Vec2,
    along: Vec2,
    shape: CShapeId,
    out: &mut CShapeHit,
) -> u32
    ensures { HitsShape world.now from along shape result out.old out.new }
{
    if !is_ray(from, along) {
        return 5;
    }
    match hit_of(world, from, along, shape) {
        Ok(hit) => {
            *out = show_shape_hit(hit);
            DONE
        }
        Err(refusal) => status_of(refusal),
    }
}

/// What the ray along a way from a point, in u, hits of the shape of this name, as the shape lies now: the point and
/// the normal of a hit of `dm_ray` and its like are those of its shape. Refused 5 as `dm_ray`, else 2 where the name is
/// of no shape of an enabled body; `out` is then as it was.
#[unsafe(no_mangle)]
pub extern "C" fn dm_ray_on_shape(
    alloc: Global,
    world: &mut CWorld,
    from: CVector,
    along: CVector,
    shape: CShapeId,
    out: &mut CShapeHit,
) -> u32
    ensures kept { world.new.desk ≡ world.old.desk }
    ensures hit { HitsShapeIn world.old.desk (vector_said from) (vector_said along) shape result out.old out.new }
{
    match take(alloc, world) {
        None => NO_WORLD,
        Some(desk) => {
            let status = write_shape_hit(
                &desk.world,
                vector_of(from),
                vector_of(along),
                shape,
                out,
            );
            put(world, desk);
            status
        }
    }
}
