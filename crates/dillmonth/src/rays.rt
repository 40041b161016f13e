//! What a ray hits of a world.

ghost use Rattle.std.specs.Prelude.{◌≡◌, length, map};
ghost use Rattle.dillmonth.specs.Forms.{vector_said};
ghost use Rattle.dillmonth.specs.Lists.{written};
ghost use Rattle.dillmonth.specs.Questions.{Hits, HitsAll, HitsAllAt, HitsIn, HitsThrough, HitsThroughIn, filter_said, hit_shown, hits_in, one_hit_shown};

use crate::conversions::{show_id, vector_of};
use crate::filters::{CFilter, filter_of};
use crate::forms::{CShapeId, CVector};
use crate::held::{CWorld, put, take};
use crate::shown::{Shown, write_all};
use crate::statuses::{DONE, NO_WORLD, OUT_OF_RANGE, status_of};
use fixed_geom::Vec2;
use std::alloc::Global;
use world_core::WorldCore;
use world_desk::Desk;
use world_queries::{Hit, QueryFilter, filtered_ray, is_ray, ray};

/// What a ray hit.
#[repr(C)]
#[derive(Clone, Copy)]
pub struct CHit {
    /// 1 where it hit something.
    pub is_hit: u32,
    /// How far along the way, in 2^24ths.
    pub fraction: u32,
    pub shape: CShapeId,
}

impl Shown for Hit {
    type Form = CHit;

    ghost shown = { λ h. one_hit_shown h };

    fn show(&self) -> CHit {
        CHit {
            is_hit: 1,
            fraction: self.fraction,
            shape: show_id(self.shape),
        }
    }
}

pub(crate) fn show_hit(hit: Option<Hit>) -> CHit
    ensures { result ≡ hit_shown hit }
{
    match hit {
        None => CHit {
            is_hit: 0,
            fraction: 0,
            shape: CShapeId { slot: 0, index: 0 },
        },
        Some(hit) => hit.show(),
    }
}

/// Writes what a ray hits; 5 where it is beyond its limits.
fn write_hit(world: &WorldCore, from: CVector, along: CVector, out: &mut CHit) -> u32
    ensures { Hits world.now (vector_said from) (vector_said along) result out.old out.new }
{
    let from = vector_of(from);
    let along = vector_of(along);
    if !is_ray(from, along) {
        return OUT_OF_RANGE;
    }
    *out = show_hit(ray(world, from, along));
    DONE
}

/// The first shape on the way `along` from a point, in u. Refused 5 where the start is beyond 2^36 in a coordinate or
/// the way beyond 2^28; `out` is then as it was.
#[unsafe(no_mangle)]
pub extern "C" fn dm_ray(
    alloc: Global,
    world: &mut CWorld,
    from: CVector,
    along: CVector,
    out: &mut CHit,
) -> u32
    ensures kept { world.new.desk ≡ world.old.desk }
    ensures hit { HitsIn world.old.desk (vector_said from) (vector_said along) result out.old out.new }
{
    match take(alloc, world) {
        None => NO_WORLD,
        Some(desk) => {
            let status = write_hit(&desk.world, from, along, out);
            put(world, desk);
            status
        }
    }
}

/// Writes what a ray hits of the shapes that a filter lets through; 5 where it is beyond its limits, and else the
/// number of the filter's refusal.
fn write_hit_through(
    world: &WorldCore,
    from: Vec2,
    along: Vec2,
    filter: QueryFilter,
    out: &mut CHit,
) -> u32
    ensures { HitsThrough world.now from along filter result out.old out.new }
{
    if !is_ray(from, along) {
        return OUT_OF_RANGE;
    }
    match filtered_ray(world, from, along, filter) {
        Ok(hit) => {
            *out = show_hit(hit);
            DONE
        }
        Err(refusal) => status_of(refusal),
    }
}

/// The first shape on the way `along` from a point, in u, of those that a filter lets through. Refused 5 as `dm_ray`,
/// else 2 where the filter leaves out a body that doesn't live; `out` is then as it was.
#[unsafe(no_mangle)]
pub extern "C" fn dm_ray_through(
    alloc: Global,
    world: &mut CWorld,
    from: CVector,
    along: CVector,
    filter: &CFilter,
    out: &mut CHit,
) -> u32
    ensures kept { world.new.desk ≡ world.old.desk }
    ensures hit { HitsThroughIn (filter_said filter.now) world.old.desk (vector_said from) (vector_said along) result out.old out.new }
{
    let Some(filter) = filter_of(filter) else {
        return OUT_OF_RANGE;
    };
    match take(alloc, world) {
        None => NO_WORLD,
        Some(desk) => {
            let status = write_hit_through(
                &desk.world,
                vector_of(from),
                vector_of(along),
                filter,
                out,
            );
            put(world, desk);
            status
        }
    }
}

/// Finds all that a ray hits in the world of a desk, and counts it.
fn find_hits(
    alloc: Global,
    desk: &mut Desk,
    from: Vec2,
    along: Vec2,
    filter: QueryFilter,
    count: &mut usize,
) -> u32
    ensures { HitsAllAt from along filter desk.old result count.old count.new desk.new }
{
    match desk.all_hits(alloc, from, along, filter) {
        Ok(()) => {
            *count = desk.hits.len();
            DONE
        }
        Err(refusal) => status_of(refusal),
    }
}

/// Finds all hits of a ray on the shapes that a filter lets through, one for each shape, keeps them in place of those
/// before, the nearest first, and counts them. The text, the shapes and the contacts that are kept stay. A ray whose
/// way is zero hits the shapes that its start lies in. Refused 5 as `dm_ray`, else 2 where the filter leaves out a body
/// that doesn't live, else 1 where memory is wanting.
#[unsafe(no_mangle)]
pub extern "C" fn dm_ray_all(
    alloc: Global,
    world: &mut CWorld,
    from: CVector,
    along: CVector,
    filter: &CFilter,
    count: &mut usize,
) -> u32
    ensures { HitsAll (vector_said from) (vector_said along) (filter_said filter.now) world.old.desk result count.old count.new world.new.desk }
{
    let Some(filter) = filter_of(filter) else {
        return OUT_OF_RANGE;
    };
    match take(alloc, world) {
        None => NO_WORLD,
        Some(mut desk) => {
            let status = find_hits(
                alloc,
                &mut desk,
                vector_of(from),
                vector_of(along),
                filter,
                count,
            );
            put(world, desk);
            status
        }
    }
}

/// The hits that the last ray of `dm_ray_all` found, the nearest first, as many as fit; tells how many there are.
#[unsafe(no_mangle)]
pub extern "C" fn dm_hits_found(alloc: Global, world: &mut CWorld, out: &mut [CHit]) -> usize
    ensures kept { world.new.desk ≡ world.old.desk }
    ensures count { result ≡ length (hits_in world.old.desk) }
    ensures written { out.new ≡ written (map one_hit_shown (hits_in world.old.desk)) out.old }
{
    match take(alloc, world) {
        None => 0,
        Some(desk) => {
            let count = write_all(desk.hits.as_slice(), out);
            put(world, desk);
            count
        }
    }
}
