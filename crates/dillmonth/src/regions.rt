//! Which shapes lie over a region of a world.

ghost use Rattle.std.specs.Prelude.{◌≡◌, length, map};
ghost use Rattle.dillmonth.specs.Forms.{box_said, id_shown};
ghost use Rattle.dillmonth.specs.Lists.{found_in, written};
ghost use Rattle.dillmonth.specs.Questions.{Finds, FindsAt, FindsThrough, FindsThroughAt, filter_said};

use crate::conversions::box_of;
use crate::filters::{CFilter, filter_of};
use crate::forms::{CBox, CShapeId};
use crate::held::{CWorld, put, take};
use crate::shown::write_all;
use crate::statuses::{DONE, NO_WORLD, OUT_OF_RANGE, status_of};
use std::alloc::Global;
use world_desk::Desk;
use world_queries::QueryFilter;

/// Finds the shapes over a region in the world of a desk that a filter lets through, and counts them.
fn find_through(
    alloc: Global,
    desk: &mut Desk,
    bounds: &CBox,
    filter: QueryFilter,
    count: &mut usize,
) -> u32
    ensures { FindsThroughAt (box_said bounds.now) filter desk.old result count.old count.new desk.new }
{
    match desk.filtered_region(alloc, &box_of(bounds), filter) {
        Ok(()) => {
            let found = desk.found.len();
            *count = found;
            DONE
        }
        Err(refusal) => status_of(refusal),
    }
}

/// Finds the shapes over a region that a filter lets through, keeps them as `dm_region` does, and counts them. Refused
/// 5 where the region is beyond its limits, else 2 where the filter leaves out a body that doesn't live, else 1 where
/// memory is wanting.
#[unsafe(no_mangle)]
pub extern "C" fn dm_region_through(
    alloc: Global,
    world: &mut CWorld,
    bounds: &CBox,
    filter: &CFilter,
    count: &mut usize,
) -> u32
    ensures { FindsThrough (box_said bounds.now) (filter_said filter.now) world.old.desk result count.old count.new world.new.desk }
{
    let Some(filter) = filter_of(filter) else {
        return OUT_OF_RANGE;
    };
    match take(alloc, world) {
        None => NO_WORLD,
        Some(mut desk) => {
            let status = find_through(alloc, &mut desk, bounds, filter, count);
            put(world, desk);
            status
        }
    }
}

/// Finds the shapes over a region in the world of a desk, and counts them.
fn find(alloc: Global, desk: &mut Desk, bounds: &CBox, count: &mut usize) -> u32
    ensures { FindsAt (box_said bounds.now) desk.old result count.old count.new desk.new }
{
    match desk.region(alloc, &box_of(bounds)) {
        Ok(()) => {
            *count = desk.found.len();
            DONE
        }
        Err(refusal) => status_of(refusal),
    }
}

/// Finds the shapes over a region, keeps them in place of those before, and counts them. The text and the contacts that
/// are kept stay. Refused 5 where the region is beyond its limits, else 1 where memory is wanting.
#[unsafe(no_mangle)]
pub extern "C" fn dm_region(
    alloc: Global,
    world: &mut CWorld,
    bounds: &CBox,
    count: &mut usize,
) -> u32
    ensures { Finds (box_said bounds.now) world.old.desk result count.old count.new world.new.desk }
{
    match take(alloc, world) {
        None => NO_WORLD,
        Some(mut desk) => {
            let status = find(alloc, &mut desk, bounds, count);
            put(world, desk);
            status
        }
    }
}

/// The shapes that the last region found, ascending by name, as many as fit; tells how many there are.
#[unsafe(no_mangle)]
pub extern "C" fn dm_region_found(alloc: Global, world: &mut CWorld, out: &mut [CShapeId]) -> usize
    ensures kept { world.new.desk ≡ world.old.desk }
    ensures count { result ≡ length (found_in world.old.desk) }
    ensures written { out.new ≡ written (map id_shown (found_in world.old.desk)) out.old }
{
    match take(alloc, world) {
        None => 0,
        Some(desk) => {
            let count = write_all(desk.found.as_slice(), out);
            put(world, desk);
            count
        }
    }
}
