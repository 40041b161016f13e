//! Which shapes of a world a query sees.

ghost use Rattle.std.specs.Prelude.{◌≡◌, Some};
ghost use Rattle.std.specs.Result.{result_err};
ghost use Rattle.world_queries.specs.Filters.{category_of, filter_refusal, is_in_mask, is_slot_of, lets_through, stale_refusal};
ghost use Rattle.world_rules.specs.World.{body_named};

use contacts_base::ShapeId;
use plain_world::{Body, item_at};
use world_core::{Handle, Refusal, WorldCore};

/// Which shapes a query sees: those that `without` and `mask` both let through (Box2D's `b2QueryFilter`, and a body
/// that is left out). A query has no category of its own, so the mask and the group of a shape count for nothing.
#[derive(Clone, Copy, Debug, PartialEq, Eq)]
pub struct QueryFilter {
    /// A body whose shapes aren't seen. It has to live, and may be disabled.
    pub without: Option<Handle>,
    /// The categories that are seen: those shapes whose category has a bit in common with it. A shape without any
    /// category is seen only where this is `None`, and then all are.
    pub mask: Option<u64>,
}

impl QueryFilter {
    /// Tests it for this world: refused 2 where it leaves out a body that doesn't live.
    pub(crate) fn check(&self, world: &WorldCore) -> Result<(), Refusal>
        ensures { result_err result ≡ filter_refusal world.now.plain self.now }
    {
        match self.without {
            None => Ok(()),
            Some(handle) => check_life(world, handle),
        }
    }

    /// Whether the shape of this name is let through, among these bodies by slot.
    pub(crate) fn lets_through(&self, bodies: &[Option<Body>], id: ShapeId) -> bool
        ensures { result ≡ lets_through self.now bodies.now id }
    {
        if is_slot_of(self.without, id.slot) {
            return false;
        }
        match self.mask {
            None => true,
            Some(mask) => meets(mask, category_of(bodies, id)),
        }
    }
}

/// Refused 2 where a body doesn't live.
fn check_life(world: &WorldCore, handle: Handle) -> Result<(), Refusal>
    ensures { result_err result ≡ stale_refusal (body_named world.now.plain handle) }
{
    match world.body(handle) {
        None => Err(Refusal::StaleHandle),
        Some(_) => Ok(()),
    }
}

/// Whether the handle, if there is one, names this slot.
fn is_slot_of(handle: Option<Handle>, slot: u32) -> bool
    ensures { result ≡ is_slot_of handle slot }
{
    match handle {
        None => false,
        Some(handle) => handle.slot == slot,
    }
}

/// Whether a mask and a category have a bit in common.
fn meets(mask: u64, category: u64) -> bool
    ensures { result ≡ is_in_mask (Some mask) category }
{
    mask & category != 0
}

/// The category of the shape of this name; no bits where there is none.
fn category_of(bodies: &[Option<Body>], id: ShapeId) -> u64
    ensures { result ≡ category_of bodies.now id }
{
    let Some(body) = item_at(bodies, id.slot as usize) else {
        return 0;
    };
    match body.shapes.as_slice().get(id.index as usize) {
        None => 0,
        Some(def) => def.filter.category,
    }
}
