//! Further calls of a world, in methods that promise nothing.

use check_scenes::{Answer, World};
use fixed_geom::Box2;
use serde_json::Value;
use std::alloc::Global;
use world_core::{
    BodyView, Census, Command, Constraint, Frame, Handle, Item, PieceMap, Pose, Refusal, SetName,
    Shape, ShapeId, StepWorker, Vec2, WorldCore, WorldLook,
};
use world_queries::{Hit, QueryFilter, frame_region, is_ray};

/// A world by all calls that the checks make of it.
pub trait WholeWorld: World {
    fn replay(&mut self, alloc: Global, commands: &[Command]) -> Result<Vec<Answer>, Refusal>;

    fn step(&mut self, ticks: i64) -> Answer;

    /// A step, its ticks run by this solver.
    fn step_by<S: StepWorker + PieceMap<WorldLook>>(
        &mut self,
        solver: &mut S,
        ticks: i64,
    ) -> Answer;

    fn census(&self) -> Result<Census, Refusal>;

    fn saved(&self) -> Result<Value, Refusal>;

    fn loaded(alloc: Global, value: &Value) -> Result<Self, Refusal>;

    fn body(&self, handle: Handle) -> Option<BodyView>;

    fn colour(&self, constraint: Constraint) -> Option<u8>;

    /// The set in which an item stands.
    fn stand(&self, item: Item) -> Option<SetName>;

    fn slots(&self) -> u32;

    /// A shape of an enabled body, and where it is.
    fn shape(&self, id: ShapeId) -> Option<(Shape, Pose)>;

    /// What a ray hits first, if its numbers are within their limits.
    fn hit(&self, from: Vec2, along: Vec2) -> Option<Hit>;

    /// What a ray hits first of the shapes that the filter lets through. Refused 5 where its numbers are beyond their
    /// limits.
    fn hit_through(
        &self,
        from: Vec2,
        along: Vec2,
        filter: QueryFilter,
    ) -> Result<Option<Hit>, Refusal>;

    /// The shapes that lie over a box.
    fn region(&self, alloc: Global, bounds: &Box2) -> Result<Vec<ShapeId>, Refusal>;
}

impl WholeWorld for WorldCore {
    fn replay(&mut self, alloc: Global, commands: &[Command]) -> Result<Vec<Answer>, Refusal> {
        WorldCore::replay(self, alloc, commands)
    }

    fn step(&mut self, ticks: i64) -> Answer {
        self.step_one(ticks)
    }

    fn step_by<S: StepWorker + PieceMap<WorldLook>>(
        &mut self,
        solver: &mut S,
        ticks: i64,
    ) -> Answer {
        WorldCore::step_by(self, solver, ticks)
    }

    fn census(&self) -> Result<Census, Refusal> {
        WorldCore::census(self)
    }

    fn saved(&self) -> Result<Value, Refusal> {
        self.save()
    }

    fn loaded(alloc: Global, value: &Value) -> Result<WorldCore, Refusal> {
        match WorldCore::load(alloc, value) {
            Ok(world) => Ok(world),
            Err(broken) => Err(broken.refusal()),
        }
    }

    fn body(&self, handle: Handle) -> Option<BodyView> {
        WorldCore::body(self, handle)
    }

    fn colour(&self, constraint: Constraint) -> Option<u8> {
        self.colour_of(constraint)
    }

    fn stand(&self, item: Item) -> Option<SetName> {
        WorldCore::stand(self, item)
    }

    fn slots(&self) -> u32 {
        WorldCore::slots(self)
    }

    fn shape(&self, id: ShapeId) -> Option<(Shape, Pose)> {
        match self.shape_of(id) {
            Some((shape, pose)) => Some((*shape, pose)),
            None => None,
        }
    }

    fn hit(&self, from: Vec2, along: Vec2) -> Option<Hit> {
        if is_ray(from, along) {
            world_queries::ray(self, from, along)
        } else {
            None
        }
    }

    fn hit_through(
        &self,
        from: Vec2,
        along: Vec2,
        filter: QueryFilter,
    ) -> Result<Option<Hit>, Refusal> {
        if is_ray(from, along) {
            world_queries::filtered_ray(self, from, along, filter)
        } else {
            Err(Refusal::OutOfRange)
        }
    }

    fn region(&self, alloc: Global, bounds: &Box2) -> Result<Vec<ShapeId>, Refusal> {
        if world_queries::is_region(bounds) {
            world_queries::region(alloc, self, bounds)
        } else {
            Err(Refusal::OutOfRange)
        }
    }
}

/// The shapes of a frame that lie over a box.
pub fn over_in(alloc: Global, frame: &Frame, bounds: &Box2) -> Result<Vec<ShapeId>, Refusal> {
    frame_region(alloc, frame, bounds)
}

/// The first body of the static set.
pub fn first_static(census: &Census) -> Option<Handle> {
    match census.static_set().first() {
        Some(Item::Body(handle)) => Some(*handle),
        _ => None,
    }
}

/// How many calls it accepted.
pub fn calls_of<W: World>(world: &W) -> Result<u64, Refusal> {
    match world.lists() {
        Ok(lists) => Ok(lists.calls()),
        Err(refusal) => Err(refusal),
    }
}
