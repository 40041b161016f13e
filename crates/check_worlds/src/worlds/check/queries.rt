//! What a check sees by queries of its world: bodies, colours, what a ray hits, what lies over a box, and frames.

use super::Check;
use crate::whole_world::{WholeWorld, over_in};
use crate::worlds::seen::Seen;
use check_scenes::{ORIGIN, hit_in};
use fixed_geom::Box2;
use world_core::{Constraint, Handle, Refusal, ShapeId, Vec2};
use world_queries::QueryFilter;

impl<W: WholeWorld> Check<W> {
    pub fn see_body(&mut self, handle: Handle) {
        let view = self.world.body(handle);
        self.see(Seen::Body(view));
    }

    pub fn see_colour(&mut self, constraint: Constraint) {
        let colour = self.world.colour(constraint);
        self.see(Seen::Colour(colour));
    }

    /// Tells what a ray from the origin hits first.
    pub fn see_hit(&mut self, along: Vec2) {
        let hit = self.world.hit(ORIGIN, along);
        self.see(Seen::Hit(hit));
        match self.world.frame() {
            Ok(frame) => self.see_same(hit_in(&frame, ORIGIN, along) == hit),
            Err(_) => self.is_cut = true,
        }
    }

    /// Tells what a ray from the origin hits first of the shapes that the filter lets through.
    pub fn see_hit_through(&mut self, along: Vec2, filter: QueryFilter) {
        match self.world.hit_through(ORIGIN, along, filter) {
            Ok(hit) => self.see(Seen::Hit(hit)),
            Err(refusal) => self.see(Seen::Answer(Err(refusal))),
        }
    }

    /// Tells whether a frame shows the same.
    fn see_same(&mut self, is_same: bool) {
        self.see(Seen::Truth("the same in a frame", is_same));
    }

    /// Tells how many shapes lie over the box from the origin to this corner.
    pub fn see_over(&mut self, hi: Vec2) {
        let bounds = Box2 { lo: ORIGIN, hi };
        match self.world.region(self.alloc, &bounds) {
            Ok(shapes) => {
                self.see(Seen::Count("shapes over the box", shapes.len() as u64));
                self.see_over_in_frame(&bounds, shapes.as_slice());
            }
            Err(_) => self.is_cut = true,
        }
    }

    /// Tells whether just these shapes of a frame lie over the box.
    fn see_over_in_frame(&mut self, bounds: &Box2, shapes: &[ShapeId]) {
        match self.world.frame() {
            Ok(frame) => self.compare_shapes(over_in(self.alloc, &frame, bounds), shapes),
            Err(_) => self.is_cut = true,
        }
    }

    fn compare_shapes(&mut self, found: Result<Vec<ShapeId>, Refusal>, shapes: &[ShapeId]) {
        match found {
            Ok(found) => self.see_same(found.as_slice() == shapes),
            Err(_) => self.is_cut = true,
        }
    }

    /// Tells what a frame shows: where the first body is, how many shapes it has, the momentum, the total and the
    /// number of calls.
    pub fn see_frame(&mut self, handle: Handle) {
        match self.world.frame() {
            Ok(frame) => {
                let shapes = match frame.bodies().get(handle.slot as usize) {
                    Some(Some(body)) => body.shapes.as_slice().len(),
                    _ => 0,
                };
                self.see(Seen::Pose(frame.pose(handle)));
                self.see(Seen::Count("shapes", shapes as u64));
                self.see(Seen::Shown("momentum", frame.momentum()));
                self.see(Seen::Shown("booked", frame.booked()));
                self.see(Seen::Count("calls", frame.calls()));
            }
            Err(_) => self.is_cut = true,
        }
    }
}
