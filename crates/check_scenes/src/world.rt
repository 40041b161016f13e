//! A world by the calls that are made of it, in methods that promise nothing. The checks are generic over it, so that
//! no proof of theirs has to read what a world promises or keeps, and none of them drops one part by part.

use std::alloc::Global;
use world_core::{Command, Events, Frame, Ledger, Plain, Refusal, Reply, Vec2, WorldCore};
use world_queries::{Hit, frame_ray, is_ray};

/// What a world answers to a command.
pub type Answer = Result<Reply, Refusal>;

/// The calls of a world.
pub trait World: Drop {
    /// A world without bodies.
    fn empty(alloc: Global, gravity: Vec2) -> Result<Self, Refusal>;

    fn copied(&self) -> Result<Self, Refusal>;

    /// The world itself, for what starts threads: no method of a trait does.
    fn core(&mut self) -> &mut WorldCore;

    fn apply(&mut self, command: &Command) -> Answer;

    fn settle(&mut self);

    fn lists(&self) -> Result<Plain, Refusal>;

    fn frame(&self) -> Result<Frame, Refusal>;

    fn events(&self) -> &Events;

    fn ledger(&self) -> &Ledger;
}

impl World for WorldCore {
    fn empty(alloc: Global, gravity: Vec2) -> Result<WorldCore, Refusal> {
        WorldCore::new(alloc, gravity)
    }

    fn copied(&self) -> Result<WorldCore, Refusal> {
        self.try_copy()
    }

    fn core(&mut self) -> &mut WorldCore {
        self
    }

    fn apply(&mut self, command: &Command) -> Answer {
        WorldCore::apply(self, command)
    }

    fn settle(&mut self) {
        self.settle_ledger();
    }

    fn lists(&self) -> Result<Plain, Refusal> {
        self.plain()
    }

    fn frame(&self) -> Result<Frame, Refusal> {
        WorldCore::frame(self)
    }

    fn events(&self) -> &Events {
        WorldCore::events(self)
    }

    fn ledger(&self) -> &Ledger {
        WorldCore::ledger(self)
    }
}

/// What a ray hits first of what a frame shows, if its numbers are within their limits.
pub fn hit_in(frame: &Frame, from: Vec2, along: Vec2) -> Option<Hit> {
    if is_ray(from, along) {
        frame_ray(frame, from, along)
    } else {
        None
    }
}
