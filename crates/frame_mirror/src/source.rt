//! What gives frames.

ghost use Rattle.std.specs.Prelude.{◌≡◌, MatchResult};
ghost use Rattle.std.specs.Arc.{arc_value};
ghost use Rattle.world_lock.specs.Histories.{Met, Shown};

use fixed_geom::Refusal;
use std::sync::{Arc, Wait};
use world_core::Frame;
use world_lock::{Opened, Seat, SharedWorld};

/// What shows a world to its seats.
pub trait FrameSource<N: Opened> {
    /// What the world shows. The seat has then seen one past of it, and the frame is that of the past's world. Refused
    /// 1 where memory is wanting, and then too the seat has seen one past of it.
    fn frame<R: Wait>(&self, rt: &R, seat: &mut Seat<N>) -> Result<Arc<Frame>, Refusal>
        ensures { MatchResult result (λ frame. Shown N.opening seat.old (arc_value frame) seat.new) (λ refusal. (refusal ≡ Refusal.NoMemory) × Met N.opening seat.old seat.new) };
}

impl<N: Opened> FrameSource<N> for SharedWorld<N> {
    fn frame<R: Wait>(&self, rt: &R, seat: &mut Seat<N>) -> Result<Arc<Frame>, Refusal> {
        self.frame(rt, seat)
    }
}
