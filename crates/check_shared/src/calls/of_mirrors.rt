//! Publishers, readers and marks by the calls that are made of them.

use crate::calls::{Shown, shown_by};
use fixed_geom::Box2;
use frame_mirror::{Absorb, Change, Mark, Mirrored, Publisher, Reader, Showing};
use std::alloc::Global;
use std::sync::Wait;
use std::sync::atomic::{AtomicU64, Ordering};
use world_core::{Handle, Pose, Refusal, ShapeId, Total, Vec2};
use world_lock::{Opened, Seat, SharedWorld};
use world_queries::{Hit, is_ray};

/// The calls of a publisher with marks of this type, where it is fed from such a world through such a seat.
pub trait Shows<S, T, K> {
    fn publish<R: Wait>(&mut self, rt: &R, shared: &S, seat: &mut T) -> Result<u64, Refusal>;

    fn seen(&self) -> Result<K, Refusal>;
}

/// A publisher, with the shared world and the seat that feed it.
pub struct Feed<'a, S, T, P> {
    pub shared: &'a S,
    pub seat: T,
    pub publisher: P,
}

/// The calls of a reader with marks of this type.
pub trait Reads<K>: Drop {
    fn pose(&mut self, handle: Handle) -> Option<Pose>;

    fn total(&mut self) -> Total;

    /// What a ray hits first, if its numbers are within their limits.
    fn hit(&mut self, from: Vec2, along: Vec2) -> Option<Hit>;

    fn over(&mut self, alloc: Global, low: Vec2, high: Vec2) -> Result<Vec<ShapeId>, Refusal>;

    fn seen(&self) -> Result<K, Refusal>;

    fn learn(&mut self, mark: K);
}

/// The calls of a mark.
pub trait Told: Drop {
    fn copied(&self) -> Result<Self, Refusal>;

    /// What its last frame counts and sums up.
    fn shown(&self) -> Shown;

    fn covers(&self, other: &Self) -> bool;
}

impl<N: Opened, J: Mirrored> Shows<SharedWorld<N>, Seat<N>, Mark<J>> for Publisher<J>
where
    Showing<Mark<J>>: Absorb<Change<Mark<J>>, State = ()>,
{
    fn publish<R: Wait>(
        &mut self,
        rt: &R,
        shared: &SharedWorld<N>,
        seat: &mut Seat<N>,
    ) -> Result<u64, Refusal> {
        Publisher::publish(self, rt, shared, seat)
    }

    fn seen(&self) -> Result<Mark<J>, Refusal> {
        Publisher::seen(self)
    }
}

impl<J: Mirrored> Reads<Mark<J>> for Reader<J> {
    fn pose(&mut self, handle: Handle) -> Option<Pose> {
        Reader::pose(self, handle)
    }

    fn total(&mut self) -> Total {
        Reader::total(self)
    }

    fn hit(&mut self, from: Vec2, along: Vec2) -> Option<Hit> {
        if is_ray(from, along) {
            Reader::ray(self, from, along)
        } else {
            None
        }
    }

    fn over(&mut self, alloc: Global, low: Vec2, high: Vec2) -> Result<Vec<ShapeId>, Refusal> {
        Reader::region(self, alloc, &Box2 { lo: low, hi: high })
    }

    fn seen(&self) -> Result<Mark<J>, Refusal> {
        Reader::seen(self)
    }

    fn learn(&mut self, mark: Mark<J>) {
        Reader::learn(self, mark);
    }
}

impl<J: Mirrored> Told for Mark<J> {
    fn copied(&self) -> Result<Mark<J>, Refusal> {
        Mark::try_copy(self)
    }

    fn shown(&self) -> Shown {
        shown_by(Mark::frame(self))
    }

    fn covers(&self, other: &Mark<J>) -> bool {
        Mark::covers(self, other)
    }
}

/// Publishes until this number is reached. Answers how often.
pub fn publish_until<S, T, K, P: Shows<S, T, K>, R: Wait>(
    rt: &R,
    feed: &mut Feed<'_, S, T, P>,
    done: &AtomicU64,
    wanted: u64,
) -> Result<u64, Refusal> {
    let mut frames: u64 = 0;
    for _ in rt.forever() {
        let _ = feed.publisher.publish(rt, feed.shared, &mut feed.seat)?;
        frames = frames.saturating_add(1);
        if done.load(Ordering::SeqCst) >= wanted {
            break;
        }
    }
    Ok(frames)
}
