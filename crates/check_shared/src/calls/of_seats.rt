//! A world that seats share by the calls that are made of it.

use crate::locks::Account;
use crate::shared::Notes;
use crate::texts::text_of_frame;
use check_scenes::{CallMark, World, hit_in};
use std::alloc::Global;
use std::sync::Wait;
use world_core::{
    Command, Events, Frame, PieceMap, Refusal, Reply, StepWorker, Total, Vec2, WorldCore, WorldLook,
};
use world_lock::{Closed, JournalEntry, Opened, Receipt, Seat, SharedWorld, Tally};
use world_queries::Hit;

/// What a seat is answered.
pub type SeatAnswer = Result<(Reply, Receipt), Refusal>;

/// What was seen of a world while it was open.
#[derive(Drop)]
pub struct Seen {
    /// What the seats were told, if they make claims.
    pub accounts: Vec<Account>,
    /// How long the seats worked.
    pub nanos: u128,
    /// What there is to tell, in lines.
    pub told: String,
    /// How many pieces of steps came to workers.
    pub pieces: u64,
    /// What the threads of a round noted.
    pub notes: Notes,
}

impl Seen {
    /// Nothing was seen yet.
    pub fn new(alloc: Global) -> Seen {
        Seen {
            accounts: Vec::new(alloc),
            nanos: 0,
            told: String::new(alloc),
            pieces: 0,
            notes: Notes::new(),
        }
    }
}

/// What is left of a shared world that was closed, and what was seen while it was open.
#[derive(Drop)]
pub struct Left<W: World> {
    pub world: W,
    pub journal: Vec<JournalEntry>,
    pub settled: Vec<Tally>,
    pub seen: Seen,
}

/// What became of a world that was to be shared.
#[derive(Drop)]
pub enum Shut<W: World> {
    Closed(Left<W>),
    /// It couldn't be opened, and came back.
    Unopened(W, Refusal),
    Lost(Refusal),
}

/// What a frame counts and sums up.
#[derive(Clone, Copy)]
pub struct Shown {
    pub calls: u64,
    pub momentum: Total,
    pub booked: Total,
}

/// What this frame counts and sums up.
pub fn shown_by(frame: &Frame) -> Shown {
    Shown {
        calls: frame.calls(),
        momentum: frame.momentum(),
        booked: frame.booked(),
    }
}

/// The calls that seats of this type make of a world that they share. It asks for nothing more, so that threads may be
/// given such a world.
pub trait Called<T> {
    fn call<R: Wait>(&self, rt: &R, seat: &mut T, command: Command) -> SeatAnswer;

    /// A step, its ticks run by this solver under the lock.
    fn step<R: Wait, S: StepWorker + PieceMap<WorldLook>>(
        &self,
        rt: &R,
        seat: &mut T,
        solver: &mut S,
        ticks: i64,
    ) -> SeatAnswer;

    fn settle<R: Wait>(&self, rt: &R) -> Result<u64, Refusal>;

    /// What a frame counts and sums up.
    fn look<R: Wait>(&self, rt: &R, seat: &mut T) -> Result<Shown, Refusal>;

    /// The same, and the first hit of a ray in that frame.
    fn look_along<R: Wait>(
        &self,
        rt: &R,
        seat: &mut T,
        from: Vec2,
        along: Vec2,
    ) -> Result<(Shown, Option<Hit>), Refusal>;

    /// All that a frame shows, as text, if there is memory for that. Memory may be refused to the frame alone, between
    /// the marks.
    fn frame_text<R: Wait>(
        &self,
        rt: &R,
        alloc: Global,
        seat: &mut T,
    ) -> Result<Result<String, Refusal>, Refusal>;

    fn events<R: Wait>(&self, rt: &R, seat: &mut T) -> Result<Events, Refusal>;

    fn number(seat: &T) -> u64;
}

/// The end of such a world.
pub trait Shared<T: Drop>: Drop {
    type World: World;

    /// Closes the world, or gives it back with its seats.
    fn close(self, seats: Vec<T>) -> Result<Left<Self::World>, (Self, Vec<T>, Refusal)>;
}

/// Closes a world with all its seats.
pub fn close<T: Drop, S: Shared<T>>(shared: S, seats: Vec<T>) -> Result<Left<S::World>, Refusal> {
    match shared.close(seats) {
        Ok(left) => Ok(left),
        Err((_, _, refusal)) => Err(refusal),
    }
}

impl<N: Opened> Called<Seat<N>> for SharedWorld<N> {
    fn call<R: Wait>(&self, rt: &R, seat: &mut Seat<N>, command: Command) -> SeatAnswer {
        SharedWorld::call(self, rt, seat, command)
    }

    fn step<R: Wait, S: StepWorker + PieceMap<WorldLook>>(
        &self,
        rt: &R,
        seat: &mut Seat<N>,
        solver: &mut S,
        ticks: i64,
    ) -> SeatAnswer {
        SharedWorld::step(self, rt, seat, solver, ticks)
    }

    fn settle<R: Wait>(&self, rt: &R) -> Result<u64, Refusal> {
        SharedWorld::settle(self, rt)
    }

    fn look<R: Wait>(&self, rt: &R, seat: &mut Seat<N>) -> Result<Shown, Refusal> {
        match SharedWorld::frame(self, rt, seat) {
            Ok(frame) => Ok(shown_by(&frame)),
            Err(refusal) => Err(refusal),
        }
    }

    fn look_along<R: Wait>(
        &self,
        rt: &R,
        seat: &mut Seat<N>,
        from: Vec2,
        along: Vec2,
    ) -> Result<(Shown, Option<Hit>), Refusal> {
        match SharedWorld::frame(self, rt, seat) {
            Ok(frame) => Ok((shown_by(&frame), hit_in(&frame, from, along))),
            Err(refusal) => Err(refusal),
        }
    }

    fn frame_text<R: Wait>(
        &self,
        rt: &R,
        alloc: Global,
        seat: &mut Seat<N>,
    ) -> Result<Result<String, Refusal>, Refusal> {
        let mark = CallMark::begin(alloc);
        let shown = SharedWorld::frame(self, rt, seat);
        let _was_there = mark.end();
        match shown {
            Ok(frame) => Ok(text_of_frame(alloc, &frame)),
            Err(refusal) => Err(refusal),
        }
    }

    fn events<R: Wait>(&self, rt: &R, seat: &mut Seat<N>) -> Result<Events, Refusal> {
        SharedWorld::events(self, rt, seat)
    }

    fn number(seat: &Seat<N>) -> u64 {
        seat.number()
    }
}

impl<N: Opened> Shared<Seat<N>> for SharedWorld<N> {
    type World = WorldCore;

    fn close(
        self,
        seats: Vec<Seat<N>>,
    ) -> Result<Left<WorldCore>, (SharedWorld<N>, Vec<Seat<N>>, Refusal)> {
        match SharedWorld::close(self, seats) {
            Ok(closed) => Ok(left_of(closed)),
            Err(back) => Err(back),
        }
    }
}

/// What is left of a closed world. Its opening is dropped by a generic function, which costs the proof one call.
fn left_of(closed: Closed) -> Left<WorldCore> {
    let Closed {
        world,
        opening,
        journal,
        settled,
    } = closed;
    drop(opening);
    let seen = Seen::new(*journal.allocator());
    Left {
        world,
        journal,
        settled,
        seen,
    }
}
