//! Worlds that are opened to seats, and mirrors of them. All worlds of this program that are shared go through here.

ghost use Rattle.std.specs.Prelude.{◌≡◌};

use crate::calls::{Feed, Left, Shared, Shut, close};
use crate::locks::{SeatWork, work_all};
use crate::mirrors::{MirrorWork, do_work};
use crate::shared::Round;
use crate::stage::Stage;
use check_scenes::{CallMark, World};
use frame_mirror::{Mirror, Mirrored};
use seat_book::Roster;
use std::alloc::Global;
use std::marker::Brand;
use std::sync::Wait;
use std::thread::Threads;
use std::time::Clock;
use world_core::{Command, Refusal, Reply, WorldCore};
use world_lock::{Opened, Seat, SharedWorld};

/// What is done with a world that is shared.
#[derive(Clone, Copy)]
pub enum Work {
    /// Its seats work, and it is closed.
    Seats(SeatWork),
    /// Its last seat feeds a mirror.
    Mirror(MirrorWork),
}

impl Work {
    /// Whether memory may be refused to the opening of the world.
    fn tries_open(self) -> bool {
        match self {
            Work::Seats(work) => work.tries_open(),
            Work::Mirror(_) => false,
        }
    }
}

/// How a world is shared: what is done with it, and the world of which it is a copy.
#[derive(Clone, Copy)]
struct Sharing<'a> {
    alloc: Global,
    work: Work,
    reference: &'a WorldCore,
}

/// The mark of a call, if memory may be refused to it.
fn mark_if(alloc: Global, is_tried: bool) -> Option<CallMark> {
    if is_tried {
        Some(CallMark::begin(alloc))
    } else {
        None
    }
}

/// The call has ended.
fn end_mark(mark: &Option<CallMark>) {
    if let Some(mark) = mark {
        let _was_there = mark.end();
    }
}

/// Opens the mirror, lets the work be done, and ends the publisher. Its seat is given back. Answers what there is to
/// tell.
fn mirror_to<N: Opened + Mirrored + Send + Sync, R: Threads + Wait + Clock + Sync>(
    rt: &R,
    stage: &Stage<'_, SharedWorld<N>, Seat<N>>,
    work: MirrorWork,
    mirror: Mirror,
    reference: &WorldCore,
) -> Result<String, Refusal>
    requires { mirror ≡ N.book }
{
    let mut seat = stage.take_seat(rt)?;
    let frame = stage.shared.frame(rt, &mut seat)?;
    let mark = mark_if(stage.alloc, work.tries_open());
    let opened = mirror.open::<N>(stage.alloc, frame, work.readers());
    end_mark(&mark);
    let (publisher, readers) = opened?;
    let mut feed = Feed {
        shared: stage.shared,
        seat,
        publisher,
    };
    let told = do_work(rt, stage, work, &mut feed, readers, reference);
    let Feed {
        shared: _,
        seat,
        publisher,
    } = feed;
    publisher.close(rt);
    stage.give_back(rt, seat);
    told
}

/// Closes a world that was mirrored.
fn close_told<T: Drop, S: Shared<T>>(
    shared: S,
    seats: Vec<T>,
    told: Result<String, Refusal>,
    round: Round,
) -> Result<Left<S::World>, Refusal> {
    let told = told?;
    let mut left = close(shared, seats)?;
    left.seen.told = told;
    left.seen.pieces = round.pieces();
    left.seen.notes = round.into_notes();
    Ok(left)
}

/// Lets a mirror of an open world be fed, and closes the world.
fn mirror_all<N: Opened + Mirrored + Send + Sync, R: Threads + Wait + Clock + Sync>(
    rt: &R,
    sharing: Sharing<'_>,
    work: MirrorWork,
    shared: SharedWorld<N>,
    seats: Vec<Seat<N>>,
    mirror: Mirror,
) -> Result<Left<WorldCore>, Refusal>
    requires { mirror ≡ N.book }
{
    let stage = Stage::new(sharing.alloc, &shared, seats);
    let told = mirror_to(rt, &stage, work, mirror, sharing.reference);
    let (seats, round) = stage.into_parts();
    close_told(shared, seats, told, round)
}

/// Does the work with an open world, and closes it.
fn work_with<N: Opened + Mirrored + Send + Sync, R: Threads + Wait + Clock + Sync>(
    rt: &R,
    sharing: Sharing<'_>,
    shared: SharedWorld<N>,
    seats: Vec<Seat<N>>,
    mirror: Mirror,
) -> Result<Left<WorldCore>, Refusal>
    requires { mirror ≡ N.book }
{
    match sharing.work {
        Work::Seats(work) => work_all(rt, sharing.alloc, shared, seats, work),
        Work::Mirror(work) => mirror_all(rt, sharing, work, shared, seats, mirror),
    }
}

/// What became of a world that was open.
fn shut_by<W: World>(left: Result<Left<W>, Refusal>) -> Shut<W> {
    match left {
        Ok(left) => Shut::Closed(left),
        Err(refusal) => Shut::Lost(refusal),
    }
}

/// Opens the world to the seats of a roster, between marks where memory may be refused to that. The mirror has the
/// world's name. Where it can't be opened the world comes back as it was.
fn share<N: Opened + Mirrored + Send + Sync, R: Threads + Wait + Clock + Sync>(
    rt: &R,
    sharing: Sharing<'_>,
    world: WorldCore,
    roster: Roster<Command, Reply>,
    mirror: Mirror,
) -> Shut<WorldCore>
    requires world { (roster.table ≡ N.table) × (roster.seats ≡ N.seats) × (world ≡ N.opening) }
    requires mirror { mirror ≡ N.book }
{
    let mark = mark_if(sharing.alloc, sharing.work.tries_open());
    let opened = SharedWorld::<N>::open(sharing.alloc, world, roster);
    end_mark(&mark);
    match opened {
        Ok((shared, seats)) => shut_by(work_with(rt, sharing, shared, seats, mirror)),
        Err((world, refusal)) => Shut::Unopened(world, refusal),
    }
}

/// Opens the world to so many seats, lets the work be done, and closes it. A world that can't be opened for want of a
/// roster is dropped.
pub fn open_to<R: Threads + Wait + Clock + Sync>(
    rt: &R,
    alloc: Global,
    world: WorldCore,
    reference: &WorldCore,
    seats: u64,
    work: Work,
) -> Shut<WorldCore> {
    let sharing = Sharing {
        alloc,
        work,
        reference,
    };
    match Roster::new(alloc, seats) {
        Ok(roster) => share::<Brand, R>(rt, sharing, world, roster, Mirror::new()),
        Err(refusal) => {
            drop(world);
            Shut::Lost(refusal)
        }
    }
}

/// The same with a copy of the reference, which stays as it is.
pub fn share_copy<R: Threads + Wait + Clock + Sync>(
    rt: &R,
    alloc: Global,
    reference: &WorldCore,
    seats: u64,
    work: Work,
) -> Shut<WorldCore> {
    match World::copied(reference) {
        Ok(world) => open_to(rt, alloc, world, reference, seats, work),
        Err(refusal) => Shut::Lost(refusal),
    }
}
