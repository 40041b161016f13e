//! What is done with a publisher and its readers.

ghost use Rattle.std.specs.Prelude.{◌≡◌};

use crate::calls::{Called, Feed, Reads, Shared, Shows, Told};
use crate::mirrors::crowd::{Letters, race};
use crate::mirrors::example::{publish_first, publish_second, push, read_on};
use crate::mirrors::refused::{Call, try_call};
use crate::mirrors::timing::{time_frames, time_poses, time_readers};
use crate::mirrors::untold::write_found;
use crate::mirrors::work::MirrorWork;
use crate::shared::race as race_round;
use crate::stage::Stage;
use check_scenes::World;
use frame_mirror::{Absorb, Change, Mark, Mirrored, Publisher, Reader, Showing};
use seat_book::Roster;
use std::alloc::Global;
use std::fmt::Write;
use std::marker::Brand;
use std::sync::{Mutex, Wait};
use std::thread::Threads;
use std::time::Clock;
use world_core::{Command, Refusal, Reply, WorldCore};
use world_lock::{Opened, Seat, SharedWorld};

/// Tries to publish a second world, and drops it.
fn publish_and_drop<
    T: Drop,
    S: Called<T> + Shared<T>,
    K: Told,
    P: Shows<S, T, K>,
    D: Reads<K>,
    R: Wait,
>(
    rt: &R,
    told: &mut String,
    shared: S,
    mut seats: Vec<T>,
    publisher: &mut P,
    reader: &mut D,
) -> Result<(), Refusal> {
    match seats.first_mut() {
        Some(seat) => publish_second(rt, told, &shared, seat, publisher, reader),
        None => Err(Refusal::WrongSeats),
    }
}

/// Opens a second world, and tries to publish it.
fn share_second<M: Opened, J: Mirrored, R: Wait>(
    rt: &R,
    told: &mut String,
    world: WorldCore,
    roster: Roster<Command, Reply>,
    publisher: &mut Publisher<J>,
    reader: &mut Reader<J>,
) -> Result<(), Refusal>
where
    Showing<Mark<J>>: Absorb<Change<Mark<J>>, State = ()>,
    requires { (roster.table ≡ M.table) × (roster.seats ≡ M.seats) × (world ≡ M.opening) }
{
    match SharedWorld::<M>::open(*told.allocator(), world, roster) {
        Ok((shared, seats)) => publish_and_drop(rt, told, shared, seats, publisher, reader),
        Err((world, refusal)) => {
            drop(world);
            Err(refusal)
        }
    }
}

fn try_second<J: Mirrored, R: Wait>(
    rt: &R,
    told: &mut String,
    reference: &WorldCore,
    publisher: &mut Publisher<J>,
    reader: &mut Reader<J>,
) -> Result<(), Refusal>
where
    Showing<Mark<J>>: Absorb<Change<Mark<J>>, State = ()>,
{
    let roster = Roster::new(*told.allocator(), 1)?;
    let world: WorldCore = World::copied(reference)?;
    share_second::<Brand, J, R>(rt, told, world, roster, publisher, reader)
}

/// The worked example.
fn show_example<N: Opened, J: Mirrored, R: Wait>(
    rt: &R,
    alloc: Global,
    feed: &mut Feed<'_, SharedWorld<N>, Seat<N>, Publisher<J>>,
    mut readers: Vec<Reader<J>>,
    reference: &WorldCore,
) -> Result<String, Refusal>
where
    Showing<Mark<J>>: Absorb<Change<Mark<J>>, State = ()>,
{
    let mut told = String::new(alloc);
    let (Some(mut untold), Some(mut reader)) = (readers.pop(), readers.pop()) else {
        return Err(Refusal::OutOfRange);
    };
    publish_first(rt, &mut told, feed, &mut reader)?;
    try_second(rt, &mut told, reference, &mut feed.publisher, &mut reader)?;
    read_on(&mut told, alloc, &mut reader, &mut untold)?;
    Ok(told)
}

/// Two frames are published, and after each the readers look.
fn show_untold<N: Opened, J: Mirrored, R: Wait>(
    rt: &R,
    alloc: Global,
    feed: &mut Feed<'_, SharedWorld<N>, Seat<N>, Publisher<J>>,
    mut readers: Vec<Reader<J>>,
) -> Result<String, Refusal>
where
    Showing<Mark<J>>: Absorb<Change<Mark<J>>, State = ()>,
{
    let mut told = String::new(alloc);
    for _ in 0..2 {
        push(rt, feed.shared, &mut feed.seat)?;
        let calls = feed.publisher.publish(rt, feed.shared, &mut feed.seat)?;
        write_found(&mut told, alloc, readers.as_mut_slice(), calls)?;
    }
    Ok(told)
}

/// A box of letters for each reader.
fn boxes_for<K: Drop>(alloc: Global, readers: usize) -> Result<Vec<Mutex<Letters<K>>>, Refusal> {
    let mut boxes = Vec::new(alloc);
    for _ in 0..readers {
        boxes.push(Mutex::new(Letters::new(alloc)))?;
    }
    Ok(boxes)
}

/// What came of the readers on threads of their own.
fn told_by_crowd<K: Drop>(alloc: Global, boxes: Vec<Mutex<Letters<K>>>) -> Result<String, Refusal> {
    let mut told = String::new(alloc);
    for letters in boxes {
        let letters = letters.into_inner();
        let (learnt, went_back) = (letters.learnt, letters.went_back);
        writeln!(
            told,
            "on a thread: {learnt} marks learnt, went back: {went_back}"
        )?;
    }
    Ok(told)
}

/// Readers on threads of their own.
fn show_crowd<N: Opened, J: Mirrored + Send + Sync, R: Threads + Wait + Sync>(
    rt: &R,
    alloc: Global,
    feed: &mut Feed<'_, SharedWorld<N>, Seat<N>, Publisher<J>>,
    readers: Vec<Reader<J>>,
) -> Result<String, Refusal>
where
    Showing<Mark<J>>: Absorb<Change<Mark<J>>, State = ()>,
{
    let boxes = boxes_for(alloc, readers.len())?;
    race(rt, feed, readers, boxes.as_slice())?;
    told_by_crowd(alloc, boxes)
}

/// One call, while memory may be refused to it.
fn show_trial<N: Opened, J: Mirrored, R: Wait>(
    rt: &R,
    alloc: Global,
    call: Call,
    feed: &mut Feed<'_, SharedWorld<N>, Seat<N>, Publisher<J>>,
    mut readers: Vec<Reader<J>>,
) -> Result<String, Refusal>
where
    Showing<Mark<J>>: Absorb<Change<Mark<J>>, State = ()>,
{
    match readers.first_mut() {
        Some(reader) => {
            let word = try_call(rt, alloc, call, feed, reader)?;
            Ok(format!(in alloc; "{word}\n")?)
        }
        None => Err(Refusal::OutOfRange),
    }
}

/// How long poses and publications take.
fn show_times<N: Opened, J: Mirrored, R: Wait + Clock>(
    rt: &R,
    alloc: Global,
    feed: &mut Feed<'_, SharedWorld<N>, Seat<N>, Publisher<J>>,
    mut readers: Vec<Reader<J>>,
    times: u64,
) -> Result<String, Refusal>
where
    Showing<Mark<J>>: Absorb<Change<Mark<J>>, State = ()>,
{
    let mut told = String::new(alloc);
    match readers.first_mut() {
        Some(reader) => time_poses(rt, &mut told, reader, times)?,
        None => return Err(Refusal::OutOfRange),
    }
    time_frames(rt, &mut told, feed, times / 1_000)?;
    Ok(told)
}

/// How long poses of readers take, each of which is on a thread of its own.
fn show_readers<N: Opened, J: Mirrored + Send + Sync, R: Threads + Wait + Clock + Sync>(
    rt: &R,
    alloc: Global,
    feed: &mut Feed<'_, SharedWorld<N>, Seat<N>, Publisher<J>>,
    readers: Vec<Reader<J>>,
    times: u64,
) -> Result<String, Refusal>
where
    Showing<Mark<J>>: Absorb<Change<Mark<J>>, State = ()>,
{
    let mut told = String::new(alloc);
    time_readers(rt, &mut told, feed, readers, times)?;
    Ok(told)
}

/// Nothing is told of what went well.
fn told_nothing(alloc: Global, done: Result<(), Refusal>) -> Result<String, Refusal> {
    match done {
        Ok(()) => Ok(String::new(alloc)),
        Err(refusal) => Err(refusal),
    }
}

/// Does the work that needs no other seat.
fn do_alone<N: Opened, J: Mirrored + Send + Sync, R: Threads + Wait + Clock + Sync>(
    rt: &R,
    alloc: Global,
    work: MirrorWork,
    feed: &mut Feed<'_, SharedWorld<N>, Seat<N>, Publisher<J>>,
    readers: Vec<Reader<J>>,
    reference: &WorldCore,
) -> Result<String, Refusal>
where
    Showing<Mark<J>>: Absorb<Change<Mark<J>>, State = ()>,
{
    match work {
        MirrorWork::Example => show_example(rt, alloc, feed, readers, reference),
        MirrorWork::Untold => show_untold(rt, alloc, feed, readers),
        MirrorWork::Crowd => show_crowd(rt, alloc, feed, readers),
        MirrorWork::Try(Call::Open) => Ok(String::new(alloc)),
        MirrorWork::Try(call) => show_trial(rt, alloc, call, feed, readers),
        MirrorWork::Time(times) => show_times(rt, alloc, feed, readers, times),
        MirrorWork::TimeReaders(_, times) => show_readers(rt, alloc, feed, readers, times),
        MirrorWork::Round(_) => Ok(String::new(alloc)),
    }
}

/// Does the work with the publisher and the readers of a mirror. Answers what there is to tell.
pub fn do_work<
    N: Opened + Send + Sync,
    J: Mirrored + Send + Sync,
    R: Threads + Wait + Clock + Sync,
>(
    rt: &R,
    stage: &Stage<'_, SharedWorld<N>, Seat<N>>,
    work: MirrorWork,
    feed: &mut Feed<'_, SharedWorld<N>, Seat<N>, Publisher<J>>,
    readers: Vec<Reader<J>>,
    reference: &WorldCore,
) -> Result<String, Refusal>
where
    Showing<Mark<J>>: Absorb<Change<Mark<J>>, State = ()>,
{
    match work {
        MirrorWork::Round(work) => {
            told_nothing(stage.alloc, race_round(rt, stage, work, feed, readers))
        }
        work => do_alone(rt, stage.alloc, work, feed, readers, reference),
    }
}
