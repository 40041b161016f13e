//! Readers that look while seats work and another one publishes.

use crate::calls::{Feed, Reads, Shows, Told, publish_until};
use crate::shared::notes::{Answered, Notes};
use crate::shared::round::Round;
use crate::shared::seats::{ALONG, FROM, start_seats};
use crate::shared::work::RoundWork;
use crate::stage::Stage;
use frame_mirror::{Absorb, Change, Mark, Mirrored, Publisher, Reader, Showing};
use std::sync::Wait;
use std::thread;
use std::thread::{Scope, Threads};
use world_core::Refusal;
use world_lock::{Opened, Seat, SharedWorld};

/// Looks once: casts a ray and asks for the total. If a step waits, it may go on then.
fn look<K: Told, D: Reads<K>>(reader: &mut D, round: &Round, notes: &mut Notes) {
    let was_held = round.is_held();
    let (hit, total) = (reader.hit(FROM, ALONG), reader.total());
    if was_held {
        notes.answered = Some(Answered {
            total,
            hit,
            is_held: round.is_held(),
        });
        round.open();
    }
    if let Ok(mark) = reader.seen() {
        notes.look(mark.shown(), total, hit);
    }
}

/// What the thread of a reader does: it looks until all is over.
fn watch<J: Mirrored, R: Wait>(rt: &R, mut reader: Reader<J>, round: &Round) {
    let mut notes = Notes::new();
    for _ in rt.forever() {
        look(&mut reader, round, &mut notes);
        if round.is_over() {
            break;
        }
        thread::yield_now();
    }
    round.add(rt, notes);
}

/// Starts a thread for each reader.
fn watch_all<'s, E, J: Mirrored + Send + Sync + 's, R: Threads + Wait + Sync>(
    scope: &Scope<'s, E>,
    rt: &'s R,
    readers: Vec<Reader<J>>,
    round: &'s Round,
) -> Result<(), Refusal> {
    for reader in readers {
        if scope.spawn(move || watch(rt, reader, round)).is_err() {
            return Err(Refusal::NoThread);
        }
    }
    Ok(())
}

/// Starts the readers and the seats.
fn start_threads<
    's,
    E,
    N: Opened + Send + Sync + 's,
    J: Mirrored + Send + Sync + 's,
    R: Threads + Wait + Sync,
>(
    scope: &Scope<'s, E>,
    rt: &'s R,
    stage: &'s Stage<'s, SharedWorld<N>, Seat<N>>,
    work: RoundWork,
    readers: Vec<Reader<J>>,
) -> Result<(), Refusal> {
    watch_all(scope, rt, readers, &stage.round)?;
    start_seats(scope, rt, stage, work)
}

/// Publishes while the seats work, if their threads were started, and ends the round.
fn publish_meanwhile<S, T, K, P: Shows<S, T, K>, R: Wait>(
    rt: &R,
    started: Result<(), Refusal>,
    work: RoundWork,
    feed: &mut Feed<'_, S, T, P>,
    round: &Round,
) -> Result<(), Refusal> {
    let published = match started {
        Ok(()) => publish_until(rt, feed, round.done(), work.seats()),
        Err(refusal) => Err(refusal),
    };
    round.open();
    round.end();
    let mut notes = Notes::new();
    notes.publish(published?);
    round.add(rt, notes);
    Ok(())
}

/// Lets the other seats work on threads of their own while this one publishes and the readers look.
pub fn race<N: Opened + Send + Sync, J: Mirrored + Send + Sync, R: Threads + Wait + Sync>(
    rt: &R,
    stage: &Stage<'_, SharedWorld<N>, Seat<N>>,
    work: RoundWork,
    feed: &mut Feed<'_, SharedWorld<N>, Seat<N>, Publisher<J>>,
    readers: Vec<Reader<J>>,
) -> Result<(), Refusal>
where
    Showing<Mark<J>>: Absorb<Change<Mark<J>>, State = ()>,
{
    if !work.is_held() {
        stage.round.open();
    }
    thread::scope(thread::scope_env(), rt, |scope| {
        let started = start_threads(scope, rt, stage, work, readers);
        publish_meanwhile(rt, started, work, feed, &stage.round)
    })
}
