//! How long readers and publishers take.

use crate::calls::{Called, Feed, Reads, Shows, Told, publish_until};
use crate::timing::{now, write_each};
use check_scenes::FIRST;
use frame_mirror::{Absorb, Change, Mark, Mirrored, Publisher, Reader, Showing};
use std::fmt::Write;
use std::sync::Wait;
use std::sync::atomic::{AtomicU64, Ordering};
use std::thread;
use std::thread::{Scope, Threads};
use std::time::Clock;
use world_core::Refusal;
use world_lock::{Opened, Seat, SharedWorld};

/// So many poses.
fn read_often<K, D: Reads<K>>(reader: &mut D, times: u64) -> u64 {
    let mut found: u64 = 0;
    for _ in 0..times {
        if reader.pose(FIRST).is_some() {
            found = found.saturating_add(1);
        }
    }
    found
}

/// Times poses of a reader to which nothing new is shown.
pub fn time_poses<K: Told, D: Reads<K>, R: Clock>(
    rt: &R,
    told: &mut String,
    reader: &mut D,
    times: u64,
) -> Result<(), Refusal> {
    let start = now(rt);
    let found = read_often(reader, times);
    write_each(told, "pose", now(rt).saturating_sub(start), found)
}

/// Times frames of the world alone, and publications of them.
pub fn time_frames<S: Called<T>, T: Drop, K: Told, P: Shows<S, T, K>, R: Clock + Wait>(
    rt: &R,
    told: &mut String,
    feed: &mut Feed<'_, S, T, P>,
    times: u64,
) -> Result<(), Refusal> {
    let start = now(rt);
    for _ in 0..times {
        let _shown = feed.shared.look(rt, &mut feed.seat)?;
    }
    write_each(told, "frame", now(rt).saturating_sub(start), times)?;
    let start = now(rt);
    for _ in 0..times {
        let _ = feed.publisher.publish(rt, feed.shared, &mut feed.seat)?;
    }
    write_each(told, "publish", now(rt).saturating_sub(start), times)
}

/// What a reader does on its thread.
fn read_on_thread<J: Mirrored>(mut reader: Reader<J>, times: u64, done: &AtomicU64) {
    let _found = read_often(&mut reader, times);
    let _ = done.fetch_add(1, Ordering::SeqCst);
}

/// Starts a thread for each reader.
fn read_all<'s, E, J: Mirrored + Send + Sync + 's>(
    scope: &Scope<'s, E>,
    readers: Vec<Reader<J>>,
    times: u64,
    done: &'s AtomicU64,
) -> Result<(), Refusal> {
    for reader in readers {
        if scope
            .spawn(move || read_on_thread(reader, times, done))
            .is_err()
        {
            return Err(Refusal::NoThread);
        }
    }
    Ok(())
}

fn race_in<'s, E, N: Opened, J: Mirrored + Send + Sync + 's, R: Wait>(
    scope: &Scope<'s, E>,
    rt: &R,
    feed: &mut Feed<'_, SharedWorld<N>, Seat<N>, Publisher<J>>,
    readers: Vec<Reader<J>>,
    times: u64,
    done: &'s AtomicU64,
) -> Result<u64, Refusal>
where
    Showing<Mark<J>>: Absorb<Change<Mark<J>>, State = ()>,
{
    let count = readers.len() as u64;
    read_all(scope, readers, times, done)?;
    publish_until(rt, feed, done, count)
}

/// Times poses of readers on threads of their own, while this one publishes.
pub fn time_readers<N: Opened, J: Mirrored + Send + Sync, R: Threads + Wait + Clock + Sync>(
    rt: &R,
    told: &mut String,
    feed: &mut Feed<'_, SharedWorld<N>, Seat<N>, Publisher<J>>,
    readers: Vec<Reader<J>>,
    times: u64,
) -> Result<(), Refusal>
where
    Showing<Mark<J>>: Absorb<Change<Mark<J>>, State = ()>,
{
    let (count, done) = (readers.len() as u64, AtomicU64::new(0));
    let word = &done;
    let start = now(rt);
    let frames = thread::scope(thread::scope_env(), rt, |scope| {
        race_in(scope, rt, feed, readers, times, word)
    })?;
    let nanos = now(rt).saturating_sub(start);
    writeln!(
        told,
        "{count} readers on threads, {frames} frames published meanwhile"
    )?;
    write_each(told, "poses of all", nanos, times.saturating_mul(count))
}
