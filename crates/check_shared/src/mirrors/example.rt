//! The worked example: two readers, one of which is told of what is published.

use crate::calls::{Called, Feed, Reads, Shows, Told};
use crate::mirrors::untold::{BELOW, Look, UPWARDS, is_found};
use check_scenes::FIRST;
use std::alloc::Global;
use std::fmt::Write;
use std::sync::Wait;
use world_core::{Command, Refusal, Vec2};

const LOW: Vec2 = Vec2 { x: 0, y: -157 };

const HIGH: Vec2 = Vec2 { x: 2, y: -157 };

fn call<T: Drop, S: Called<T>, R: Wait>(
    rt: &R,
    shared: &S,
    seat: &mut T,
    command: Command,
) -> Result<(), Refusal> {
    let _ = shared.call(rt, seat, command)?;
    Ok(())
}

/// Pushes the circle.
pub fn push<T: Drop, S: Called<T>, R: Wait>(
    rt: &R,
    shared: &S,
    seat: &mut T,
) -> Result<(), Refusal> {
    call(
        rt,
        shared,
        seat,
        Command::Push(FIRST, Vec2 { x: 256, y: 0 }),
    )
}

/// Pushes the circle twice.
fn push_twice<T: Drop, S: Called<T>, R: Wait>(
    rt: &R,
    shared: &S,
    seat: &mut T,
) -> Result<(), Refusal> {
    push(rt, shared, seat)?;
    push(rt, shared, seat)
}

fn write_published(told: &mut String, answer: Result<u64, Refusal>) -> Result<(), Refusal> {
    writeln!(told, "published: {answer:?}")?;
    Ok(())
}

/// What a reader shows of the circle, and the ledger's total.
fn write_reader<K, D: Reads<K>>(
    told: &mut String,
    name: &str,
    reader: &mut D,
) -> Result<(), Refusal> {
    let (pose, total) = (reader.pose(FIRST), reader.total());
    writeln!(told, "{name}: {pose:?}, {total:?}")?;
    Ok(())
}

/// What lies where the circle came to, and what a ray from below hits.
fn write_shapes<K, D: Reads<K>>(
    told: &mut String,
    alloc: Global,
    reader: &mut D,
) -> Result<(), Refusal> {
    let over = reader.over(alloc, LOW, HIGH)?;
    let over = over.as_slice();
    writeln!(told, "over the region: {over:?}")?;
    let hit = reader.hit(BELOW, UPWARDS);
    writeln!(told, "from below: {hit:?}")?;
    Ok(())
}

/// The reader learns a copy of the other's mark.
fn pass_on<K: Told, D: Reads<K>>(from: &D, to: &mut D) -> Result<(), Refusal> {
    let mark = from.seen()?;
    to.learn(mark.copied()?);
    Ok(())
}

/// Which marks the longer of two covers, and whether the shorter one covers it.
fn write_covered<K: Told>(told: &mut String, short: &K, long: &K) -> Result<(), Refusal> {
    let copy = long.copied()?;
    let (itself, before, after) = (long.covers(&copy), long.covers(short), short.covers(long));
    writeln!(
        told,
        "covers its copy: {itself}, the mark before: {before}, the mark after: {after}"
    )?;
    Ok(())
}

/// The first world is pushed and stepped, and published.
pub fn publish_first<S: Called<T>, T: Drop, K: Told, P: Shows<S, T, K>, D: Reads<K>, R: Wait>(
    rt: &R,
    told: &mut String,
    feed: &mut Feed<'_, S, T, P>,
    reader: &mut D,
) -> Result<(), Refusal> {
    push_twice(rt, feed.shared, &mut feed.seat)?;
    call(rt, feed.shared, &mut feed.seat, Command::Step(1))?;
    let before = feed.publisher.seen()?;
    let answer = feed.publisher.publish(rt, feed.shared, &mut feed.seat);
    write_published(told, answer)?;
    write_covered(told, &before, &feed.publisher.seen()?)?;
    reader.learn(feed.publisher.seen()?);
    write_reader(told, "told", reader)
}

/// A second world, which has fewer calls, isn't published.
pub fn publish_second<S: Called<T>, T: Drop, K: Told, P: Shows<S, T, K>, D: Reads<K>, R: Wait>(
    rt: &R,
    told: &mut String,
    shared: &S,
    seat: &mut T,
    publisher: &mut P,
    reader: &mut D,
) -> Result<(), Refusal> {
    push_twice(rt, shared, seat)?;
    write_published(told, publisher.publish(rt, shared, seat))?;
    write_reader(told, "told", reader)
}

/// The other reader finds what was published by itself, and learns then what the first has seen.
pub fn read_on<K: Told, D: Reads<K>>(
    told: &mut String,
    alloc: Global,
    reader: &mut D,
    untold: &mut D,
) -> Result<(), Refusal> {
    let published = reader.seen()?.shown().calls;
    let _ = is_found(alloc, Look::Total, untold, published)?;
    write_reader(told, "untold", untold)?;
    write_shapes(told, alloc, reader)?;
    pass_on(reader, untold)?;
    write_reader(told, "untold", untold)
}
