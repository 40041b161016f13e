//! Calls of a mirror to which memory may be refused.

use crate::calls::{Called, Feed, Reads, Shows, Told};
use crate::mirrors::example::push;
use crate::mirrors::untold::{BELOW, Look, UPWARDS, is_found};
use check_scenes::{CallMark, FIRST, ORIGIN};
use std::alloc::Global;
use std::sync::Wait;
use world_core::{Refusal, Total};

/// A call of a mirror.
#[derive(Clone, Copy, PartialEq, Eq)]
pub enum Call {
    Open,
    Publish,
    /// The publisher's mark.
    Seen,
    /// A reader's mark.
    ReaderSeen,
    TryCopy,
    Region,
    Pose,
    Total,
    Ray,
    Learn,
}

/// How many calls the circle's world had accepted when the mirror was opened.
const OPENED: u64 = 2;

const NOTHING: Total = Total { x: 0, y: 0 };

impl Call {
    /// The call that a word of the program names.
    pub fn of_word(word: &str) -> Option<Call> {
        match word {
            "open" => Some(Call::Open),
            "publish" => Some(Call::Publish),
            "seen" => Some(Call::Seen),
            "reader_seen" => Some(Call::ReaderSeen),
            "try_copy" => Some(Call::TryCopy),
            "region" => Some(Call::Region),
            "pose" => Some(Call::Pose),
            "total" => Some(Call::Total),
            "ray" => Some(Call::Ray),
            "learn" => Some(Call::Learn),
            _ => None,
        }
    }
}

/// Makes a call of a reader, and tells whether it is answered as it should be.
fn is_read<K: Told, D: Reads<K>>(
    alloc: Global,
    call: Call,
    reader: &mut D,
    mark: &K,
) -> Result<bool, Refusal> {
    match call {
        Call::ReaderSeen => Ok(reader.seen()?.shown().calls == OPENED),
        Call::TryCopy => Ok(mark.copied()?.shown().calls == OPENED),
        Call::Region => Ok(reader.over(alloc, ORIGIN, ORIGIN)?.len() == 1),
        Call::Pose => Ok(reader.pose(FIRST).is_some()),
        Call::Total => Ok(reader.total() == NOTHING),
        Call::Ray => Ok(reader.hit(BELOW, UPWARDS).is_some()),
        Call::Learn => {
            reader.learn(mark.copied()?);
            Ok(true)
        }
        _ => Ok(false),
    }
}

/// Makes the call, and tells whether it is answered as it should be.
fn is_answered<S: Called<T>, T: Drop, K: Told, P: Shows<S, T, K>, D: Reads<K>, R: Wait>(
    rt: &R,
    alloc: Global,
    call: Call,
    feed: &mut Feed<'_, S, T, P>,
    reader: &mut D,
    mark: &K,
) -> Result<bool, Refusal> {
    match call {
        Call::Open => Ok(true),
        Call::Publish => {
            let calls = feed.publisher.publish(rt, feed.shared, &mut feed.seat)?;
            Ok(calls == OPENED + 1)
        }
        Call::Seen => Ok(feed.publisher.seen()?.shown().calls == OPENED),
        _ => is_read(alloc, call, reader, mark),
    }
}

/// Whether the list of frames and what the reader shows are as they were.
fn is_kept<S, T, K: Told, P: Shows<S, T, K>, D: Reads<K>>(
    publisher: &P,
    reader: &mut D,
) -> Result<bool, Refusal> {
    let published = publisher.seen()?.shown().calls;
    let total = reader.total();
    let shown = reader.seen()?.shown().calls;
    Ok(published == OPENED && shown == OPENED && total == NOTHING)
}

/// Whether a reader that was told nothing finds the frame that the call published, if it was one that publishes.
fn is_shown<K: Told, D: Reads<K>>(
    alloc: Global,
    call: Call,
    reader: &mut D,
) -> Result<bool, Refusal> {
    match call {
        Call::Publish => is_found(alloc, Look::Total, reader, OPENED + 1),
        _ => Ok(true),
    }
}

/// Whether a frame can be published, and a reader that is told of it shows it.
fn is_published<S: Called<T>, T: Drop, K: Told, P: Shows<S, T, K>, D: Reads<K>, R: Wait>(
    rt: &R,
    feed: &mut Feed<'_, S, T, P>,
    reader: &mut D,
) -> Result<bool, Refusal> {
    let _ = feed.publisher.publish(rt, feed.shared, &mut feed.seat)?;
    reader.learn(feed.publisher.seen()?);
    Ok(reader.total().x == 256)
}

/// What is told of a call that was made once, or again.
fn told_of(is_right: Result<bool, Refusal>, right: &'static str) -> &'static str {
    match is_right {
        Ok(true) => right,
        Ok(false) => "differs: the answer",
        Err(_) => "differs: the refusal",
    }
}

/// Makes the call after a push, and once more where memory was refused to it; then publishes. Tells `kept` where the
/// refused call left all as it was, `none` where none was refused, and else what differs.
pub fn try_call<S: Called<T>, T: Drop, K: Told, P: Shows<S, T, K>, D: Reads<K>, R: Wait>(
    rt: &R,
    alloc: Global,
    call: Call,
    feed: &mut Feed<'_, S, T, P>,
    reader: &mut D,
) -> Result<&'static str, Refusal> {
    push(rt, feed.shared, &mut feed.seat)?;
    let told = feed.publisher.seen()?;
    let mark = CallMark::begin(alloc);
    let first = is_answered(rt, alloc, call, feed, reader, &told);
    if !mark.end() {
        return Ok("outside");
    }
    let mut outcome = told_of(first, "none");
    if first == Err(Refusal::NoMemory) {
        if !is_kept(&feed.publisher, reader)? {
            return Ok("differs: what is shown");
        }
        let again = is_answered(rt, alloc, call, feed, reader, &told);
        outcome = told_of(again, "kept");
    }
    if !is_shown(alloc, call, reader)? {
        return Ok("differs: a frame that was published isn't found");
    }
    if !is_published(rt, feed, reader)? {
        return Ok("differs: a later frame");
    }
    Ok(outcome)
}
