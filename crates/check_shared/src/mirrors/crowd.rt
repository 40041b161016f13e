//! Readers on threads of their own, which a publisher tells of each frame by a mark.

use crate::calls::{Called, Feed, Reads, Shows, Told};
use crate::mirrors::example::push;
use frame_mirror::{Absorb, Change, Mark, Mirrored, Publisher, Reader, Showing};
use std::alloc::Global;
use std::sync::{Mutex, Wait};
use std::thread;
use std::thread::{Scope, Threads};
use world_core::Refusal;
use world_lock::{Opened, Seat, SharedWorld};

/// How many frames the publisher tells of.
const FRAMES: u64 = 20;

/// The marks that a reader is to learn, whether there will be no more, how many it learnt, and whether it ever showed
/// an older frame than before, or than one that it was told of.
#[derive(Drop)]
pub struct Letters<K: Drop> {
    marks: Vec<K>,
    is_over: bool,
    pub learnt: u64,
    pub went_back: bool,
}

impl<K: Drop> Letters<K> {
    pub fn new(alloc: Global) -> Letters<K> {
        Letters {
            marks: Vec::new(alloc),
            is_over: false,
            learnt: 0,
            went_back: false,
        }
    }

    /// A mark, and whether there is more to wait for.
    fn take(&mut self) -> (Option<K>, bool) {
        match self.marks.pop() {
            Some(mark) => {
                self.learnt = self.learnt.saturating_add(1);
                (Some(mark), true)
            }
            None => (None, !self.is_over),
        }
    }
}

/// What the reader shows now has so many calls; where that can't be told for want of memory, as many as before.
fn calls_of<K: Told, D: Reads<K>>(reader: &mut D, before: u64) -> u64 {
    let _ = reader.total();
    match reader.seen() {
        Ok(mark) => mark.shown().calls,
        Err(_) => before,
    }
}

/// Learns a mark, if there is one, and looks. Answers whether there is more to wait for.
fn look<K: Told, D: Reads<K>, R: Wait>(
    rt: &R,
    reader: &mut D,
    letters: &Mutex<Letters<K>>,
    shown: &mut u64,
) -> bool {
    let (mark, more) = letters.lock(rt).take();
    let mut least = *shown;
    if let Some(mark) = mark {
        least = least.max(mark.shown().calls);
        reader.learn(mark);
    }
    *shown = calls_of(reader, least);
    if *shown < least {
        letters.lock(rt).went_back = true;
    }
    more
}

/// Looks until there is nothing more to wait for.
fn watch<J: Mirrored, R: Wait>(rt: &R, mut reader: Reader<J>, letters: &Mutex<Letters<Mark<J>>>) {
    let mut shown = 0;
    for _ in rt.forever() {
        if !look(rt, &mut reader, letters, &mut shown) {
            break;
        }
    }
}

/// Starts a thread for each reader.
fn watch_all<'s, E, J: Mirrored + Send + Sync, R: Threads + Wait + Sync>(
    scope: &Scope<'s, E>,
    rt: &'s R,
    readers: Vec<Reader<J>>,
    boxes: &'s [Mutex<Letters<Mark<J>>>],
) -> Result<(), Refusal>
where
    J: 's,
{
    let mut place: usize = 0;
    for reader in readers {
        let Some(letters) = boxes.get(place) else {
            return Err(Refusal::OutOfRange);
        };
        if scope.spawn(move || watch(rt, reader, letters)).is_err() {
            return Err(Refusal::NoMemory);
        }
        place = place.saturating_add(1);
    }
    Ok(())
}

/// Tells each reader of what was published.
fn send_to_all<S, T, K: Told, P: Shows<S, T, K>, R: Wait>(
    rt: &R,
    publisher: &P,
    boxes: &[Mutex<Letters<K>>],
) -> Result<(), Refusal> {
    for letters in boxes {
        letters.lock(rt).marks.push(publisher.seen()?)?;
    }
    Ok(())
}

/// Tells each reader that there will be no more.
fn end_all<K: Told, R: Wait>(rt: &R, boxes: &[Mutex<Letters<K>>]) {
    for letters in boxes {
        letters.lock(rt).is_over = true;
    }
}

/// Pushes the circle and publishes, again and again, and tells the readers of each frame.
fn publish_often<S: Called<T>, T: Drop, K: Told, P: Shows<S, T, K>, R: Wait>(
    rt: &R,
    feed: &mut Feed<'_, S, T, P>,
    boxes: &[Mutex<Letters<K>>],
) -> Result<(), Refusal> {
    for _ in 0..FRAMES {
        push(rt, feed.shared, &mut feed.seat)?;
        let _ = feed.publisher.publish(rt, feed.shared, &mut feed.seat)?;
        send_to_all(rt, &feed.publisher, boxes)?;
    }
    Ok(())
}

/// Publishes while the readers look.
pub fn race<N: Opened, J: Mirrored + Send + Sync, R: Threads + Wait + Sync>(
    rt: &R,
    feed: &mut Feed<'_, SharedWorld<N>, Seat<N>, Publisher<J>>,
    readers: Vec<Reader<J>>,
    boxes: &[Mutex<Letters<Mark<J>>>],
) -> Result<(), Refusal>
where
    Showing<Mark<J>>: Absorb<Change<Mark<J>>, State = ()>,
{
    thread::scope(thread::scope_env(), rt, |scope| {
        let started = watch_all(scope, rt, readers, boxes);
        let published = publish_often(rt, feed, boxes);
        end_all(rt, boxes);
        started?;
        published
    })
}
