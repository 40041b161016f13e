//! Lists as they are handed in, and as they are told.

use crate::assertions::{same, same_items};
use body_handles::Handle;
use contacts_base::{ContactKey, ShapeId};
use event_feed::Events;
use std::alloc::Global;
use std::process::Abort;
use std::test::Fail;

fn key(slot: u32, index: u8, other: u32) -> ContactKey {
    ContactKey {
        first: ShapeId { slot, index },
        second: ShapeId {
            slot: other,
            index: 0,
        },
    }
}

fn body(slot: u32, generation: u32) -> Handle {
    Handle { slot, generation }
}

/// The lists as they are handed in.
fn handed_in(alloc: Global) -> Result<Events, Fail> {
    let begin = vec![in alloc;
        key(2, 0, 3),
        key(0, 1, 9),
        key(2, 0, 3),
        key(0, 0, 9),
        key(0, 0, 4),
    ]?;
    let end = vec![in alloc; key(0, 7, 1), key(1, 0, 2)]?;
    let slept = vec![in alloc; body(5, 1), body(3, 2), body(3, 1)]?;
    let woke = vec![in alloc; body(65_535, 1), body(0, 4_294_967_294)]?;
    Ok(Events::from_lists(begin, end, slept, woke))
}

/// The contacts that began, ascending.
fn begun() -> [ContactKey; 5] {
    [
        key(0, 0, 4),
        key(0, 0, 9),
        key(0, 1, 9),
        key(2, 0, 3),
        key(2, 0, 3),
    ]
}

/// The bodies that woke, ascending.
fn woken() -> [Handle; 2] {
    [body(0, 4_294_967_294), body(65_535, 1)]
}

/// The lists as they are handed in, and a copy of them from before they were cleared.
fn cleared_and_copied(alloc: Global) -> Result<[Events; 2], Fail> {
    let mut events = handed_in(alloc)?;
    let copy = events.try_copy()?;
    events.clear();
    Ok([events, copy])
}

/// How many bodies fell asleep before any list was handed in.
fn slept_at_first(alloc: Global) -> usize {
    Events::new(alloc).slept().len()
}

fn see_lists(rt: &impl Abort, events: &Events) {
    same_items(rt, events.begin(), &begun());
    same_items(rt, events.end(), &[key(0, 7, 1), key(1, 0, 2)]);
    same_items(rt, events.slept(), &[body(3, 1), body(3, 2), body(5, 1)]);
    same_items(rt, events.woke(), &woken());
}

fn see_none(rt: &impl Abort, events: &Events) {
    same_items(rt, events.begin(), &[]);
    same_items(rt, events.woke(), &[]);
}

/// Each list ascends, and a copy keeps what is cleared.
#[test]
fn tells_each_list_ascending(rt: HostRuntime) -> Result<(), Fail> {
    let [cleared, events] = &cleared_and_copied(rt.alloc())?;
    see_lists(&rt, events);
    see_none(&rt, cleared);
    same(&rt, &slept_at_first(rt.alloc()), &0);
    Ok(())
}
