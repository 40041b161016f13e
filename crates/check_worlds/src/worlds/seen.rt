//! What a check sees of a world, and how it is told.

mod values;

use crate::worlds::trials::{Outcome, Stop};
use check_scenes::Answer;
use fixed_geom::Box2;
use impulse_ledger::Entry;
use islands::Label;
use std::fmt;
use values::{Facing, Id, Key, Name, Pair, Set, State, Sum, Way, Why};
use world_core::{BodyView, Cause, ContactKey, Handle, Item, Pose, Reply, Total};
use world_queries::Hit;

/// A value that a check saw.
#[derive(Clone, Copy)]
pub enum Seen {
    Answer(Answer),
    Body(Option<BodyView>),
    /// A number of things of a kind.
    Count(&'static str, u64),
    Colour(Option<u8>),
    /// What a ray hits first.
    Hit(Option<Hit>),
    Begun(ContactKey),
    Ended(ContactKey),
    Slept(Handle),
    Woke(Handle),
    /// The last step told of nothing.
    NoEvents,
    Entry(Entry),
    /// The sum of all entries, or of those of a cause.
    Total(Option<Cause>, Total),
    FatBox(Option<Box2>),
    /// The island of the body in a slot.
    Island(u32, Option<Label>),
    Pose(Option<Pose>),
    /// A total of a frame.
    Shown(&'static str, Total),
    /// A body of the census.
    Listed(Option<Handle>),
    /// What stands in the set of the disabled.
    Disabled(Item),
    Truth(&'static str, bool),
    /// What came of a call to which memory may be refused.
    Trial(&'static str, Result<Outcome, Stop>),
    /// What is found in worlds that differ so.
    Compared(&'static str, Result<(), Stop>),
}

/// A line of output.
#[derive(Clone, Copy)]
pub enum Line {
    /// The name of a check, which begins.
    Name(&'static str),
    Saw(Seen),
}

fn write_answer<W: fmt::Write>(f: &mut fmt::Formatter<W>, answer: Answer) -> fmt::Result {
    match answer {
        Ok(Reply::Body(handle)) => {
            let id = Id(handle);
            write!(f, "body {id}")
        }
        Ok(Reply::Joint(handle)) => {
            let id = Id(handle);
            write!(f, "joint {id}")
        }
        Ok(Reply::Done) => f.write_str("done"),
        Ok(Reply::Stepped(number)) => write!(f, "step {number}"),
        Err(refusal) => {
            let number = refusal.number();
            write!(f, "refused {number}")
        }
    }
}

fn write_body<W: fmt::Write>(f: &mut fmt::Formatter<W>, view: BodyView) -> fmt::Result {
    let (at, facing, p) = (Pair(view.at), Facing(view.facing), Pair(view.p));
    let (l, set, way) = (view.l, Set(view.set), Way(view.course));
    write!(f, "{set} at {at}, facing {facing}, p {p}, l {l}{way}")
}

fn write_colour<W: fmt::Write>(f: &mut fmt::Formatter<W>, colour: Option<u8>) -> fmt::Result {
    match colour {
        Some(colour) => write!(f, "colour {colour}"),
        None => f.write_str("no colour"),
    }
}

fn write_hit<W: fmt::Write>(f: &mut fmt::Formatter<W>, hit: Option<Hit>) -> fmt::Result {
    match hit {
        Some(Hit { fraction, shape }) => {
            let shape = Name(shape);
            write!(f, "hit {shape} at {fraction}")
        }
        None => f.write_str("no hit"),
    }
}

fn write_entry<W: fmt::Write>(f: &mut fmt::Formatter<W>, entry: Entry) -> fmt::Result {
    let Entry { call, cause, x, y } = entry;
    let cause = Why(cause);
    write!(f, "call {call} booked {cause} ({x}, {y})")
}

fn write_total<W: fmt::Write>(
    f: &mut fmt::Formatter<W>,
    cause: Option<Cause>,
    total: Total,
) -> fmt::Result {
    let total = Sum(total);
    match cause {
        Some(cause) => {
            let cause = Why(cause);
            write!(f, "total of {cause} {total}")
        }
        None => write!(f, "total {total}"),
    }
}

fn write_box<W: fmt::Write>(f: &mut fmt::Formatter<W>, fat: Option<Box2>) -> fmt::Result {
    match fat {
        Some(Box2 { lo, hi }) => {
            let (lo, hi) = (Pair(lo), Pair(hi));
            write!(f, "fat box {lo} to {hi}")
        }
        None => f.write_str("no fat box"),
    }
}

fn write_island<W: fmt::Write>(
    f: &mut fmt::Formatter<W>,
    slot: u32,
    label: Option<Label>,
) -> fmt::Result {
    match label {
        Some(Label { name, state }) => {
            let state = State(state);
            write!(f, "slot {slot} in island {name}, {state}")
        }
        None => write!(f, "slot {slot} in no island"),
    }
}

fn write_pose<W: fmt::Write>(f: &mut fmt::Formatter<W>, pose: Option<Pose>) -> fmt::Result {
    match pose {
        Some(Pose { x, rot }) => {
            let (at, facing) = (Pair(x), Facing(rot));
            write!(f, "shown at {at}, facing {facing}")
        }
        None => f.write_str("not shown"),
    }
}

fn write_listed<W: fmt::Write>(f: &mut fmt::Formatter<W>, handle: Option<Handle>) -> fmt::Result {
    match handle {
        Some(handle) => {
            let id = Id(handle);
            write!(f, "static set: {id}")
        }
        None => f.write_str("static set: empty"),
    }
}

fn write_disabled<W: fmt::Write>(f: &mut fmt::Formatter<W>, item: Item) -> fmt::Result {
    match item {
        Item::Body(handle) => write_handle(f, "disabled: body", handle),
        Item::Joint(handle) => write_handle(f, "disabled: joint", handle),
        Item::Contact(key) => write_key(f, "disabled: contact", key),
    }
}

fn write_key<W: fmt::Write>(f: &mut fmt::Formatter<W>, what: &str, key: ContactKey) -> fmt::Result {
    let key = Key(key);
    write!(f, "{what} {key}")
}

fn write_handle<W: fmt::Write>(
    f: &mut fmt::Formatter<W>,
    what: &str,
    handle: Handle,
) -> fmt::Result {
    let id = Id(handle);
    write!(f, "{what} {id}")
}

fn write_trial<W: fmt::Write>(
    f: &mut fmt::Formatter<W>,
    call: &str,
    outcome: Result<Outcome, Stop>,
) -> fmt::Result {
    match outcome {
        Ok(outcome) => write!(f, "{call}: {outcome}"),
        Err(stop) => write!(f, "{call}: {stop}"),
    }
}

fn write_compared<W: fmt::Write>(
    f: &mut fmt::Formatter<W>,
    difference: &str,
    found: Result<(), Stop>,
) -> fmt::Result {
    match found {
        Ok(()) => write!(f, "{difference}: the same"),
        Err(stop) => write!(f, "{difference}: {stop}"),
    }
}

impl fmt::Display for Seen {
    fn fmt<W: fmt::Write>(&self, f: &mut fmt::Formatter<W>) -> fmt::Result {
        match *self {
            Seen::Answer(answer) => write_answer(f, answer),
            Seen::Body(Some(view)) => write_body(f, view),
            Seen::Body(None) => f.write_str("no body"),
            Seen::Count(what, count) => write!(f, "{count} {what}"),
            Seen::Colour(colour) => write_colour(f, colour),
            Seen::Hit(hit) => write_hit(f, hit),
            Seen::Begun(key) => write_key(f, "begun", key),
            Seen::Ended(key) => write_key(f, "ended", key),
            Seen::Slept(handle) => write_handle(f, "slept", handle),
            Seen::Woke(handle) => write_handle(f, "woke", handle),
            Seen::NoEvents => f.write_str("no events"),
            Seen::Entry(entry) => write_entry(f, entry),
            Seen::Total(cause, total) => write_total(f, cause, total),
            Seen::FatBox(fat) => write_box(f, fat),
            Seen::Island(slot, label) => write_island(f, slot, label),
            Seen::Pose(pose) => write_pose(f, pose),
            Seen::Shown(what, total) => {
                let total = Sum(total);
                write!(f, "{what} {total}")
            }
            Seen::Listed(handle) => write_listed(f, handle),
            Seen::Disabled(item) => write_disabled(f, item),
            Seen::Truth(what, is_true) => write!(f, "{what}: {is_true}"),
            Seen::Trial(call, outcome) => write_trial(f, call, outcome),
            Seen::Compared(difference, found) => write_compared(f, difference, found),
        }
    }
}

impl fmt::Display for Line {
    fn fmt<W: fmt::Write>(&self, f: &mut fmt::Formatter<W>) -> fmt::Result {
        match *self {
            Line::Name(name) => f.write_str(name),
            Line::Saw(seen) => write!(f, "  {seen}"),
        }
    }
}
