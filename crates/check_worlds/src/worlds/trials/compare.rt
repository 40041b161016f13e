//! Two worlds compared, part by part.

use crate::whole_world::WholeWorld;
use crate::worlds::trials::stop::{Moment, Part, Stop};
use check_scenes::CAUSES;
use graph_colours::COLOURS;
use impulse_ledger::Ledger;
use plain_world::Body;
use solver_sets::{Census, SleepingSet};
use world_core::{Events, Frame, FrameBody, Item, Plain, SetName};

/// Stops where the two aren't equal.
pub fn expect(moment: Moment, part: Part, is_same: bool) -> Result<(), Stop> {
    if is_same {
        Ok(())
    } else {
        Err(Stop::Differs(moment, part))
    }
}

/// Stops where something differs.
fn expect_none(moment: Moment, difference: Option<Part>) -> Result<(), Stop> {
    match difference {
        Some(part) => Err(Stop::Differs(moment, part)),
        None => Ok(()),
    }
}

/// The first part that was found to differ. The comparison goes on after it, so that it is one way through all parts.
#[derive(Drop)]
struct Comparison {
    found: Option<Part>,
}

impl Comparison {
    fn new() -> Comparison {
        Comparison { found: None }
    }

    fn expect(&mut self, part: Part, is_same: bool) {
        if !is_same && self.found.is_none() {
            self.found = Some(part);
        }
    }
}

/// Stops where the two worlds differ: in their plain lists, their ledgers or their events.
pub fn expect_same_worlds<W: WholeWorld>(
    moment: Moment,
    first: &W,
    second: &W,
) -> Result<(), Stop> {
    match first.lists() {
        Ok(lists) => expect_world_of(moment, &lists, first, second),
        Err(refusal) => Err(Stop::from(refusal)),
    }
}

/// Stops where the second world differs from the first, whose lists these are.
fn expect_world_of<W: WholeWorld>(
    moment: Moment,
    lists: &Plain,
    first: &W,
    second: &W,
) -> Result<(), Stop> {
    expect_lists_of(moment, lists, second)?;
    expect_none(moment, difference_of_books(first, second))
}

/// Stops where these aren't the world's lists.
fn expect_lists_of<W: WholeWorld>(moment: Moment, lists: &Plain, world: &W) -> Result<(), Stop> {
    match world.lists() {
        Ok(others) => expect_same_lists(moment, lists, &others),
        Err(refusal) => Err(Stop::from(refusal)),
    }
}

/// In what the two worlds differ of their ledgers and their events.
fn difference_of_books<W: WholeWorld>(first: &W, second: &W) -> Option<Part> {
    let mut books = Comparison::new();
    let (ledger, other) = (first.ledger(), second.ledger());
    books.expect(Part::Entries, ledger.entries() == other.entries());
    books.expect(Part::Totals, are_same_totals(ledger, other));
    books.expect(
        Part::Events,
        are_same_events(first.events(), second.events()),
    );
    books.found
}

/// Stops where the two lists of worlds differ.
pub fn expect_same_lists(moment: Moment, first: &Plain, second: &Plain) -> Result<(), Stop> {
    expect_none(moment, difference_of_lists(first, second))
}

/// In what the two lists of worlds differ.
fn difference_of_lists(first: &Plain, second: &Plain) -> Option<Part> {
    let mut lists = Comparison::new();
    lists.expect(
        Part::SlotEntries,
        first.slot_entries() == second.slot_entries(),
    );
    lists.expect(
        Part::Bodies,
        are_same_bodies(first.bodies(), second.bodies()),
    );
    lists.expect(
        Part::JointEntries,
        first.joint_entries() == second.joint_entries(),
    );
    lists.expect(Part::Joints, first.joints() == second.joints());
    lists.expect(Part::Contacts, first.contacts() == second.contacts());
    lists.expect(Part::Colours, are_same_colours(first, second));
    lists.expect(Part::Islands, first.islands() == second.islands());
    lists.expect(Part::Gravity, first.gravity() == second.gravity());
    lists.expect(Part::Steps, first.steps() == second.steps());
    lists.expect(Part::Calls, first.calls() == second.calls());
    lists.found
}

/// Whether the two list the same in each set.
pub fn are_same_censuses(first: &Census, second: &Census) -> bool {
    first.static_set() == second.static_set()
        && first.disabled() == second.disabled()
        && first.awake() == second.awake()
        && are_same_sleepers(first.sleeping(), second.sleeping())
}

/// Whether each item of the world's census stands where the world says it does.
pub fn stand_as_listed<W: WholeWorld>(world: &W, census: &Census) -> bool {
    all_stand(world, census.static_set(), SetName::Static)
        && all_stand(world, census.disabled(), SetName::Disabled)
        && all_stand(world, census.awake(), SetName::Awake)
        && all_sleep(world, census.sleeping())
}

fn all_sleep<W: WholeWorld>(world: &W, sets: &[SleepingSet]) -> bool {
    for set in sets {
        if !all_stand(world, set.items(), SetName::Sleeping(set.name())) {
            return false;
        }
    }
    true
}

fn all_stand<W: WholeWorld>(world: &W, items: &[Item], set: SetName) -> bool {
    for item in items {
        if world.stand(*item) != Some(set) {
            return false;
        }
    }
    true
}

/// Whether the two frames show the same.
pub fn are_same_frames(first: &Frame, second: &Frame) -> bool {
    first.calls() == second.calls()
        && first.momentum() == second.momentum()
        && first.booked() == second.booked()
        && are_same_shown(first.bodies(), second.bodies())
}

fn are_same_shown(first: &[Option<FrameBody>], second: &[Option<FrameBody>]) -> bool {
    first.len() == second.len()
        && first
            .iter()
            .zip(second)
            .all(|(entry, other)| is_same_shown(entry, other))
}

fn is_same_shown(first: &Option<FrameBody>, second: &Option<FrameBody>) -> bool {
    match (first, second) {
        (Some(body), Some(other)) => {
            body.handle == other.handle
                && body.pose == other.pose
                && body.shapes.as_slice() == other.shapes.as_slice()
        }
        (None, None) => true,
        _ => false,
    }
}

fn are_same_sleepers(first: &[SleepingSet], second: &[SleepingSet]) -> bool {
    first.len() == second.len()
        && first.iter().zip(second).all(|(set, other)| set.name() == other.name()
            && set.items() == other.items())
}

fn are_same_bodies(first: &[Option<Body>], second: &[Option<Body>]) -> bool {
    first.len() == second.len()
        && first
            .iter()
            .zip(second)
            .all(|(entry, other)| is_same_entry(entry, other))
}

fn is_same_entry(first: &Option<Body>, second: &Option<Body>) -> bool {
    match (first, second) {
        (Some(body), Some(other)) => is_same_body(body, other),
        (None, None) => true,
        _ => false,
    }
}

fn is_same_body(first: &Body, second: &Body) -> bool {
    have_same_numbers(first, second) && have_same_shapes(first, second)
}

fn have_same_numbers(first: &Body, second: &Body) -> bool {
    first.kind == second.kind
        && first.mass == second.mass
        && first.motion == second.motion
        && first.timer == second.timer
        && first.asleep == second.asleep
        && first.enabled == second.enabled
}

fn have_same_shapes(first: &Body, second: &Body) -> bool {
    first.shapes.as_slice() == second.shapes.as_slice()
        && first.fats.as_slice() == second.fats.as_slice()
}

fn are_same_colours(first: &Plain, second: &Plain) -> bool {
    for colour in 0..COLOURS + 1 {
        if first.members(colour) != second.members(colour) {
            return false;
        }
    }
    true
}

fn are_same_totals(first: &Ledger, second: &Ledger) -> bool {
    for cause in CAUSES {
        if first.total_of(cause) != second.total_of(cause) {
            return false;
        }
    }
    first.total() == second.total()
}

fn are_same_events(first: &Events, second: &Events) -> bool {
    first.begin() == second.begin()
        && first.end() == second.end()
        && first.slept() == second.slept()
        && first.woke() == second.woke()
}
