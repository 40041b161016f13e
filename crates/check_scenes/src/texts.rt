//! All of a world as text: two are the same just where their texts are.

use crate::world::World;
use graph_colours::COLOURS;
use std::alloc::Global;
use std::fmt::Write;
use world_core::{Body, Cause, Events, Ledger, Plain, Refusal};

/// All causes by which momentum is booked.
pub const CAUSES: [Cause; 6] = [
    Cause::Command,
    Cause::Gravity,
    Cause::Immovable,
    Cause::Clamp,
    Cause::Rest,
    Cause::Departed,
];

fn write_body(text: &mut String, body: &Body) -> Result<(), Refusal> {
    let (kind, mass, motion) = (body.kind, body.mass, body.motion);
    let (timer, asleep, enabled) = (body.timer, body.asleep, body.enabled);
    let (shapes, fats) = (body.shapes.as_slice(), body.fats.as_slice());
    write!(
        text,
        "{kind:?} {mass:?} {motion:?} {timer} {asleep:?} {enabled} {shapes:?} {fats:?};"
    )?;
    Ok(())
}

fn write_bodies(text: &mut String, bodies: &[Option<Body>]) -> Result<(), Refusal> {
    for entry in bodies {
        match entry {
            Some(body) => write_body(text, body)?,
            None => text.push_str("free;")?,
        }
    }
    Ok(())
}

/// The constraints of each colour, and of the overflow.
fn write_colours(text: &mut String, lists: &Plain) -> Result<(), Refusal> {
    for colour in 0..COLOURS + 1 {
        write!(text, "{:?}", lists.members(colour))?;
    }
    Ok(())
}

fn write_lists(text: &mut String, lists: &Plain) -> Result<(), Refusal> {
    write!(
        text,
        "{:?}{:?}",
        lists.slot_entries(),
        lists.joint_entries()
    )?;
    write_bodies(text, lists.bodies())?;
    write!(text, "{:?}{:?}", lists.joints(), lists.contacts())?;
    write_colours(text, lists)?;
    write!(text, "{:?}{:?}", lists.islands(), lists.gravity())?;
    write!(text, " {} {}", lists.steps(), lists.calls())?;
    Ok(())
}

/// What the last step told.
pub fn write_events(text: &mut String, events: &Events) -> Result<(), Refusal> {
    write!(text, "{:?}{:?}", events.begin(), events.end())?;
    write!(text, "{:?}{:?}", events.slept(), events.woke())?;
    Ok(())
}

fn write_ledger(text: &mut String, ledger: &Ledger) -> Result<(), Refusal> {
    for cause in CAUSES {
        write!(text, "{:?}", ledger.total_of(cause))?;
    }
    write!(text, "{:?}", ledger.entries())?;
    Ok(())
}

/// All of a world: its plain lists, its events, its totals and its entries.
pub fn text_of<W: World>(alloc: Global, world: &W) -> Result<String, Refusal> {
    let mut text = String::new(alloc);
    match world.lists() {
        Ok(lists) => write_lists(&mut text, &lists)?,
        Err(refusal) => return Err(refusal),
    }
    write_events(&mut text, world.events())?;
    write_ledger(&mut text, world.ledger())?;
    Ok(text)
}
