//! What a world shows, as text: two show the same just where their texts are the same.

use check_scenes::write_events;
use std::alloc::Global;
use std::fmt::Write;
use world_core::{Events, Frame, FrameBody, Handle, Refusal};

fn write_shown(text: &mut String, body: &FrameBody) -> Result<(), Refusal> {
    let handle: Handle = body.handle;
    write!(
        text,
        "{handle:?}{:?}{:?}",
        body.pose,
        body.shapes.as_slice()
    )?;
    Ok(())
}

/// What a frame shows: its number of calls, the momentum and the booked total, and its bodies.
pub fn text_of_frame(alloc: Global, frame: &Frame) -> Result<String, Refusal> {
    let mut text = String::new(alloc);
    let numbers = (frame.calls(), frame.momentum(), frame.booked());
    write!(text, "{numbers:?}")?;
    for entry in frame.bodies() {
        if let Some(body) = entry {
            write_shown(&mut text, body)?;
        }
    }
    Ok(text)
}

/// What events tell.
pub fn text_of_events(alloc: Global, events: &Events) -> Result<String, Refusal> {
    let mut text = String::new(alloc);
    write_events(&mut text, events)?;
    Ok(text)
}
