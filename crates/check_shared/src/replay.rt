//! Journals that are replayed on one thread.

use crate::calls::{Left, Shut};
use check_scenes::World;
use world_core::Refusal;
use world_lock::JournalEntry;

/// Whether the journal's commands, applied to the world one after another, give its replies.
pub fn replays<W: World>(world: &mut W, journal: &[JournalEntry]) -> bool {
    for entry in journal {
        if world.apply(&entry.call.command) != Ok(entry.call.reply) {
            return false;
        }
    }
    true
}

/// What is left of a world, if it was shared.
pub fn left_in<W: World>(shut: Shut<W>) -> Result<Left<W>, Refusal> {
    match shut {
        Shut::Closed(left) => Ok(left),
        Shut::Unopened(_, refusal) => Err(refusal),
        Shut::Lost(refusal) => Err(refusal),
    }
}
