//! The world of a text.

ghost use Rattle.std.specs.Prelude.{IfErr, IfOk, IfSome, MatchResult};
ghost use Rattle.serde_json.specs.Read.{read};
ghost use Rattle.world_desk.specs.Texts.{BreaksOf, IsLoaded, IsUnread};

use crate::unread::{Unread, unread_of};
use loaded_text::read_text;
use serde_json::Value;
use std::alloc::Global;
use world_core::{Broken, WorldCore};

/// The world of a text that says what a save writes, with any spaces and its keys in any order, which is read with no
/// value of it. Nothing is answered of any other text: it is to be read as a value.
pub fn read_world(alloc: Global, text: &[u8]) -> Option<Result<WorldCore, Broken>>
    ensures { IfSome result (λ r. MatchResult r (IsLoaded text.now) (BreaksOf (read text.now))) }
{
    let read = read_text(alloc, text)?;
    match read {
        Ok((plain, totals)) => match WorldCore::from_plain(alloc, &plain, totals) {
            Ok(world) => Some(Ok(world)),
            Err(_) => Some(Err(Broken::NoMemory)),
        },
        Err(broken) => Some(Err(broken)),
    }
}

/// The world of the value that a text denotes.
pub(crate) fn read_value(alloc: Global, text: &[u8]) -> Result<WorldCore, Unread>
    ensures loaded { IfOk result (IsLoaded text.now) }
    ensures refused { IfErr result (IsUnread text.now) }
{
    let value = match Value::from_slice(alloc, text) {
        Ok(value) => value,
        Err(error) => return Err(unread_of(&error)),
    };
    match WorldCore::load(alloc, &value) {
        Ok(world) => Ok(world),
        Err(broken) => Err(Unread::Broken(broken)),
    }
}

/// The world of any text.
pub(crate) fn world_of_text(alloc: Global, text: &[u8]) -> Result<WorldCore, Unread>
    ensures loaded { IfOk result (IsLoaded text.now) }
    ensures refused { IfErr result (IsUnread text.now) }
{
    match read_world(alloc, text) {
        Some(Ok(world)) => Ok(world),
        Some(Err(broken)) => Err(Unread::Broken(broken)),
        None => read_value(alloc, text),
    }
}
