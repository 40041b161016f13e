//! Why a text was not loaded.

ghost use Rattle.world_desk.specs.Texts.{IsOfError};

use serde_json::Error;
use world_core::Broken;

/// Why no world was loaded from bytes.
#[derive(Clone, Copy, Debug, PartialEq, Eq)]
pub enum Unread {
    /// The bytes are no text in UTF-8, or the text is no JSON.
    NoText,
    /// Memory was wanting, or the value breaks a clause of the format.
    Broken(Broken),
}

/// What it means for a world that its text was not read.
pub(crate) fn unread_of(error: &Error) -> Unread
    ensures { IsOfError error.now result }
{
    if error.is_memory() {
        Unread::Broken(Broken::NoMemory)
    } else {
        Unread::NoText
    }
}
