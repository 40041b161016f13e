//! A world at somebody's desk: beside it the text of its last save, the lists that the last questions found, the tags
//! of its bodies, and the events of step after step.
//!
//! Callers that can't be handed a list of their own, as programs in C, ask first and fetch then: a question keeps what
//! it found, until the next of its kind.
#![tactic(auto)]

mod desk;
mod loading;
mod log;
mod step_event;
mod tags;
mod text;
mod unread;

pub use desk::Desk;
pub use loading::read_world;
pub use step_event::{EventBody, StepEvent, Tagged};
pub use text::text_of;
pub use unread::Unread;
pub use world_digest::digest;
