//! What the last accepted step of a world tells: the contacts that began and ended, and the bodies that
//! fell asleep and woke, each list ascending.
#![tactic(auto)]

mod events;

pub use events::Events;
