//! Which constraints a world has, who stands beside whom, and what that means for the sets in which bodies sleep and
//! wake, after Box2D's solver sets.
//!
//! The constraints of a world, its ties, are its joints by slot and then its touching contacts by key, each with those
//! of its two bodies that are movers (`Ties.ties_of`). The crate says what each change of bodies, joints and contacts
//! does to them ([`laws`]), so that what is known of ties, islands and colours in general applies to a world; which
//! movers a change wakes (`Beside`); and which bodies have fallen asleep or woken (`Slept`).
#![tactic(auto)]

mod begin_and_end;
mod beside;
mod census;
mod changes;
mod given;
pub mod laws;
mod slept;
mod standing;
mod ties;
mod timers;

pub use begin_and_end::{begin_with, end_with};
pub use beside::list_joined;
pub use census::{Census, Item, SleepingSet, take_census};
pub use changes::list_changes;
pub use given::{count_members, list_all_ties, list_members};
pub use slept::{fill_newly_asleep, fill_newly_awake};
pub use standing::{standing_by_key, standing_of_contact, standing_of_joint};
pub use ties::{contact_movers, is_mover_at, joint_movers, joint_tie, movers_with, tie_with};
pub use timers::{fill_awake_timers, is_moving_at};
