//! The rules of a world: what each command does to it, and what every world keeps.
#![tactic(auto)]

mod command;
mod laws;
mod limits;

pub use command::{Command, Reply};
pub use laws::{
    colours_are_apart, each_call_counts, each_stands_in_one_set, linked_movers_stand_together,
    plain_lists_determine_all, sleeping_sets_are_components, what_acts_has_a_colour,
};
pub use limits::{MAX_CALLS, MAX_TICKS};
