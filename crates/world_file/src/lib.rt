//! Saved worlds: a world as one JSON value, and a world that is read from one.
//!
//! A saved world is an object. `write` makes one of a plain world and the totals of its ledger, in version 2 of the
//! form. `read` takes one of version 1 or 2, each by its own limits, and answers the first of the ten clauses
//! (`Clause`) that it breaks, or the world. The clauses are asked in their order over the whole value. What is read
//! costs by its size: no clause is tested by comparing all with all.
#![tactic(auto)]

mod colours;
mod components;
mod laws;
mod memberships;
mod momentum;
mod numbered_colours;
mod references;
mod saved_world;
mod ties;
mod world;

pub use impulse_ledger::Totals;
pub use laws::{
    asking_finds_the_first, merging_makes_components, what_is_read_is_sound, what_is_written_fits,
    what_is_written_is_read_again,
};
pub use memberships::list_labels;
pub use numbered_colours::{colour_at, colours_by_number, joint_number};
pub use plain_world::Plain;
pub use saved_world::{MOST_TICKS, Saved};
pub use world::{fit, read, write};
pub use world_file_base::{Broken, Clause, Version};
