//! Islands that fall asleep and wake, with their constraints, after Box2D's solver sets.
//!
//! A constraint (a joint, or a contact that touches) acts while all its movers are awake, and has a colour just then.
//! An island wakes as a whole, and its constraints take colours; it falls asleep as a whole, and they give them up.
//! Where a constraint begins or ends, its sleeping movers wake first. In the sleep phase of a step one loose island
//! that is ready to sleep is split, and each whole one that is ready falls asleep. Which constraints an island has is
//! told by a [`TieSource`].
//!
//! What holds throughout is `IsConsistent` of the definitions: the constraints ascend, the islands are those that their
//! links make, and the constraints with a colour are just those that act. The functions of [`laws`] say what keeps
//! it and what follows from it.
#![tactic(auto)]

mod change;
pub mod examples;
mod gathering;
mod graph;
pub mod laws;
mod listing;
mod movers_in_islands;
mod names;
mod phase;
mod resting;
mod sets;
mod splits;
mod tie_source;
mod ties;
mod work;

pub use change::Change;
pub use names::{push_some, put_some, sort_once};
pub use phase::{TICKS_TO_SLEEP, limits_in_digits};
pub use sets::Sets;
pub use tie_source::TieSource;
