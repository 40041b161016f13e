//! The graph colouring of the active constraints, after Box2D's `constraint_graph.c`.
//!
//! Constraints of one colour share no mover, so that a step may solve them in any order, or side by
//! side. There are `COLOURS` colours and, after them, the overflow. A constraint takes the least
//! colour that none of its movers has yet, keeps it until it is released, and never moves another. A static
//! body is no mover and doesn't count.
#![tactic(auto)]

mod colours;
mod edited;
mod edits;
mod limits;
mod lists;
mod member;
mod removals;
mod taken_colours;

pub use colours::Colours;
pub use edited::EditedList;
pub use limits::{COLOURS, OVERFLOW, limits_in_digits};
pub use member::{ConstraintId, Member, Movers};
