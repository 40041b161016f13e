//! A step on arrays: the bodies by slot and the joints and the touching contacts in solve order, colour after colour,
//! with the passes of a tick over both.
//!
//! A step works on two dense arrays (`BodyState`, `ConstraintRow`), runs its ticks over them (`run_step`) and writes
//! back what came of it, as Box2D v3 does with its body states and contact constraints. So the inner loops look nothing
//! up, and a step that is refused before has changed nothing. A `BodyState` that is `movable` is an awake mover. Of the
//! others those that are carried along move on at the end of each tick, and the rest (static, asleep, disabled, or no
//! body) stay as they are. A pass over the bodies goes over the slots of the awake movers alone, or over those of the
//! bodies that are carried along.
#![tactic(auto)]

mod colour_ends;
mod colour_passes;
mod colour_rows;
mod constraint_passes;
mod constraint_row;
mod constraint_visits;
mod courses;
mod passes;
mod phase;
mod row_pass;
mod row_visits;
mod ticks;
mod visit_one;
mod write_back;

pub use colour_rows::Rows;
pub use constraint_passes::Passes;
pub use constraint_row::ConstraintRow;
pub use constraint_visits::{Bounce, Solve, Warm};
pub use courses::carry_along;
pub use passes::{Change, Gains, pass_two};
pub use phase::Phase;
pub use row_pass::pass_rows;
pub use row_visits::{Row, Slots, Visit, colours_at_once};
pub use ticks::{Limit, Move, Pull, StepSums, run_step, run_ticks};
pub use visit_one::solve_one;
