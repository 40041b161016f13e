//! Steps solved by parts: each worker runs all ticks of a step with some of its movers, in one go, and hands bodies on
//! to the others.
//!
//! Each mover has a home, one of the parts: strips of the world with as many rows each. A part has its movers' bodies,
//! and the rows whose first mover is its own, in memory of its own. A body that a row of another part needs moves there
//! before the row's colour, and after the last colour it goes home. Nobody reads what another writes: what moves goes
//! through rings from worker to worker. Which mover is of which part, and whether a step is worth its workers, is a
//! guess: any gives the same numbers as one thread.
#![tactic(auto)]

mod alarm;
mod back;
mod by_parts;
mod dealing;
mod exchange;
mod head;
mod homes;
mod lending;
mod lent;
mod mail;
mod moves;
mod part_memory;
mod part_pass;
mod part_work;
mod parting;
mod ports;
mod rings;
mod run;
mod seat;
mod seat_map;
mod seating;
mod seeing;
mod stages;
mod step_lists;
mod step_memory;
mod sums;
mod team;
mod walk;
mod work_guess;

pub use by_parts::PartSolver;
pub use part_memory::{LEAST_CONSTRAINTS, LEAST_PARTS, PartMemory};
pub use seat::{Part, Seat};
pub use seat_map::SeatMap;
