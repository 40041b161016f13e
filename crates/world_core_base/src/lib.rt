//! What a step works on.
//!
//! The bodies of a world by slot with what a step goes over (`BodyTable`: their states, and the slots of the awake
//! movers and of the bodies that are carried along), and what a step gathers of joints and contacts (`gather_rows`).
//!
//! Where a body, a joint or a contact stands is told by the bodies themselves. What is kept beside them are the
//! sleeping sets of the joints and of the contacts ([`SleepingSets`]; `joints_asleep.rt`, `contacts_asleep.rt`), since
//! an island that wakes asks for its constraints.
//!
//! The joints of a world by slot stand in [`JointTable`], with what a world asks of them at hand: beside them the ends
//! of joints by body, so that what asks for the joints of one body costs by those alone. Whether joints keep two bodies
//! from colliding is told by the joints of the one that has fewer.
#![tactic(auto)]

mod asleep;
mod body_state;
mod body_table;
mod contacts_asleep;
mod covers;
mod forbidden_pairs;
mod gather;
mod gathered_rows;
mod impulses;
mod joint_ends;
mod joint_row;
mod joint_table;
mod joints_asleep;
mod laws;
mod merging;
mod moving;
mod sleeping_sets;
mod slot_list;
mod slots;
mod step_solver;
mod telling_bodies;
mod timing;

pub use body_table::BodyTable;
pub use contacts_asleep::{follow_contacts, list_contacts_asleep};
pub use gather::{RowSources, gather_colour, gather_rows};
pub use gathered_rows::GatheredRows;
pub use impulses::put_impulses;
pub use joint_ends::Ends;
pub use joint_table::JointTable;
pub use laws::{arrays_are_solving, rows_are_colours};
pub use sleeping_sets::SleepingSets;
pub use step_solver::{Constraints, MovingSlots, Pace, StepSolver, run_alone};
