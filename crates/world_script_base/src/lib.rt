//! What the program's lines are made of, below the world's commands.
//!
//! - A line of JSON, as far as a request can have it ([`Line`]): the keys of its object, and their values ([`Fields`]).
//! - Answers, as compact JSON ([`Answer`]).
//! - Whether a text may be a saved world, told by its tokens before a value is made of it ([`may_be_world`]).
//! - Where a saved world breaks a clause, for whoever has to mend it ([`broken_path`]).
//! - What can be seen of a world's joints ([`joint_view`]).
#![tactic(auto)]

mod answers;
mod faults;
mod fields;
mod joint_views;
mod line;
mod line_reader;
mod pairs;
mod pen;
mod reports;
mod saved_keys;
mod saved_object;
mod saved_paths;
mod saved_scan;
mod saved_ways;
mod shape_fields;
mod stop;
mod tokens;
mod values;

pub use answers::{Answer, BodyList, JointReport, SeatReport};
pub use faults::{Fault, LineFault, Reason};
pub use fields::Fields;
pub use joint_views::{JointView, joint_view, stretch_is_what_a_step_begins_with};
pub use line::Line;
pub use line_reader::{LONGEST, LineReader, Outbox};
pub use saved_paths::{SavedList, SavedPath, broken_path};
pub use saved_scan::may_be_world;
pub use saved_ways::{Part, Way};
pub use stop::Stop;
