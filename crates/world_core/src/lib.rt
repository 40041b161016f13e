//! A world of bodies, changed by one command at a time.
#![tactic(auto)]

mod activity;
mod booking;
mod collide;
mod colour_ids;
mod committing;
mod frame;
mod joining;
mod kept_awake;
mod laws;
mod list_to_wake;
mod membership;
mod own_contacts;
mod own_joints;
mod parts;
mod preparing;
mod pushes;
mod queries;
mod replay;
mod scratch;
mod sleep_phase;
mod sleep_test;
mod solving;
mod step_worker;
mod telling_movers;
mod waking_islands;
mod world;
mod world_ties;

pub use body_handles::{Handle, SlotEntry};
pub use collide::BodyShapes;
pub use crew::PieceMap;
pub use event_feed::Events;
pub use fixed_geom::{Refusal, Rot, Vec2};
pub use frame::{Frame, FrameBody};
pub use impulse_ledger::{Cause, Ledger, Total, Totals};
pub use laws::{coloured_rows_are_colours, each_call_books_little, grown_worlds_have_small_totals};
pub use momenta::MassData;
pub use plain_world::{
    Body, BodyDef, BodyJoint, BodyView, Constraint, ContactEntry, ContactKey, Course, FatBoxes,
    Joint, JointDef, Kind, NO_COURSE, Plain, SMOOTH, SetName, ShapeId, Surface,
};
pub use shapes::{Filter, Pose, Shape, ShapeDef, Shapes};
pub use solver_sets::{Census, Item, SleepingSet};
pub use step_worker::{OneThread, StepWorker, WorldLook};
pub use world::{WorldCore, is_tick_count};
pub use world_core_base::StepSolver;
pub use world_file::{Broken, Clause};
pub use world_rules::{Command, Reply, each_call_counts};
