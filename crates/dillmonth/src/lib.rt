//! Worlds for programs in C, and in whatever calls C: the header is `bindings/c/dillmonth.h`.
//!
//! A caller holds a world as a struct of one pointer (`CWorld`). Each call takes the desk out of it, works on it and
//! puts it back. A call answers a status: 0 where it did what it says, the number of a refusal, or one of this
//! boundary's own. Nothing is printed, no thread is started, and no call ends the process.
#![tactic(auto)]

mod batch;
mod body_getters;
mod commands;
mod constraint_getters;
mod contact_lists;
mod conversions;
mod events;
mod filters;
mod forms;
mod frame_reading;
mod frames;
mod getter_forms;
mod held;
mod keeping;
mod motions;
mod moving;
mod on_shape;
mod poses;
mod raw_box;
mod rays;
mod reading;
mod regions;
mod shown;
mod statuses;
mod tallies;
mod targets;

pub use batch::dm_apply_all;
pub use body_getters::{dm_body_in, dm_contacts_of, dm_info, dm_joints_of, dm_shapes};
pub use commands::{
    dm_create_body, dm_create_joint, dm_destroy_body, dm_destroy_joint, dm_disable, dm_enable,
    dm_push, dm_push_at, dm_set_gravity, dm_set_pose, dm_set_velocity, dm_sleep, dm_step, dm_wake,
};
pub use constraint_getters::{dm_colour_of, dm_joint, dm_joint_in, dm_joints};
pub use contact_lists::{dm_contacts, dm_contacts_listed};
pub use events::{dm_events, dm_events_clear, dm_set_tag, dm_tag};
pub use filters::CFilter;
pub use forms::{
    CAnswer, CBodyDef, CBox, CCommand, CContact, CContactPoint, CEvent, CFacing, CHandle,
    CJointDef, CPair, CPose, CShape, CShapeId, CVector, CView,
};
pub use frame_reading::{
    CFrameRef, dm_frame_calls, dm_frame_pose, dm_frame_ray, dm_frame_region, dm_frame_total,
};
pub use frames::{CFrame, dm_frame_drop, dm_frame_take};
pub use getter_forms::{CBodyInfo, CCounts, CJointView, CSum};
pub use held::CWorld;
pub use keeping::{
    dm_close, dm_copy, dm_digest, dm_load, dm_open, dm_save, dm_saved, dm_settle, dm_version,
};
pub use moving::{CMotion, dm_motion, dm_push_to, dm_set_target, dm_twist, dm_twist_to};
pub use on_shape::{CShapeHit, dm_ray_on_shape};
pub use poses::{dm_moved, dm_poses};
pub use rays::{CHit, dm_hits_found, dm_ray, dm_ray_all, dm_ray_through};
pub use reading::{dm_begun, dm_body, dm_ended, dm_gravity, dm_slept, dm_steps, dm_woke};
pub use regions::{dm_region, dm_region_found, dm_region_through};
pub use statuses::statuses_in_digits;
pub use tallies::{dm_count, dm_rules, dm_total, dm_total_of};
